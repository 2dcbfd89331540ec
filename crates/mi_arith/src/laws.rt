//! Laws of every arithmetic, each on a call that does nothing: what is done over it stands for what is done over plain
//! numbers, at each pair that it covers.
ghost use Rattle.std.specs.Prelude.{ℕ, ◌≡◌, ◌≢◌, ◌<◌, ◌≤◌, ◌+◌, ◌^◌, ◌⊎◌, true, false, List, Option, None, Some, [], ◌∷◌, length, map, slice_set, Ok, Err};
ghost use Rattle.mi_model.specs.declared.Pair.{Pair};
ghost use Rattle.mi_model.specs.Plain.{plain_ops};
ghost use Rattle.mi_model.specs.declared.Fault.{Fault};
ghost use Rattle.mi_model.specs.declared.Fault.TheVariants.{Throw};
ghost use Rattle.mi_model.specs.declared.Effect.TheVariants.{Went};
ghost use Rattle.mi_model.specs.Ops.Test.{Below};
ghost use Rattle.mi_model.specs.Machine.{Machine, asked, invalid_address, undefined_word};
ghost use Rattle.mi_model.specs.Layout.{order_count_cell};
ghost use Rattle.mi_model.specs.Markers.{check_wordlists, restore_wordlists, do_domarker};
ghost use Rattle.mi_model.specs.MarkerLaws.{AreWordlists, Descend, with_heads, SameFromForth, domarker_reads};
ghost use Rattle.mi_model.specs.Region.{offset_of, fetch, get, with_cell, with_moved, with_filled, with_text};
ghost use Rattle.mi_model.specs.Table.{act};
ghost use Rattle.mi_model.specs.Action.{Action, AnswerKind};
ghost use Rattle.mi_model.specs.Outcome.{outcome_of};
ghost use Rattle.mi_model.specs.Met.{operations_met, Begins};
ghost use Rattle.mi_model.specs.Stands.{Each, MachineStands, Agrees, OutcomeStands};
ghost use Rattle.mi_model.specs.Kernel.{Kernel};
ghost use Rattle.mi_model.specs.Build.{fresh_build};
ghost use Rattle.mi_model.specs.Run.{run};
ghost use Rattle.mi_model.specs.Chains.{chain_length, resolve};
ghost use Rattle.mi_model.specs.ChainLaws.{IsChain, AllDiffer, with_cells};
ghost use Rattle.mi_model.specs.Agreeing.{BuildAgrees, RunAgrees};

use crate::Arith;

/// Any action: that of an instruction, giving a line or the end, the recovery, the finish, the entry. On a machine that
/// stands for a plain one it gives what it gives on that one, and leaves machines of which one stands for the other, or
/// throws the same, unless an operation is refused. The operations that it does stand for the first of the plain ones.
pub fn actions_agree<A: Arith>(arith: &A)
    ensures outcome { (pair : Pair) → A.covers arith.now pair → (i : AnswerKind) (action : Action i) (m : Machine A.Cell A.Byte) (n : Machine ℕ ℕ)
        → MachineStands (λ x k. A.stands arith.now x pair k) (λ b k. A.byte_stands arith.now b pair k) m n
        → Agrees (OutcomeStands (λ x k. A.stands arith.now x pair k) (λ b k. A.byte_stands arith.now b pair k)) (outcome_of (A.ops arith.now) action m []) (outcome_of (plain_ops pair (A.size arith.now)) action n []) }
    ensures met { (pair : Pair) → A.covers arith.now pair → (i : AnswerKind) (action : Action i) (m : Machine A.Cell A.Byte) (n : Machine ℕ ℕ)
        → MachineStands (λ x k. A.stands arith.now x pair k) (λ b k. A.byte_stands arith.now b pair k) m n
        → Begins (λ x k. A.stands arith.now x pair k) (operations_met (A.ops arith.now) action m []) (operations_met (plain_ops pair (A.size arith.now)) action n []) }
{}

/// A whole build from any kernel on: it ends as the plain one does, with a machine that stands for the plain one's, and
/// writes the same; or an operation is refused, and what was written until then is the first that the plain one writes.
pub fn builds_agree<A: Arith>(arith: &A)
    ensures { (pair : Pair) → A.covers arith.now pair → (kernel : Kernel) (size : ℕ) (texts : List (List ℕ)) (entry : Option (List ℕ)) (turns : ℕ)
        → BuildAgrees (λ x k. A.stands arith.now x pair k) (λ b k. A.byte_stands arith.now b pair k) (fresh_build kernel (A.ops arith.now) size texts entry turns) (fresh_build kernel (plain_ops pair (A.size arith.now)) size texts entry turns) }
{}

/// A whole run of a region whose bytes stand for those of a plain one: it ends as the plain one does and writes the
/// same; or an operation is refused, and what was written until then is the first that the plain one writes.
pub fn runs_agree<A: Arith>(arith: &A)
    ensures { (pair : Pair) → A.covers arith.now pair → (kernel : Kernel) (region : List A.Byte) (plain_region : List ℕ) (input : List ℕ) (turns : ℕ)
        → Each (λ b k. A.byte_stands arith.now b pair k) region plain_region
        → RunAgrees (run kernel (A.ops arith.now) region input turns) (run kernel (plain_ops pair (A.size arith.now)) plain_region input turns) }
{}

/// The two walks over a chain of branches. Where the first one counts its members, these are the members of the chain,
/// they all differ, and the first walk has changed nothing; the second one then throws nothing, is refused nothing, and
/// makes each member the target.
pub fn chains_are_resolved<A: Arith>(arith: &A)
    ensures { (m n : Machine A.Cell A.Byte) (c target : A.Cell) (count : ℕ) → outcome_of (A.ops arith.now) chain_length m (c ∷ []) ≡ Ok (count, n)
        → (os : List ℕ) × IsChain (A.ops arith.now) m.bytes c os × (count ≡ length os) × AllDiffer os × (n ≡ m)
        × (outcome_of (A.ops arith.now) (resolve count) m (c ∷ (target ∷ [])) ≡ Ok (tt, record m { bytes = with_cells (A.ops arith.now) m.bytes os target })) }
{}

/// A token in whose cell no tag's code address stands throws -9, and one of a word that the kernel doesn't have -13.
pub fn unknown_tokens_throw<A: Arith>(arith: &A)
    ensures no_code { (kernel : Kernel) (m : Machine A.Cell A.Byte) (x code : A.Cell) → fetch (A.ops arith.now) m.bytes x ≡ Ok code → asked ((A.ops arith.now).tag code) ≡ Ok None
        → outcome_of (A.ops arith.now) (act kernel) m (x ∷ []) ≡ Err (Throw invalid_address) }
    ensures no_word { (kernel : Kernel) (m : Machine A.Cell A.Byte) (x code : A.Cell) (t : ℕ) → fetch (A.ops arith.now) m.bytes x ≡ Ok code → asked ((A.ops arith.now).tag code) ≡ Ok (Some t)
        → kernel.has t ≡ false → outcome_of (A.ops arith.now) (act kernel) m (x ∷ []) ≡ Err (Throw undefined_word) }
{}

/// Each write that an action may do leaves every byte outside it as it was, and the length of the bytes: a cell, a byte
/// and a text that are put, n bytes that are moved to an offset, n bytes that are filled. Where n bytes are moved or
/// filled, they lie in the bytes.
pub fn writes_leave_other_bytes<A: Arith>(arith: &A)
    ensures cell { (bytes : List A.Byte) (o i : ℕ) (x : A.Cell) → (i < o) ⊎ (o + 8 ≤ i) → get (A.ops arith.now) (with_cell (A.ops arith.now) bytes o x) i ≡ get (A.ops arith.now) bytes i }
    ensures byte { (bytes : List A.Byte) (o i : ℕ) (b : A.Byte) → i ≢ o → get (A.ops arith.now) (slice_set bytes o b) i ≡ get (A.ops arith.now) bytes i }
    ensures moved { (bytes : List A.Byte) (from to n i : ℕ) → from + n ≤ length bytes → to + n ≤ length bytes → (i < to) ⊎ (to + n ≤ i)
        → get (A.ops arith.now) (with_moved bytes from to n) i ≡ get (A.ops arith.now) bytes i }
    ensures filled { (bytes : List A.Byte) (o n i : ℕ) (b : A.Byte) → o + n ≤ length bytes → (i < o) ⊎ (o + n ≤ i)
        → get (A.ops arith.now) (with_filled bytes o n b) i ≡ get (A.ops arith.now) bytes i }
    ensures text { (bytes : List A.Byte) (o i : ℕ) (text : List ℕ) → (i < o) ⊎ (o + length text ≤ i) → get (A.ops arith.now) (with_text (A.ops arith.now) bytes o text) i ≡ get (A.ops arith.now) bytes i }
    ensures lengths { (bytes : List A.Byte)
        → ((o : ℕ) (x : A.Cell) → length (with_cell (A.ops arith.now) bytes o x) ≡ length bytes)
        × ((o : ℕ) (b : A.Byte) → length (slice_set bytes o b) ≡ length bytes)
        × ((from to n : ℕ) → from + n ≤ length bytes → to + n ≤ length bytes → length (with_moved bytes from to n) ≡ length bytes)
        × ((o n : ℕ) (b : A.Byte) → o + n ≤ length bytes → length (with_filled bytes o n b) ≡ length bytes)
        × ((o : ℕ) (text : List ℕ) → length (with_text (A.ops arith.now) bytes o text) ≡ length bytes) }
{}

/// The two walks of `(DOMARKER)` over the wordlists, in a region of at most 8,388,608 bytes. The old end of the
/// dictionary has an offset, and the first wordlist's address is below it; the action has tested both. Where the first
/// walk gives a count, it has changed nothing, and so many wordlists are there from the first one on: they all differ,
/// since each ends at or below the one before it, and the first one begins below the old end. The second walk then
/// throws nothing and is refused nothing, and makes the head of each wordlist 0 or its first header below the old end:
/// on the same machine, and on each that has the same bytes from 240 on, as where the search order has been written.
pub fn markers_restore<A: Arith>(arith: &A)
    ensures walks { A.size arith.now ≤ 2 ^ 23 → (m n : Machine A.Cell A.Byte) (old voc : A.Cell) (end count headers left : ℕ)
        → offset_of (A.ops arith.now) old ≡ Ok end → asked ((A.ops arith.now).test Below voc old) ≡ Ok true
        → outcome_of (A.ops arith.now) (check_wordlists headers left 0) m (old ∷ (voc ∷ [])) ≡ Ok (count, n)
        → (lists : List (ℕ × A.Cell)) × AreWordlists (A.ops arith.now) m.bytes old end headers voc lists × (count ≡ length lists)
        × Descend (end + 15) lists × AllDiffer (map (λ (l : ℕ × A.Cell). l.0) lists) × (n ≡ m)
        × ((k : Machine A.Cell A.Byte) → SameFromForth m.bytes k.bytes → outcome_of (A.ops arith.now) (restore_wordlists headers count) k (old ∷ (voc ∷ []))
        ≡ Ok (tt, record k { bytes = with_heads (A.ops arith.now) k.bytes lists })) }
    ensures order { (bytes : List A.Byte) (o : ℕ) → o + 136 ≤ length bytes → 240 ≤ length bytes → SameFromForth bytes (with_moved bytes o order_count_cell 136) }
{}

/// `(DOMARKER)` with any token, in a region of 65,536 to 8,388,608 bytes. Where the part of it that only reads gives a
/// count, that has changed nothing, and the whole action goes through and changes bytes of the region alone. Where that
/// part throws or is refused, the whole action throws or is refused the same. So it never faults when it has written.
pub fn marker_goes_through<A: Arith>(arith: &A)
    ensures through { A.size arith.now ≤ 2 ^ 23 → (m n : Machine A.Cell A.Byte) (token : A.Cell) (count : ℕ) → 2 ^ 16 ≤ length m.bytes
        → outcome_of (A.ops arith.now) domarker_reads m (token ∷ []) ≡ Ok (count, n)
        → (n ≡ m) × ((bytes : List A.Byte) × (outcome_of (A.ops arith.now) do_domarker m (token ∷ []) ≡ Ok (Went, record m { bytes = bytes }))) }
    ensures faults { A.size arith.now ≤ 2 ^ 23 → (m : Machine A.Cell A.Byte) (token : A.Cell) (fault : Fault) → 2 ^ 16 ≤ length m.bytes
        → outcome_of (A.ops arith.now) domarker_reads m (token ∷ []) ≡ Err fault
        → outcome_of (A.ops arith.now) do_domarker m (token ∷ []) ≡ Err fault }
{}
