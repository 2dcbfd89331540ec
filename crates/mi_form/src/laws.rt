//! Laws of forms, each on a call that does nothing.
ghost use Rattle.std.specs.Prelude.{◌≡◌, ◌≢◌, ◌↔◌, ℕ, ◌<◌, ◌≤◌, ◌*◌, [], Ok, Err, Some};
ghost use Rattle.mi_model.specs.declared.Form.{Form};
ghost use Rattle.mi_model.specs.declared.Pair.{Pair};
ghost use Rattle.mi_model.specs.declared.OriginByte.{OriginByte};
ghost use Rattle.mi_model.specs.declared.Why.{Why};
ghost use Rattle.mi_model.specs.declared.Why.TheVariants.{Byte};
ghost use Rattle.mi_model.specs.declared.Fault.TheVariants.{Refused};
ghost use Rattle.mi_model.specs.Met.{operations_met};
ghost use Rattle.mi_model.specs.Refusals.{MeetsRefused};
ghost use Rattle.mi_model.specs.Ops.{Test};
ghost use Rattle.mi_model.specs.Pairs.{IsAllowedPair};
ghost use Rattle.mi_model.specs.Plain.{plain_ops, plain_test, plain_place, plain_tag};
ghost use Rattle.mi_model.specs.Machine.{Machine};
ghost use Rattle.mi_model.specs.Action.{AnswerKind, Action};
ghost use Rattle.mi_model.specs.Outcome.{outcome_of};
ghost use Rattle.mi_model.specs.Stands.{Simulates, Agrees, MachineStands, OutcomeStands};
ghost use Rattle.mi_model.specs.Forms.{value_at, plain_form, IsNormal, IsSize, AreTold};
ghost use Rattle.mi_model.specs.OriginOps.{origin_ops, bytes_of, FormStands, ByteStands, TellsOperands};

/// Normal forms are equal exactly where they have equal values at all allowed pairs.
///
/// This holds of any grid g and wrap w whose product is the modulus, where there is a data base and a code base to each
/// of which g can be added (`any_grid`).
pub fn values_tell_forms_apart()
    ensures forms { (x y : Form) → IsNormal x → IsNormal y → ((pair : Pair) → IsAllowedPair pair → value_at x pair ≡ value_at y pair) ↔ (x ≡ y) }
    ensures any_grid { (g w d k : ℕ) → 0 < g → 0 < w → AreTold g w d k }
{}

/// At each allowed pair, what the arithmetic of origin forms and bytes answers stands for the plain answer.
///
/// So the same holds of every action of instructions: on a machine of forms it gives what it gives on the plain machine
/// that this one stands for, or the same throw, unless an operation is refused (`actions`).
///
/// An operation that it refuses comes with its operands. Where the reason is `Undecided`, the two pairs are allowed,
/// and the plain answers at them differ (`tests`, `places`, `tags`).
pub fn forms_stand_for_numbers()
    ensures stands { (size : ℕ) (pair : Pair) → IsSize size → IsAllowedPair pair → Simulates (FormStands pair) (ByteStands pair) (origin_ops size) (plain_ops pair size) }
    ensures actions { (size : ℕ) (pair : Pair) (kind : AnswerKind) (action : Action kind) (m : Machine Form OriginByte) (n : Machine ℕ ℕ) → IsSize size → IsAllowedPair pair → MachineStands (FormStands pair) (ByteStands pair) m n → Agrees (OutcomeStands (FormStands pair) (ByteStands pair)) (outcome_of (origin_ops size) action m []) (outcome_of (plain_ops pair size) action n []) }
    ensures tests { (size : ℕ) (op : Test) (x y : Form) → IsSize size → IsNormal x → IsNormal y → TellsOperands x y (λ pair. plain_test op (value_at x pair) (value_at y pair)) ((origin_ops size).test op x y) }
    ensures places { (size : ℕ) (x : Form) → IsSize size → IsNormal x → TellsOperands x (plain_form 0) (λ pair. plain_place pair size (value_at x pair)) ((origin_ops size).place x) }
    ensures tags { (size : ℕ) (x : Form) → IsSize size → IsNormal x → TellsOperands x (plain_form 0) (λ pair. plain_tag pair (value_at x pair)) ((origin_ops size).tag x) }
{}

/// Where an action of instructions on a machine of forms is refused, for another reason than `Byte`, the same action does
/// the refused operation on the plain machine at each allowed pair, on the values there of the forms that the refusal
/// names.
pub fn refused_operations_are_met()
    ensures { (size : ℕ) (pair : Pair) (kind : AnswerKind) (action : Action kind) (m : Machine Form OriginByte) (n : Machine ℕ ℕ) (first second : Form) (why : Why)
        → IsSize size → IsAllowedPair pair → MachineStands (FormStands pair) (ByteStands pair) m n
        → outcome_of (origin_ops size) action m [] ≡ Err (Refused first second why) → why ≢ Byte
        → MeetsRefused size (FormStands pair) (record { first = first; second = second; why = why }) (operations_met (plain_ops pair size) action n []) }
{}

/// What is made of an offset of the region, of a tag or of all bytes of a form gives these back.
pub fn origins_come_back()
    ensures place { (size o : ℕ) → IsSize size → o ≤ size → (origin_ops size).place ((origin_ops size).region_cell o) ≡ Ok (Some o) }
    ensures tag { (size t : ℕ) → t < 120 → (origin_ops size).tag ((origin_ops size).code_cell t) ≡ Ok (Some t) }
    ensures bytes { (size : ℕ) (x : Form) → IsNormal x → (origin_ops size).join (bytes_of x) ≡ Ok x }
{}
