//! What the kernel lays in a region before anything is built.

ghost use Rattle.std.specs.Prelude.{◌≡◌, ℕ, ◌+◌, ◌*◌, ◌≤◌, ◌<◌, length, [], IsTrue, IfErr};
ghost use Rattle.mi_model.specs.Outcome.{outcome_of};
ghost use Rattle.mi_model.specs.Kernel.{whole_kernel};
ghost use Rattle.mi_model.specs.Seed as actions;
ghost use Rattle.mi_region.specs.View.{Gives, leading};

use mi_arith::Arith;
use mi_model::Fault;
use mi_region::State;
use mi_vocab::{
    BASE, BYE_AFTER_ENTRY, CODE, CURRENT, DICTIONARY, DP, FLAGS, FORTH_WORDLIST, HEADER_SIZE, HLD,
    HOLD_END, INTERPRETER_LOOP, LATEST, LEAVES, LINE_BUFFER, NAME, ORDER, ORDER_COUNT,
    SOURCE_ADDRESS, TAGS, VOC, header_flags, name,
};

/// The offset of the header of a tag.
fn header_offset(tag: u8) -> u32
    ensures { result ≡ actions.header_offset tag }
{
    DICTIONARY + HEADER_SIZE * tag as u32
}

/// The offset of the code field of a tag's header, whose address is the execution token of the tag.
fn token_offset(tag: u8) -> u32
    ensures { result ≡ 4144 + 64 * tag }
{
    header_offset(tag) + CODE
}

/// Lays the header of a tag.
#[tactic(auto, unfolding(mi_model::specs::Seed::seed_header))]
fn seed_header<A: Arith>(state: &mut State<A>, tag: u8) -> Result<(), Fault>
    requires { tag < 120 }
    ensures action { Gives A.GROWS result state.old state.new (leading state.old (outcome_of (A.ops state.old.arith) (actions.seed_header whole_kernel tag) state.old.machine [])) }
    ensures arith { state.new.arith ≡ state.old.arith }
    ensures memory { IfErr result (λ e. (e ≡ Fault.NoMemory) × IsTrue A.GROWS) }
{
    let _ = state.size();
    let arith = *state.arith();
    let header = header_offset(tag);
    let link = if tag == 0 {
        arith.plain(0)
    } else {
        arith.region_cell((header - HEADER_SIZE) as u64)
    };
    state.store_at(header, link)?;
    state.store_at(header + FLAGS, arith.plain(header_flags(tag)))?;
    state.store_text(header + NAME, name(tag))?;
    state.store_at(header + CODE, arith.code_cell(tag))?;
    Ok(())
}

/// Lays the headers of the tags below this one.
#[tactic(auto, using(crate::proofs::Walks::seed_next))]
fn seed_headers<A: Arith>(state: &mut State<A>, tags: u8) -> Result<(), Fault>
    requires { tags ≤ 120 }
    ensures action { Gives A.GROWS result state.old state.new (leading state.old (outcome_of (A.ops state.old.arith) (actions.seed_headers whole_kernel tags 0) state.old.machine [])) }
    ensures memory { IfErr result (λ e. (e ≡ Fault.NoMemory) × IsTrue A.GROWS) }
{
    let mut tag = 0;
    'tags: while tag < tags {
        seed_header(state, tag)?;
        tag += 1;
    }
    Ok(())
}

/// Sets the system cells that aren't 0.
#[tactic(auto, unfolding(mi_model::specs::Seed::seed_system))]
fn seed_system<A: Arith>(state: &mut State<A>) -> Result<(), Fault>
    ensures action { Gives A.GROWS result state.old state.new (leading state.old (outcome_of (A.ops state.old.arith) (actions.seed_system whole_kernel) state.old.machine [])) }
    ensures memory { IfErr result (λ e. (e ≡ Fault.NoMemory) × IsTrue A.GROWS) }
{
    let arith = *state.arith();
    let forth = arith.region_cell(FORTH_WORDLIST as u64);
    let newest = arith.region_cell(header_offset(TAGS - 1) as u64);
    state.store_system(DP, arith.region_cell(header_offset(TAGS) as u64))?;
    state.store_system(BASE, arith.plain(10))?;
    state.store_system(SOURCE_ADDRESS, arith.region_cell(LINE_BUFFER as u64))?;
    state.store_system(CURRENT, forth)?;
    state.store_system(LATEST, newest)?;
    state.store_system(LEAVES, arith.plain(1))?;
    state.store_system(HLD, arith.region_cell(HOLD_END as u64))?;
    state.store_system(ORDER_COUNT, arith.plain(1))?;
    state.store_system(ORDER, forth)?;
    state.store_system(FORTH_WORDLIST, newest)?;
    state.store_system(VOC, forth)?;
    let next = INTERPRETER_LOOP + 8;
    state.store_system(INTERPRETER_LOOP, arith.region_cell(token_offset(20) as u64))?;
    state.store_system(next, arith.region_cell(token_offset(10) as u64))?;
    state.store_system(next + 8, arith.region_cell(INTERPRETER_LOOP as u64))?;
    state.store_system(BYE_AFTER_ENTRY, arith.region_cell(token_offset(0) as u64))?;
    Ok(())
}

/// Lays the seed in a new state: the system cells and the headers of all tags. It finds no memory only where the
/// arithmetic grows.
pub fn seed<A: Arith>(state: &mut State<A>) -> Result<(), Fault>
    ensures action { Gives A.GROWS result state.old state.new (leading state.old (outcome_of (A.ops state.old.arith) (actions.seed whole_kernel) state.old.machine [])) }
    ensures memory { IfErr result (λ e. (e ≡ Fault.NoMemory) × IsTrue A.GROWS) }
{
    seed_system(state)?;
    seed_headers(state, TAGS)
}
