//! What the instructions do that are no compiling words.
#![tactic(auto)]

ghost use Rattle.std.specs.Prelude.{◌≡◌, ◌≢◌, ◌<◌, ◌≤◌, ◌⊎◌, ℕ, [], ◌∷◌};
ghost use Rattle.mi_model.specs.Outcome.{outcome_of};
ghost use Rattle.mi_model.specs.Kernel.{whole_kernel};
ghost use Rattle.mi_model.specs.Table.{action_of};
ghost use Rattle.mi_region.specs.View.{Gives, leading};

mod arithmetic;
mod control;
mod memory;
mod stacks;

use crate::arithmetic::{
    Comparison, OneCell, Rounding, TwoCells, compare, compare_with_zero, division, one_cell,
    two_cells, um_times,
};
use mi_arith::Arith;
pub use mi_model::Effect;
use mi_model::Fault;
use mi_region::State;

/// Does the instruction of a tag, whose token is running. The text interpreter, tag 20, is not among them, and neither
/// are the tags from 23 to 26, of the words on sources and input, and those from 75 on, which parse and compile.
///
/// Throws as the instruction table says: first -4 where the data stack lacks the items of the stack effect, and -3 where
/// the results don't fit it. After a fault other than want of memory nothing has changed.
pub fn prim<A: Arith>(tag: u8, state: &mut State<A>, token: A::Cell) -> Result<Effect, Fault>
    requires not_the_interpreter { tag ≢ 20 }
    requires not_on_sources { (tag < 23) ⊎ (26 < tag) }
    requires below { tag < 75 }
    ensures { Gives A.GROWS result state.old state.new (leading state.old (outcome_of (A.ops state.old.arith) (action_of whole_kernel tag) state.old.machine (token ∷ []))) }
{
    match tag {
        0..=27 => control_word(tag, state, token),
        28..=41 => stack_word(tag, state),
        42..=61 => number_word(tag, state),
        _ => memory_word(tag, state),
    }
}

/// Does the instruction of a tag up to 27: those on control, of code fields, and EMIT.
#[tactic(auto, unfolding(mi_model::specs::Table::action_of, mi_model::specs::Table::table))]
fn control_word<A: Arith>(tag: u8, state: &mut State<A>, token: A::Cell) -> Result<Effect, Fault>
    requires not_the_interpreter { tag ≢ 20 }
    requires not_on_sources { (tag < 23) ⊎ (26 < tag) }
    requires to { tag ≤ 27 }
    ensures { Gives A.GROWS result state.old state.new (leading state.old (outcome_of (A.ops state.old.arith) (action_of whole_kernel tag) state.old.machine (token ∷ []))) }
{
    match tag {
        0 => control::bye(state),
        1 => control::docol(state, token),
        2 => control::dovar(state, token),
        3 => control::docon(state, token),
        4 => control::docon(state, token),
        5 => control::dodefer(state, token),
        6 => control::dodoes(state, token),
        7 => mi_dict::restore(state, token),
        8 => control::exit(state),
        9 => control::lit(state),
        10 => control::branch(state),
        11 => control::zero_branch(state),
        12 => stacks::two_to_r(state),
        13 => control::paren_question_do(state),
        14 => control::paren_loop(state),
        15 => control::paren_plus_loop(state),
        16 => control::unloop(state),
        17 => control::loop_index(state, 0),
        18 => control::loop_index(state, 2),
        19 => control::paren_s_quote(state),
        21 => control::execute(state),
        22 => control::throw(state),
        27 => control::emit(state),
        _ => unreachable!(),
    }
}

/// Does the instruction of a tag from 28 to 41: those on the two stacks.
#[tactic(auto, unfolding(mi_model::specs::Table::action_of, mi_model::specs::Table::table))]
fn stack_word<A: Arith>(tag: u8, state: &mut State<A>) -> Result<Effect, Fault>
    requires from { 28 ≤ tag }
    requires to { tag ≤ 41 }
    ensures { (token : A.Cell) → Gives A.GROWS result state.old state.new (leading state.old (outcome_of (A.ops state.old.arith) (action_of whole_kernel tag) state.old.machine (token ∷ []))) }
{
    match tag {
        28 => stacks::dup(state),
        29 => stacks::drop_item(state),
        30 => stacks::swap(state),
        31 => stacks::over(state),
        32 => stacks::rot(state),
        33 => stacks::pick(state),
        34 => stacks::roll(state),
        35 => stacks::depth(state),
        36 => stacks::to_r(state),
        37 => stacks::r_from(state),
        38 => stacks::r_fetch(state),
        39 => stacks::two_to_r(state),
        40 => stacks::two_r_from(state),
        41 => stacks::two_r_fetch(state),
        _ => unreachable!(),
    }
}

/// Does the instruction of a tag from 42 to 61: those on numbers.
#[tactic(auto, unfolding(mi_model::specs::Table::action_of, mi_model::specs::Table::table))]
fn number_word<A: Arith>(tag: u8, state: &mut State<A>) -> Result<Effect, Fault>
    requires from { 42 ≤ tag }
    requires to { tag ≤ 61 }
    ensures { (token : A.Cell) → Gives A.GROWS result state.old state.new (leading state.old (outcome_of (A.ops state.old.arith) (action_of whole_kernel tag) state.old.machine (token ∷ []))) }
{
    match tag {
        42 => two_cells(state, TwoCells::Add),
        43 => two_cells(state, TwoCells::Sub),
        44 => two_cells(state, TwoCells::Mul),
        45 => one_cell(state, OneCell::Negate),
        46 => one_cell(state, OneCell::Invert),
        47 => two_cells(state, TwoCells::And),
        48 => two_cells(state, TwoCells::Or),
        49 => two_cells(state, TwoCells::Xor),
        50 => two_cells(state, TwoCells::LeftShift),
        51 => two_cells(state, TwoCells::RightShift),
        52 => one_cell(state, OneCell::Half),
        53 => um_times(state),
        54 => division(state, Rounding::Unsigned),
        55 => division(state, Rounding::Symmetric),
        56 => division(state, Rounding::Floored),
        57 => compare(state, Comparison::Equal),
        58 => compare(state, Comparison::Less),
        59 => compare(state, Comparison::Below),
        60 => compare_with_zero(state, Comparison::Equal),
        61 => compare_with_zero(state, Comparison::Less),
        _ => unreachable!(),
    }
}

/// Does the instruction of a tag from 62 to 74: those on memory and data space.
#[tactic(auto, unfolding(mi_model::specs::Table::action_of, mi_model::specs::Table::table))]
fn memory_word<A: Arith>(tag: u8, state: &mut State<A>) -> Result<Effect, Fault>
    requires from { 62 ≤ tag }
    requires to { tag ≤ 74 }
    ensures { (token : A.Cell) → Gives A.GROWS result state.old state.new (leading state.old (outcome_of (A.ops state.old.arith) (action_of whole_kernel tag) state.old.machine (token ∷ []))) }
{
    match tag {
        62 => memory::fetch(state),
        63 => memory::store(state),
        64 => memory::c_fetch(state),
        65 => memory::c_store(state),
        66 => memory::move_range(state),
        67 => memory::fill(state),
        68 => memory::region(state),
        69 => memory::here(state),
        70 => memory::allot(state),
        71 => memory::comma(state),
        72 => memory::c_comma(state),
        73 => memory::align(state),
        74 => memory::unused(state),
        _ => unreachable!(),
    }
}
