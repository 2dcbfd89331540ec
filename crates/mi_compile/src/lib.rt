//! What the instructions do that parse, look names up, define words and compile.
#![tactic(auto)]

ghost use Rattle.std.specs.Prelude.{◌≡◌, ℕ, ◌≤◌, [], ◌∷◌};
ghost use Rattle.mi_model.specs.Outcome.{outcome_of};
ghost use Rattle.mi_model.specs.Kernel.{whole_kernel};
ghost use Rattle.mi_model.specs.Table.{action_of};
ghost use Rattle.mi_region.specs.View.{Gives, leading};

mod branching;
mod cases;
mod chains;
mod compiling;
mod defining;
mod escapes;
mod loops;
mod numbers;
mod parsing;
mod searching;
mod strings;
mod values;

use crate::branching::{BRANCH, ZERO_BRANCH};
use crate::loops::{LOOP, PLUS_LOOP};
use crate::values::{DODEFER, DOVALUE};
use mi_arith::Arith;
use mi_dict::{get_order, set_order};
pub use mi_model::Effect;
use mi_model::Fault;
use mi_region::State;
use mi_vocab::{COMPILE_ONLY, IMMEDIATE};

/// Does the instruction of a tag from 75 to 119.
///
/// Throws as the instruction table says. After a fault other than want of memory nothing has changed: the move of >IN is
/// taken back.
pub fn compile<A: Arith>(tag: u8, state: &mut State<A>) -> Result<Effect, Fault>
    requires from { 75 ≤ tag }
    requires to { tag ≤ 119 }
    ensures { (token : A.Cell) → Gives A.GROWS result state.old state.new (leading state.old (outcome_of (A.ops state.old.arith) (action_of whole_kernel tag) state.old.machine (token ∷ []))) }
{
    match tag {
        75..=84 => source_word(tag, state),
        85..=88 => header_word(tag, state),
        89..=98 => definition_word(tag, state),
        99..=106 => branch_word(tag, state),
        107..=115 => loop_word(tag, state),
        _ => text_word(tag, state),
    }
}

/// Does the instruction of a tag from 75 to 84: those that parse, convert digits and look names up.
#[tactic(auto, unfolding(mi_model::specs::Table::action_of, mi_model::specs::Table::table))]
fn source_word<A: Arith>(tag: u8, state: &mut State<A>) -> Result<Effect, Fault>
    requires from { 75 ≤ tag }
    requires to { tag ≤ 84 }
    ensures { (token : A.Cell) → Gives A.GROWS result state.old state.new (leading state.old (outcome_of (A.ops state.old.arith) (action_of whole_kernel tag) state.old.machine (token ∷ []))) }
{
    match tag {
        75 => parsing::parse(state),
        76 => parsing::parse_name(state),
        77 => parsing::word(state),
        78 => numbers::to_number(state),
        79 => searching::paren_find(state),
        80 => searching::search_wordlist(state),
        81 => get_order(state),
        82 => set_order(state),
        83 => searching::tick(state),
        84 => searching::to_body(state),
        _ => unreachable!(),
    }
}

/// Does the instruction of a tag from 85 to 88: those that lay headers.
#[tactic(auto, unfolding(mi_model::specs::Table::action_of, mi_model::specs::Table::table))]
fn header_word<A: Arith>(tag: u8, state: &mut State<A>) -> Result<Effect, Fault>
    requires from { 85 ≤ tag }
    requires to { tag ≤ 88 }
    ensures { (token : A.Cell) → Gives A.GROWS result state.old state.new (leading state.old (outcome_of (A.ops state.old.arith) (action_of whole_kernel tag) state.old.machine (token ∷ []))) }
{
    match tag {
        85 => defining::header(state),
        86 => defining::create(state),
        87 => defining::constant(state),
        88 => defining::variable(state),
        _ => unreachable!(),
    }
}

/// Does the instruction of a tag from 89 to 98: those of definitions.
#[tactic(auto, unfolding(mi_model::specs::Table::action_of, mi_model::specs::Table::table))]
fn definition_word<A: Arith>(tag: u8, state: &mut State<A>) -> Result<Effect, Fault>
    requires from { 89 ≤ tag }
    requires to { tag ≤ 98 }
    ensures { (token : A.Cell) → Gives A.GROWS result state.old state.new (leading state.old (outcome_of (A.ops state.old.arith) (action_of whole_kernel tag) state.old.machine (token ∷ []))) }
{
    match tag {
        89 => compiling::colon(state),
        90 => compiling::colon_noname(state),
        91 => compiling::semicolon(state),
        92 => compiling::set_flag(state, IMMEDIATE),
        93 => compiling::set_flag(state, COMPILE_ONLY),
        94 => compiling::recurse(state),
        95 => compiling::literal(state),
        96 => compiling::postpone(state),
        97 => compiling::does(state),
        98 => compiling::paren_does(state),
        _ => unreachable!(),
    }
}

/// Does the instruction of a tag from 99 to 106: those that compile branches.
#[tactic(auto, unfolding(mi_model::specs::Table::action_of, mi_model::specs::Table::table))]
fn branch_word<A: Arith>(tag: u8, state: &mut State<A>) -> Result<Effect, Fault>
    requires from { 99 ≤ tag }
    requires to { tag ≤ 106 }
    ensures { (token : A.Cell) → Gives A.GROWS result state.old state.new (leading state.old (outcome_of (A.ops state.old.arith) (action_of whole_kernel tag) state.old.machine (token ∷ []))) }
{
    match tag {
        99 => branching::if_word(state),
        100 => branching::else_word(state),
        101 => branching::then_word(state),
        102 => branching::begin(state),
        103 => branching::branch_back(state, BRANCH),
        104 => branching::branch_back(state, ZERO_BRANCH),
        105 => branching::while_word(state),
        106 => branching::repeat(state),
        _ => unreachable!(),
    }
}

/// Does the instruction of a tag from 107 to 115: those that compile counted loops and choices.
#[tactic(auto, unfolding(mi_model::specs::Table::action_of, mi_model::specs::Table::table))]
fn loop_word<A: Arith>(tag: u8, state: &mut State<A>) -> Result<Effect, Fault>
    requires from { 107 ≤ tag }
    requires to { tag ≤ 115 }
    ensures { (token : A.Cell) → Gives A.GROWS result state.old state.new (leading state.old (outcome_of (A.ops state.old.arith) (action_of whole_kernel tag) state.old.machine (token ∷ []))) }
{
    match tag {
        107 => loops::do_word(state),
        108 => loops::question_do(state),
        109 => loops::end_loop(state, LOOP),
        110 => loops::end_loop(state, PLUS_LOOP),
        111 => loops::leave(state),
        112 => cases::case_word(state),
        113 => cases::of_word(state),
        114 => cases::endof(state),
        115 => cases::endcase(state),
        _ => unreachable!(),
    }
}

/// Does the instruction of a tag from 116 to 119: those of strings, and TO and IS.
#[tactic(auto, unfolding(mi_model::specs::Table::action_of, mi_model::specs::Table::table))]
fn text_word<A: Arith>(tag: u8, state: &mut State<A>) -> Result<Effect, Fault>
    requires from { 116 ≤ tag }
    requires to { tag ≤ 119 }
    ensures { (token : A.Cell) → Gives A.GROWS result state.old state.new (leading state.old (outcome_of (A.ops state.old.arith) (action_of whole_kernel tag) state.old.machine (token ∷ []))) }
{
    match tag {
        116 => strings::s_quote(state),
        117 => escapes::s_backslash_quote(state),
        118 => values::change(state, DOVALUE),
        119 => values::change(state, DODEFER),
        _ => unreachable!(),
    }
}
