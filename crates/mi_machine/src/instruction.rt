//! One instruction.

ghost use Rattle.std.specs.Prelude.{◌≡◌, ◌≢◌, ◌<◌, ◌≤◌, ◌⊎◌, ℕ, [], ◌∷◌};
ghost use Rattle.mi_model.specs.Outcome.{outcome_of};
ghost use Rattle.mi_model.specs.Kernel.{whole_kernel};
ghost use Rattle.mi_model.specs.Table as actions;
ghost use Rattle.mi_model.specs.Tokens.{token_at, token_of, last_token};
ghost use Rattle.mi_region.specs.View.{Gives, leading, with_ip, with_due};

use crate::interpreter::interpret;
use crate::sources;
use mi_arith::Arith;
use mi_compile::compile;
use mi_model::{Effect, Fault, Token};
use mi_prims::prim;
use mi_region::State;

/// Does the action of a tag: those from 75 on parse, define or compile. A number from 120 on is no tag, and throws -13.
#[tactic(auto, using(crate::proofs::Tables::not_a_tag))]
fn act_by<A: Arith>(tag: u8, state: &mut State<A>, token: A::Cell) -> Result<Effect, Fault>
    ensures { Gives A.GROWS result state.old state.new (leading state.old (outcome_of (A.ops state.old.arith) (actions.action_of whole_kernel tag) state.old.machine (token ∷ []))) }
{
    match tag {
        20 => act_interpret(state, token),
        23..=26 => act_on_source(tag, state),
        0..=74 => prim(tag, state, token),
        75..=119 => compile(tag, state),
        _ => Err(Fault::Throw(-13)),
    }
}

/// Does the action of a tag from 23 to 26: those on sources and lines.
#[tactic(auto, unfolding(mi_model::specs::Table::action_of, mi_model::specs::Table::table))]
fn act_on_source<A: Arith>(tag: u8, state: &mut State<A>) -> Result<Effect, Fault>
    requires from { 23 ≤ tag }
    requires to { tag ≤ 26 }
    ensures { (token : A.Cell) → Gives A.GROWS result state.old state.new (leading state.old (outcome_of (A.ops state.old.arith) (actions.action_of whole_kernel tag) state.old.machine (token ∷ []))) }
{
    match tag {
        23 => sources::quit(state),
        24 => sources::evaluate(state),
        25 => sources::refill(state),
        _ => sources::accept(state),
    }
}

/// Does the action of the text interpreter's tag.
#[tactic(auto, unfolding(mi_model::specs::Table::action_of, mi_model::specs::Table::table))]
fn act_interpret<A: Arith>(state: &mut State<A>, token: A::Cell) -> Result<Effect, Fault>
    ensures { Gives A.GROWS result state.old state.new (leading state.old (outcome_of (A.ops state.old.arith) (actions.action_of whole_kernel 20) state.old.machine (token ∷ []))) }
{
    let _ = token;
    interpret(state)
}

/// A token with its tag: throw -9 or -23 where no cell can be read there, and -9 where that cell isn't the address of a
/// tag's code.
#[tactic(auto, unfolding(mi_model::specs::Tokens::token_at))]
fn find<A: Arith>(state: &State<A>, token: A::Cell) -> Result<Token, Fault>
    ensures { result ≡ token_at (A.ops state.now.arith) state.now.machine.bytes token }
{
    let offset = state.cell_offset(token)?;
    let code = state.fetch_at(offset)?;
    match state.arith().tag(code)? {
        Some(tag) => Ok(Token { offset, tag }),
        None => Err(Fault::Throw(-9)),
    }
}

/// Does what a token stands for. It becomes the last token once its tag is found.
#[tactic(auto, using(mi_model::proofs::TokenLemmas::acted))]
fn act<A: Arith>(state: &mut State<A>, token: A::Cell, last: &mut Token) -> Result<Effect, Fault>
    ensures action { Gives A.GROWS result state.old state.new (leading state.old (outcome_of (A.ops state.old.arith) (actions.act whole_kernel) state.old.machine (token ∷ []))) }
    ensures last { last.new ≡ last_token last.old (token_at (A.ops state.old.arith) state.old.machine.bytes token) }
{
    let found = find(state, token)?;
    *last = found;
    act_by(found.tag, state, token)
}

/// Does what a token stands for; after a fault the instruction address and the due token are put back.
fn act_or_back<A: Arith>(
    state: &mut State<A>,
    token: A::Cell,
    ip: A::Cell,
    due: Option<A::Cell>,
    last: &mut Token,
) -> Result<Effect, Fault>
    ensures action { Gives A.GROWS result (with_due (with_ip state.old ip) due) state.new (leading state.old (outcome_of (A.ops state.old.arith) (actions.act whole_kernel) state.old.machine (token ∷ []))) }
    ensures last { last.new ≡ last_token last.old (token_at (A.ops state.old.arith) state.old.machine.bytes token) }
{
    match act(state, token, last) {
        Ok(effect) => Ok(effect),
        Err(fault) => {
            state.set_ip(ip);
            state.set_due(due);
            Err(fault)
        }
    }
}

/// One instruction: the token that is due, or else the one at the instruction address. After a fault other than want
/// of memory nothing has changed, but that the token is the last one if its tag was found.
#[tactic(auto, unfolding(mi_model::specs::Table::step, mi_model::specs::Tokens::token_of))]
pub fn step<A: Arith>(state: &mut State<A>, last: &mut Token) -> Result<Effect, Fault>
    ensures action { Gives A.GROWS result state.old state.new (leading state.old (outcome_of (A.ops state.old.arith) (actions.step whole_kernel) state.old.machine [])) }
    ensures last { last.new ≡ last_token last.old (token_of (A.ops state.old.arith) state.old.machine) }
{
    let ip = state.ip();
    match state.due() {
        Some(token) => {
            state.set_due(None);
            act_or_back(state, token, ip, Some(token), last)
        }
        None => {
            let token = state.fetch(ip)?;
            let next = state.arith().add(ip, state.arith().plain(8))?;
            state.set_ip(next);
            act_or_back(state, token, ip, None, last)
        }
    }
}
