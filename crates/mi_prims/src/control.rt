//! The instructions on control, and those of code fields.

ghost use Rattle.std.specs.Prelude.{◌≡◌, ℕ, ◌<◌, [], ◌∷◌};
ghost use Rattle.mi_model.specs.Outcome.{outcome_of};
ghost use Rattle.mi_model.specs.Machine.{asked};
ghost use Rattle.mi_model.specs.Ops.Two.{Add};
ghost use Rattle.mi_model.specs.Region.{fetch};
ghost use Rattle.mi_model.specs.Control as actions;
ghost use Rattle.mi_model.specs.Sources.{do_emit};
ghost use Rattle.mi_prims.specs.Families.{loop_index};
ghost use Rattle.mi_region.specs.View.{Gives, leading};

use crate::memory::aligned;
use mi_arith::Arith;
use mi_model::{Effect, Fault};
use mi_region::State;

/// The address of the running word's body, 16 bytes behind its token.
fn body<A: Arith>(state: &State<A>, token: A::Cell) -> Result<A::Cell, Fault>
    ensures { result ≡ asked ((A.ops state.now.arith).two Add token ((A.ops state.now.arith).plain 16)) }
{
    Ok(state.arith().add(token, state.arith().plain(16))?)
}

/// The address behind the cell that the instruction address points to.
fn behind<A: Arith>(state: &State<A>) -> Result<A::Cell, Fault>
    ensures { result ≡ asked ((A.ops state.now.arith).two Add state.now.machine.ip ((A.ops state.now.arith).plain 8)) }
{
    Ok(state.arith().add(state.ip(), state.arith().plain(8))?)
}

/// The cell at the instruction address.
fn cell_at_ip<A: Arith>(state: &State<A>) -> Result<A::Cell, Fault>
    ensures { result ≡ fetch (A.ops state.now.arith) state.now.machine.bytes state.now.machine.ip }
{
    state.fetch(state.ip())
}

/// (DOVAR) ( -- a ): the address of the running word's body, 16 bytes behind its token
pub fn dovar<A: Arith>(state: &mut State<A>, token: A::Cell) -> Result<Effect, Fault>
    ensures { Gives A.GROWS result state.old state.new (leading state.old (outcome_of (A.ops state.old.arith) actions.do_dovar state.old.machine (token ∷ []))) }
{
    state.tests(0, 1, 0, 0)?;
    let a = body(state, token)?;
    state.put(a);
    Ok(Effect::Went)
}

/// (DOCON) and (DOVALUE) ( -- x ): the cell in the running word's body, 16 bytes behind its token
pub fn docon<A: Arith>(state: &mut State<A>, token: A::Cell) -> Result<Effect, Fault>
    ensures { Gives A.GROWS result state.old state.new (leading state.old (outcome_of (A.ops state.old.arith) actions.do_docon state.old.machine (token ∷ []))) }
{
    state.tests(0, 1, 0, 0)?;
    let x = state.fetch(body(state, token)?)?;
    state.put(x);
    Ok(Effect::Went)
}

/// (BRANCH) ( -- ): the instruction address becomes the cell that it points to
pub fn branch<A: Arith>(state: &mut State<A>) -> Result<Effect, Fault>
    ensures { Gives A.GROWS result state.old state.new (leading state.old (outcome_of (A.ops state.old.arith) actions.do_branch state.old.machine [])) }
{
    let next = cell_at_ip(state)?;
    state.set_ip(next);
    Ok(Effect::Went)
}

/// BYE ( -- ): halts the machine
pub fn bye<A: Arith>(state: &mut State<A>) -> Result<Effect, Fault>
    ensures { Gives A.GROWS result state.old state.new (leading state.old (outcome_of (A.ops state.old.arith) actions.do_bye state.old.machine [])) }
{
    let _ = state.depth();
    Ok(Effect::Halt)
}

/// (DOCOL) ( -- ) R ( -- ip ): the instruction address becomes that of the running word's body
pub fn docol<A: Arith>(state: &mut State<A>, token: A::Cell) -> Result<Effect, Fault>
    ensures { Gives A.GROWS result state.old state.new (leading state.old (outcome_of (A.ops state.old.arith) actions.do_docol state.old.machine (token ∷ []))) }
{
    state.tests(0, 0, 0, 1)?;
    let body = body(state, token)?;
    let ip = state.ip();
    state.rput(ip);
    state.set_ip(body);
    Ok(Effect::Went)
}

/// (DODEFER) ( -- ): the token in the running word's body is due
pub fn dodefer<A: Arith>(state: &mut State<A>, token: A::Cell) -> Result<Effect, Fault>
    ensures { Gives A.GROWS result state.old state.new (leading state.old (outcome_of (A.ops state.old.arith) actions.do_dodefer state.old.machine (token ∷ []))) }
{
    let due = state.fetch(body(state, token)?)?;
    state.set_due(Some(due));
    Ok(Effect::Went)
}

/// (DODOES) ( -- a ) R ( -- ip ): the address of the running word's body; the instruction address becomes the cell 8 bytes
/// behind its token
pub fn dodoes<A: Arith>(state: &mut State<A>, token: A::Cell) -> Result<Effect, Fault>
    ensures { Gives A.GROWS result state.old state.new (leading state.old (outcome_of (A.ops state.old.arith) actions.do_dodoes state.old.machine (token ∷ []))) }
{
    state.tests(0, 1, 0, 1)?;
    let a = body(state, token)?;
    let second = state.arith().add(token, state.arith().plain(8))?;
    let next = state.fetch(second)?;
    let ip = state.ip();
    state.put(a);
    state.rput(ip);
    state.set_ip(next);
    Ok(Effect::Went)
}

/// EXIT ( -- ) R ( ip -- ): the instruction address comes from the return stack
pub fn exit<A: Arith>(state: &mut State<A>) -> Result<Effect, Fault>
    ensures { Gives A.GROWS result state.old state.new (leading state.old (outcome_of (A.ops state.old.arith) actions.do_exit state.old.machine [])) }
{
    state.tests(0, 0, 1, 0)?;
    let next = state.ritem(0);
    state.rcut(1);
    state.set_ip(next);
    Ok(Effect::Went)
}

/// (LIT) ( -- x ): the cell at the instruction address, which goes on behind it
pub fn lit<A: Arith>(state: &mut State<A>) -> Result<Effect, Fault>
    ensures { Gives A.GROWS result state.old state.new (leading state.old (outcome_of (A.ops state.old.arith) actions.do_lit state.old.machine [])) }
{
    state.tests(0, 1, 0, 0)?;
    let x = cell_at_ip(state)?;
    let next = behind(state)?;
    state.set_ip(next);
    state.put(x);
    Ok(Effect::Went)
}

/// (0BRANCH) ( x -- ): where x is 0 the instruction address becomes the cell that it points to; else it goes on behind that
pub fn zero_branch<A: Arith>(state: &mut State<A>) -> Result<Effect, Fault>
    ensures { Gives A.GROWS result state.old state.new (leading state.old (outcome_of (A.ops state.old.arith) actions.do_zero_branch state.old.machine [])) }
{
    state.tests(1, 0, 0, 0)?;
    let arith = *state.arith();
    let next = if arith.equal(state.item(0), arith.plain(0))? {
        cell_at_ip(state)?
    } else {
        behind(state)?
    };
    state.set_ip(next);
    state.cut(1);
    Ok(Effect::Went)
}

/// (?DO) ( limit index -- ) R ( -- limit index ): where they are equal nothing goes to the return stack, and the
/// instruction address becomes the cell that it points to; else it goes on behind that
pub fn paren_question_do<A: Arith>(state: &mut State<A>) -> Result<Effect, Fault>
    ensures { Gives A.GROWS result state.old state.new (leading state.old (outcome_of (A.ops state.old.arith) actions.do_paren_question_do state.old.machine [])) }
{
    state.tests(2, 0, 0, 2)?;
    let (limit, index) = (state.item(1), state.item(0));
    if state.arith().equal(limit, index)? {
        let next = cell_at_ip(state)?;
        state.set_ip(next);
        state.cut(2);
    } else {
        let next = behind(state)?;
        state.set_ip(next);
        state.cut(2);
        state.rput(limit);
        state.rput(index);
    }
    Ok(Effect::Went)
}

/// (LOOP) R ( limit index -- limit index+1 ): where the two are then equal the loop ends: both are dropped, and the
/// instruction address goes on behind the cell that it points to; else it becomes that cell
pub fn paren_loop<A: Arith>(state: &mut State<A>) -> Result<Effect, Fault>
    ensures { Gives A.GROWS result state.old state.new (leading state.old (outcome_of (A.ops state.old.arith) actions.do_paren_loop state.old.machine [])) }
{
    state.tests(0, 0, 2, 2)?;
    let arith = *state.arith();
    let (limit, index) = (state.ritem(1), state.ritem(0));
    let index = arith.add(index, arith.plain(1))?;
    if arith.equal(index, limit)? {
        let next = behind(state)?;
        state.set_ip(next);
        state.rcut(2);
    } else {
        let next = cell_at_ip(state)?;
        state.set_ip(next);
        state.rcut(1);
        state.rput(index);
    }
    Ok(Effect::Went)
}

/// Whether an index that lies `above` its limit modulo 2^64 crosses from below the limit to it, or back, when a signed
/// number is added.
fn crosses(by: u64, above: u64) -> bool
    ensures { result ≡ actions.crosses by above }
{
    if by >= 1 << 63 {
        above < by.wrapping_neg()
    } else {
        above > u64::MAX - by
    }
}

/// (+LOOP) ( n -- ) R ( limit index -- limit index+n ): the loop ends where the index crosses the limit: both are
/// dropped, and the instruction address goes on behind the cell that it points to; else it becomes that cell
pub fn paren_plus_loop<A: Arith>(state: &mut State<A>) -> Result<Effect, Fault>
    ensures { Gives A.GROWS result state.old state.new (leading state.old (outcome_of (A.ops state.old.arith) actions.do_paren_plus_loop state.old.machine [])) }
{
    state.tests(1, 0, 2, 2)?;
    let arith = *state.arith();
    let n = state.item(0);
    let (limit, index) = (state.ritem(1), state.ritem(0));
    let by = arith.number(n)?;
    let above = arith.number(arith.sub(index, limit)?)?;
    if crosses(by, above) {
        let next = behind(state)?;
        state.set_ip(next);
        state.cut(1);
        state.rcut(2);
    } else {
        let index = arith.add(index, n)?;
        let next = cell_at_ip(state)?;
        state.set_ip(next);
        state.cut(1);
        state.rcut(1);
        state.rput(index);
    }
    Ok(Effect::Went)
}

/// UNLOOP ( -- ) R ( limit index -- )
pub fn unloop<A: Arith>(state: &mut State<A>) -> Result<Effect, Fault>
    ensures { Gives A.GROWS result state.old state.new (leading state.old (outcome_of (A.ops state.old.arith) actions.do_unloop state.old.machine [])) }
{
    state.tests(0, 0, 2, 0)?;
    state.rcut(2);
    Ok(Effect::Went)
}

/// I and J ( -- index ): the index of the innermost loop, or of the loop around it; `above` is how many items of the return
/// stack there are above the index
pub fn loop_index<A: Arith>(state: &mut State<A>, above: u32) -> Result<Effect, Fault>
    requires { above < 4096 }
    ensures { Gives A.GROWS result state.old state.new (leading state.old (outcome_of (A.ops state.old.arith) (loop_index above) state.old.machine [])) }
{
    state.tests(0, 1, above + 1, above + 1)?;
    let index = state.ritem(above);
    state.put(index);
    Ok(Effect::Went)
}

/// (S") ( -- a u ): the text behind the cell at the instruction address, which has its length u; the instruction address
/// goes on behind the text, at the next multiple of 8
pub fn paren_s_quote<A: Arith>(state: &mut State<A>) -> Result<Effect, Fault>
    ensures { Gives A.GROWS result state.old state.new (leading state.old (outcome_of (A.ops state.old.arith) actions.do_paren_s_quote state.old.machine [])) }
{
    state.tests(0, 2, 0, 0)?;
    let arith = *state.arith();
    let u = cell_at_ip(state)?;
    arith.number(u)?;
    let a = behind(state)?;
    let end = arith.add(a, u)?;
    let next = aligned(state, end)?;
    state.set_ip(next);
    state.put(a);
    state.put(u);
    Ok(Effect::Went)
}

/// EXECUTE ( xt -- ): the token is due
pub fn execute<A: Arith>(state: &mut State<A>) -> Result<Effect, Fault>
    ensures { Gives A.GROWS result state.old state.new (leading state.old (outcome_of (A.ops state.old.arith) actions.do_execute state.old.machine [])) }
{
    state.tests(1, 0, 0, 0)?;
    let due = state.item(0);
    state.set_due(Some(due));
    state.cut(1);
    Ok(Effect::Went)
}

/// (THROW) ( n -- ): throws n, a signed number; 0 does nothing
pub fn throw<A: Arith>(state: &mut State<A>) -> Result<Effect, Fault>
    ensures { Gives A.GROWS result state.old state.new (leading state.old (outcome_of (A.ops state.old.arith) actions.do_throw state.old.machine [])) }
{
    state.tests(1, 0, 0, 0)?;
    let code = state.arith().number(state.item(0))?;
    if code != 0 {
        return Err(Fault::Throw(code.cast_signed()));
    }
    state.cut(1);
    Ok(Effect::Went)
}

/// EMIT ( c -- ): emits the low byte of c
pub fn emit<A: Arith>(state: &mut State<A>) -> Result<Effect, Fault>
    ensures { Gives A.GROWS result state.old state.new (leading state.old (outcome_of (A.ops state.old.arith) do_emit state.old.machine [])) }
{
    state.tests(1, 0, 0, 0)?;
    let byte = state.arith().low_byte(state.item(0))?;
    state.cut(1);
    Ok(Effect::Emit(byte))
}
