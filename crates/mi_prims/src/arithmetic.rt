//! The instructions on numbers.

ghost use Rattle.std.specs.Prelude.{◌≡◌, ℕ, ◌<◌, ◌-◌, ◌^◌, cond, length, [], ◌∷◌};
ghost use Rattle.mi_model.specs.Machine.{quotient_or_throw};
ghost use Rattle.mi_model.specs.Outcome.{outcome_of};
ghost use Rattle.mi_model.specs.Arithmetic as actions;
ghost use Rattle.mi_prims.specs.Families.{two_of, one_of, test_of, division_of, on_two, on_one, on_test, on_zero_test, on_division};
ghost use Rattle.mi_region.specs.View.{Gives, leading, with_stack};

use mi_arith::Arith;
use mi_model::{DivFault, Effect, Fault, Refusal};
use mi_region::State;

/// The operations on two cells that give a cell.
#[derive(Clone, Copy)]
pub enum TwoCells {
    Add,
    Sub,
    Mul,
    And,
    Or,
    Xor,
    LeftShift,
    RightShift,
}

/// The operations on a cell that give a cell; half of a signed number is rounded down.
#[derive(Clone, Copy)]
pub enum OneCell {
    Negate,
    Invert,
    Half,
}

/// The comparisons of two cells: less as signed numbers, below as unsigned ones.
#[derive(Clone, Copy)]
pub enum Comparison {
    Equal,
    Less,
    Below,
}

/// How a double is divided: as an unsigned number, or as a signed one, whose quotient is cut towards zero or rounded down.
#[derive(Clone, Copy)]
pub enum Rounding {
    Unsigned,
    Symmetric,
    Floored,
}

fn on_two_cells<A: Arith>(
    arith: &A,
    op: TwoCells,
    x: A::Cell,
    y: A::Cell,
) -> Result<A::Cell, Refusal>
    ensures { result ≡ (A.ops arith.now).two (two_of op) x y }
{
    match op {
        TwoCells::Add => arith.add(x, y),
        TwoCells::Sub => arith.sub(x, y),
        TwoCells::Mul => arith.mul(x, y),
        TwoCells::And => arith.and(x, y),
        TwoCells::Or => arith.or(x, y),
        TwoCells::Xor => arith.xor(x, y),
        TwoCells::LeftShift => arith.lshift(x, y),
        TwoCells::RightShift => arith.rshift(x, y),
    }
}

/// +, -, *, AND, OR, XOR, LSHIFT and RSHIFT ( x y -- z ): sum, difference and product are modulo 2^64, the bits that a shift
/// brings in are 0, and a shift by 64 bits or more gives 0
pub fn two_cells<A: Arith>(state: &mut State<A>, op: TwoCells) -> Result<Effect, Fault>
    ensures { Gives A.GROWS result state.old state.new (leading state.old (outcome_of (A.ops state.old.arith) (on_two (two_of op)) state.old.machine [])) }
{
    state.tests(2, 1, 0, 0)?;
    let z = on_two_cells(state.arith(), op, state.item(1), state.item(0))?;
    state.cut(2);
    state.put(z);
    Ok(Effect::Went)
}

fn on_one_cell<A: Arith>(arith: &A, op: OneCell, x: A::Cell) -> Result<A::Cell, Refusal>
    ensures { result ≡ (A.ops arith.now).one (one_of op) x }
{
    match op {
        OneCell::Negate => arith.negate(x),
        OneCell::Invert => arith.invert(x),
        OneCell::Half => arith.half(x),
    }
}

/// NEGATE, INVERT and 2/ ( x -- z ): 0 less x modulo 2^64, every bit turned over, and half of a signed number, rounded down
pub fn one_cell<A: Arith>(state: &mut State<A>, op: OneCell) -> Result<Effect, Fault>
    ensures { Gives A.GROWS result state.old state.new (leading state.old (outcome_of (A.ops state.old.arith) (on_one (one_of op)) state.old.machine [])) }
{
    state.tests(1, 1, 0, 0)?;
    let z = on_one_cell(state.arith(), op, state.item(0))?;
    state.cut(1);
    state.put(z);
    Ok(Effect::Went)
}

/// UM* ( x y -- low high ): the product of two unsigned numbers as a double
pub fn um_times<A: Arith>(state: &mut State<A>) -> Result<Effect, Fault>
    ensures { Gives A.GROWS result state.old state.new (leading state.old (outcome_of (A.ops state.old.arith) actions.do_um_times state.old.machine [])) }
{
    state.tests(2, 2, 0, 0)?;
    let (low, high) = state.arith().um_mul(state.item(1), state.item(0))?;
    state.cut(2);
    state.put(low);
    state.put(high);
    Ok(Effect::Went)
}

/// Throws -10 where a division is by zero, and -11 where the quotient doesn't fit a cell.
fn parts<C>(divided: Result<(C, C), DivFault>) -> Result<(C, C), Fault>
    ensures { result ≡ quotient_or_throw divided }
{
    match divided {
        Ok(parts) => Ok(parts),
        Err(DivFault::ByZero) => Err(Fault::Throw(-10)),
        Err(DivFault::OutOfRange) => Err(Fault::Throw(-11)),
    }
}

fn divide<A: Arith>(
    arith: &A,
    rounding: Rounding,
    low: A::Cell,
    high: A::Cell,
    by: A::Cell,
) -> Result<Result<(A::Cell, A::Cell), DivFault>, Refusal>
    ensures { result ≡ (A.ops arith.now).divide (division_of rounding) low high by }
{
    match rounding {
        Rounding::Unsigned => arith.um_div(low, high, by),
        Rounding::Symmetric => arith.sm_div(low, high, by),
        Rounding::Floored => arith.fm_div(low, high, by),
    }
}

/// UM/MOD, SM/REM and FM/MOD ( low high n -- r q ): remainder and quotient of a double; throws -10 where n is 0, and -11
/// where the quotient doesn't fit a cell
pub fn division<A: Arith>(state: &mut State<A>, rounding: Rounding) -> Result<Effect, Fault>
    ensures { Gives A.GROWS result state.old state.new (leading state.old (outcome_of (A.ops state.old.arith) (on_division (division_of rounding)) state.old.machine [])) }
{
    state.tests(3, 2, 0, 0)?;
    let (low, high, by) = (state.item(2), state.item(1), state.item(0));
    let divided = divide(state.arith(), rounding, low, high, by)?;
    let (remainder, quotient) = parts(divided)?;
    state.cut(3);
    state.put(remainder);
    state.put(quotient);
    Ok(Effect::Went)
}

fn test<A: Arith>(
    arith: &A,
    comparison: Comparison,
    x: A::Cell,
    y: A::Cell,
) -> Result<bool, Refusal>
    ensures { result ≡ (A.ops arith.now).test (test_of comparison) x y }
{
    match comparison {
        Comparison::Equal => arith.equal(x, y),
        Comparison::Less => arith.less(x, y),
        Comparison::Below => arith.below(x, y),
    }
}

/// Puts a truth value on the data stack, which has room for it: all bits set, or none.
fn put_flag<A: Arith>(state: &mut State<A>, is_so: bool)
    requires { length state.old.machine.stack < 4096 }
    ensures { state.new ≡ with_stack state.old ((A.ops state.old.arith).plain (cond is_so (2 ^ 64 - 1) 0) ∷ state.old.machine.stack) }
{
    let flag = state.arith().plain(if is_so { u64::MAX } else { 0 });
    state.put(flag);
}

/// =, < and U< ( x y -- f ): whether they are equal, and whether x is less than y, as signed and as unsigned numbers
pub fn compare<A: Arith>(state: &mut State<A>, comparison: Comparison) -> Result<Effect, Fault>
    ensures { Gives A.GROWS result state.old state.new (leading state.old (outcome_of (A.ops state.old.arith) (on_test (test_of comparison)) state.old.machine [])) }
{
    state.tests(2, 1, 0, 0)?;
    let is_so = test(state.arith(), comparison, state.item(1), state.item(0))?;
    state.cut(2);
    put_flag(state, is_so);
    Ok(Effect::Went)
}

/// 0= and 0< ( x -- f ): whether x is 0, and whether it is negative
pub fn compare_with_zero<A: Arith>(
    state: &mut State<A>,
    comparison: Comparison,
) -> Result<Effect, Fault>
    ensures { Gives A.GROWS result state.old state.new (leading state.old (outcome_of (A.ops state.old.arith) (on_zero_test (test_of comparison)) state.old.machine [])) }
{
    state.tests(1, 1, 0, 0)?;
    let arith = state.arith();
    let is_so = test(arith, comparison, state.item(0), arith.plain(0))?;
    state.cut(1);
    put_flag(state, is_so);
    Ok(Effect::Went)
}
