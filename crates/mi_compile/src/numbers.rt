//! The conversion of digits.

ghost use Rattle.std.specs.Prelude.{◌≡◌, ℕ, ◌≤◌, ◌+◌, ◌*◌, ◌%◌, ◌^◌, ◌/◌, length, [], ◌∷◌, IfOk};
ghost use Rattle.mi_model.specs.Outcome.{outcome_of};
ghost use Rattle.mi_model.specs.ConvertingNumbers as actions;
ghost use Rattle.mi_compile.specs.Digits.{base_in, extended_by};
ghost use Rattle.mi_model.specs.Plain.{double};
ghost use Rattle.mi_region.specs.View.{Gives, keeping, leading};

use mi_arith::Arith;
use mi_model::{Effect, Fault};
use mi_num::digit;
use mi_region::State;
use mi_vocab::BASE;

/// How many values a half of a double has.
const HALF: u128 = 1 << 64;

/// The double of two halves.
fn double_of(low: u64, high: u64) -> u128
    ensures { result ≡ double low high }
{
    u128::from(low) + HALF * u128::from(high)
}

/// A double with one digit more behind it, modulo 2^128.
#[tactic(auto, using(crate::proofs::Digits::with_digit))]
fn with_digit(base: u8, double: u128, digit: u8) -> u128
    ensures { result ≡ (base * double + digit) % 2 ^ 128 }
{
    double
        .wrapping_mul(u128::from(base))
        .wrapping_add(u128::from(digit))
}

/// A double with the digits behind it that stand at the front of a text of the region, modulo 2^128, and how many digits
/// these are.
#[tactic(auto, using(crate::proofs::Digits::digits_next, crate::proofs::Digits::digits_done))]
fn extend<A: Arith>(
    state: &State<A>,
    base: u8,
    place: u32,
    count: u32,
    double: u128,
) -> Result<(u128, u32), Fault>
    requires base { 1 ≤ base }
    requires within { place + count ≤ length state.now.machine.bytes }
    ensures action { keeping state.now.machine result ≡ extended_by base double 0 (outcome_of (A.ops state.now.arith) (actions.read_digits base count place []) state.now.machine []) }
    ensures most { IfOk result (λ r. r.1 ≤ count) }
{
    let _ = state.size();
    let mut extended = double;
    let mut digits = 0;
    'digits: while digits < count {
        let c = state.fetch_byte_at(place + digits)?;
        let Some(d) = digit(c, base) else {
            return Ok((extended, digits));
        };
        extended = with_digit(base, extended, d);
        digits += 1;
    }
    Ok((extended, digits))
}

/// BASE; throw -24 where no digits can be written in it.
fn base_of_digits<A: Arith>(state: &State<A>) -> Result<u8, Fault>
    ensures base { result ≡ base_in (A.ops state.now.arith) state.now.machine.bytes }
    ensures least { IfOk result (λ base. 2 ≤ base) }
{
    let base = state.arith().number(state.fetch_system(BASE)?)?;
    if !(2..=36).contains(&base) {
        return Err(Fault::Throw(-24));
    }
    Ok(base as u8)
}

/// >NUMBER ( low high a u -- low high a u ): puts the digits at the front of a text behind a double, modulo 2^128, each of
/// them as BASE times the double plus the digit, and gives the rest of the text, from the first byte on that is no digit.
///
/// Throws -4 where the four items aren't there, -9 where the text doesn't lie in the region, -24 where BASE isn't from 2 to
/// 36. After a fault nothing has changed.
pub fn to_number<A: Arith>(state: &mut State<A>) -> Result<Effect, Fault>
    ensures { (token : A.Cell) → Gives A.GROWS result state.old state.new (leading state.old (outcome_of (A.ops state.old.arith) actions.do_to_number state.old.machine (token ∷ []))) }
{
    state.tests(4, 4, 0, 0)?;
    let arith = *state.arith();
    let (low, high) = (arith.number(state.item(3))?, arith.number(state.item(2))?);
    let text = state.item(1);
    let length = arith.number(state.item(0))?;
    let place = state.range(text, length)?;
    let base = base_of_digits(state)?;
    let _ = state.size();
    let (double, digits) = extend(state, base, place, length as u32, double_of(low, high))?;
    let rest = arith.add(text, arith.plain(digits as u64))?;
    state.cut(4);
    state.put(arith.plain((double % HALF) as u64));
    state.put(arith.plain((double / HALF) as u64));
    state.put(rest);
    state.put(arith.plain(length - digits as u64));
    Ok(Effect::Went)
}
