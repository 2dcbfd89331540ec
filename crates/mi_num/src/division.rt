//! The double product, and the divisions of a double by a number.
ghost use Rattle.std.specs.Prelude.{◌≡◌, ◌≢◌, ◌↔◌, ℕ, ◌<◌, ◌≤◌, ◌*◌, ◌/◌, ◌%◌, ◌^◌, cond, Ok, Err, IfOk};
ghost use Rattle.mi_model.specs.Plain.{divided, double, wrapped, signed_as, missing, rounded_up_quotient, quotient_fits};
ghost use Rattle.mi_model.specs.Plain.{is_negative as is_negative_number};
ghost use Rattle.mi_model.specs.Plain.{magnitude as magnitude_of, double_magnitude as double_magnitude_of};
ghost use Rattle.mi_model.specs.declared.DivFault.TheVariants.{ByZero, OutOfRange};
ghost use Rattle.mi_model.specs.Ops.Division.{Unsigned, Symmetric, Floored};
ghost use Rattle.mi_num.specs.Quotients.{signed, signed_double, DividesUnsigned, DividesCut, DividesFloored, NoneFits};

use mi_model::DivFault;

/// How many values a half of a double has.
const HALF: u128 = 1 << 64;

/// The first number that is negative when it is read as a signed one.
const FIRST_NEGATIVE: u64 = 1 << 63;

/// The product of two unsigned numbers as a double: its low half and its high half.
pub fn um_mul(x: u64, y: u64) -> (u64, u64)
    ensures halves { result ≡ (wrapped (x * y), x * y / 2 ^ 64) }
    ensures product { double result.0 result.1 ≡ x * y }
{
    let product = u128::from(x) * u128::from(y);
    ((product % HALF) as u64, (product / HALF) as u64)
}

/// The remainder and the quotient of an unsigned double, given by its halves, by an unsigned number. `ByZero` comes where
/// `by` is 0, and `OutOfRange` where the quotient is 2^64 or more.
#[tactic(auto, using(crate::proofs::AnswerLemmas::unsigned_answers))]
pub fn um_div(low: u64, high: u64, by: u64) -> Result<(u64, u64), DivFault>
    ensures divided { result ≡ divided Unsigned low high by }
    ensures quotient { IfOk result (λ parts. DividesUnsigned (double low high) by parts.1 parts.0) }
    ensures by_zero { result ≡ Err ByZero ↔ by ≡ 0 }
    ensures out_of_range { result ≡ Err OutOfRange → (q r : ℕ) → DividesUnsigned (double low high) by q r → 2 ^ 64 ≤ q }
{
    let by = nonzero(by)?;
    let (remainder, quotient) = parts(double_of(low, high), by);
    if quotient < HALF {
        Ok((remainder, quotient as u64))
    } else {
        Err(DivFault::OutOfRange)
    }
}

/// The remainder and the quotient of a signed double by a signed number, the quotient cut towards zero. The remainder has
/// the sign of the dividend, or is 0. `ByZero` comes where `by` is 0, and `OutOfRange` where the quotient is below -2^63,
/// or 2^63 or more.
pub fn sm_div(low: u64, high: u64, by: u64) -> Result<(u64, u64), DivFault>
    ensures divided { result ≡ divided Symmetric low high by }
    ensures quotient { IfOk result (λ parts. DividesCut (signed_double low high) (signed by) (signed parts.1) (signed parts.0)) }
    ensures by_zero { result ≡ Err ByZero ↔ by ≡ 0 }
    ensures out_of_range { result ≡ Err OutOfRange → NoneFits (DividesCut (signed_double low high) (signed by)) }
{
    let by = nonzero(by)?;
    let (remainder, quotient) = parts(double_magnitude(low, high), magnitude(by));
    let negative = is_negative(high);
    signed_parts(negative, remainder, negative != is_negative(by), quotient)
}

/// The remainder and the quotient of a signed double by a signed number, the quotient rounded down. The remainder has the
/// sign of the divisor, or is 0. `ByZero` comes where `by` is 0, and `OutOfRange` where the quotient is below -2^63, or
/// 2^63 or more.
pub fn fm_div(low: u64, high: u64, by: u64) -> Result<(u64, u64), DivFault>
    ensures divided { result ≡ divided Floored low high by }
    ensures quotient { IfOk result (λ parts. DividesFloored (signed_double low high) (signed by) (signed parts.1) (signed parts.0)) }
    ensures by_zero { result ≡ Err ByZero ↔ by ≡ 0 }
    ensures out_of_range { result ≡ Err OutOfRange → NoneFits (DividesFloored (signed_double low high) (signed by)) }
{
    let by = nonzero(by)?;
    let dividend = double_magnitude(low, high);
    let divisor = magnitude(by);
    let negative = is_negative(by);
    if is_negative(high) == negative {
        let (remainder, quotient) = parts(dividend, divisor);
        signed_parts(negative, remainder, false, quotient)
    } else {
        let (missing, quotient) = rounded_up_parts(dividend, divisor);
        signed_parts(negative, missing, true, quotient)
    }
}

/// The divisor, unless it is 0.
fn nonzero(by: u64) -> Result<u64, DivFault>
    ensures fault { result ≡ Err ByZero ↔ by ≡ 0 }
    ensures ok { by ≢ 0 → result ≡ Ok by }
{
    if by == 0 {
        Err(DivFault::ByZero)
    } else {
        Ok(by)
    }
}

/// The remainder and the quotient.
fn parts(dividend: u128, divisor: u64) -> (u64, u128)
    requires { 0 < divisor }
    ensures remainder { result.0 ≡ dividend % divisor }
    ensures quotient { result.1 ≡ dividend / divisor }
{
    let divisor = u128::from(divisor);
    ((dividend % divisor) as u64, dividend / divisor)
}

/// What is missing to the next multiple of the divisor, and the quotient rounded up.
fn rounded_up_parts(dividend: u128, divisor: u64) -> (u64, u128)
    requires some { 0 < divisor }
    requires room { dividend ≤ 2 ^ 127 }
    ensures missing { result.0 ≡ missing dividend divisor }
    ensures quotient { result.1 ≡ rounded_up_quotient dividend divisor }
{
    let divisor = u128::from(divisor);
    let quotient = (dividend + (divisor - 1)) / divisor;
    ((divisor * quotient - dividend) as u64, quotient)
}

/// Remainder and quotient of these signs and magnitudes, where the quotient fits a signed number.
fn signed_parts(
    remainder_negative: bool,
    remainder: u64,
    quotient_negative: bool,
    quotient: u128,
) -> Result<(u64, u64), DivFault>
    ensures { result ≡ cond (quotient_fits quotient_negative quotient) (Ok (signed_as remainder_negative remainder, signed_as quotient_negative quotient)) (Err OutOfRange) }
{
    let most = if quotient_negative {
        FIRST_NEGATIVE
    } else {
        FIRST_NEGATIVE - 1
    };
    if quotient <= u128::from(most) {
        let quotient = quotient as u64;
        Ok((
            with_sign(remainder_negative, remainder),
            with_sign(quotient_negative, quotient),
        ))
    } else {
        Err(DivFault::OutOfRange)
    }
}

/// The number of this sign and magnitude.
fn with_sign(negative: bool, magnitude: u64) -> u64
    ensures { result ≡ signed_as negative magnitude }
{
    if negative {
        magnitude.wrapping_neg()
    } else {
        magnitude
    }
}

/// Is a number negative when it is read as a signed one.
fn is_negative(number: u64) -> bool
    ensures { result ≡ is_negative_number number }
{
    number >= FIRST_NEGATIVE
}

/// The size of a signed number, without its sign.
fn magnitude(number: u64) -> u64
    ensures { result ≡ magnitude_of number }
{
    if is_negative(number) {
        number.wrapping_neg()
    } else {
        number
    }
}

/// The size of a signed double, without its sign.
fn double_magnitude(low: u64, high: u64) -> u128
    ensures size { result ≡ double_magnitude_of low high }
    ensures most { result ≤ 2 ^ 127 }
{
    let double = double_of(low, high);
    if is_negative(high) {
        double.wrapping_neg()
    } else {
        double
    }
}

/// The double of two halves.
fn double_of(low: u64, high: u64) -> u128
    ensures { result ≡ double low high }
{
    u128::from(low) + HALF * u128::from(high)
}
