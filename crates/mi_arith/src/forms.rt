//! Operations on origin forms, each the same form at every allowed pair, or why there is none.
ghost use Rattle.std.specs.Prelude.{◌≡◌};
ghost use Rattle.mi_model.specs.Forms.{plain_form, is_plain as is_plain_form};
ghost use Rattle.mi_model.specs.Ops.Two.{Mul, And, Or, Xor, LeftShift, RightShift};
ghost use Rattle.mi_model.specs.Ops.One.{Half};
ghost use Rattle.mi_model.specs.Ops.Division.{Unsigned, Symmetric, Floored};
ghost use Rattle.mi_model.specs.OriginOps.{origin_two, origin_one, origin_product, origin_division, plain_forms, number_of, low_byte_of, with_operands};

use mi_model::{DivFault, Form, GRID, Refusal, Why};

/// The form of a number that is the same at every pair.
pub(crate) fn number(n: u64) -> Form
    ensures { result ≡ plain_form n }
{
    Form { a: 0, b: 0, c: n }
}

/// Whether neither base counts in a form.
pub(crate) fn is_plain(x: Form) -> bool
    ensures { result ≡ is_plain_form x }
{
    x.a == 0 && x.b == 0
}

/// An answer, or its refusal with these operands.
pub(crate) fn with<T>(first: Form, second: Form, answer: Result<T, Why>) -> Result<T, Refusal>
    ensures { result ≡ with_operands first second answer }
{
    match answer {
        Ok(answer) => Ok(answer),
        Err(why) => Err(Refusal { first, second, why }),
    }
}

/// A form times a plain number, whichever of the two that is.
pub(crate) fn times(x: Form, y: Form) -> Result<Form, Why>
    ensures { result ≡ origin_two Mul x y }
{
    if is_plain(y) {
        Ok(mi_form::scale(x, y.c))
    } else if is_plain(x) {
        Ok(mi_form::scale(y, x.c))
    } else {
        Err(Why::Multiply)
    }
}

pub(crate) fn and(x: Form, y: Form) -> Result<Form, Why>
    ensures { result ≡ origin_two And x y }
{
    if is_plain(y) {
        mi_form::mask(x, y.c)
    } else if is_plain(x) {
        mi_form::mask(y, x.c)
    } else {
        Err(Why::Mask)
    }
}

pub(crate) fn or(x: Form, y: Form) -> Result<Form, Why>
    ensures { result ≡ origin_two Or x y }
{
    if is_plain(y) {
        mi_form::or_low(x, y.c)
    } else if is_plain(x) {
        mi_form::or_low(y, x.c)
    } else {
        Err(Why::Mask)
    }
}

pub(crate) fn xor(x: Form, y: Form) -> Result<Form, Why>
    ensures { result ≡ origin_two Xor x y }
{
    if is_plain(y) {
        mi_form::xor_low(x, y.c)
    } else if is_plain(x) {
        mi_form::xor_low(y, x.c)
    } else {
        Err(Why::Mask)
    }
}

/// A form shifted to the left by a plain number of bits.
pub(crate) fn lshift(x: Form, y: Form) -> Result<Form, Why>
    ensures { result ≡ origin_two LeftShift x y }
{
    if !is_plain(y) {
        return Err(Why::Shift);
    }
    Ok(if y.c < 64 {
        mi_form::scale(x, 1 << y.c)
    } else {
        number(0)
    })
}

/// A plain number shifted to the right, or a form that is shifted by no bit.
pub(crate) fn rshift(x: Form, y: Form) -> Result<Form, Why>
    ensures { result ≡ origin_two RightShift x y }
{
    if is_plain(x) && is_plain(y) {
        Ok(number(if y.c < 64 { x.c >> y.c } else { 0 }))
    } else if is_plain(y) && y.c == 0 {
        Ok(x)
    } else {
        Err(Why::Shift)
    }
}

/// Half of a plain number.
pub(crate) fn half(x: Form) -> Result<Form, Why>
    ensures { result ≡ origin_one Half x }
{
    if !is_plain(x) {
        return Err(Why::Shift);
    }
    Ok(number(x.c / 2 + if x.c >= 1 << 63 { 1 << 63 } else { 0 }))
}

/// The double product of plain numbers.
pub(crate) fn product(x: Form, y: Form) -> Result<(Form, Form), Why>
    ensures { result ≡ origin_product x y }
{
    if !(is_plain(x) && is_plain(y)) {
        return Err(Why::Multiply);
    }
    let (low, high) = mi_num::um_mul(x.c, y.c);
    Ok((number(low), number(high)))
}

/// The lowest byte of a form, which no base changes.
pub(crate) fn low_byte(x: Form) -> Result<u8, Why>
    ensures { result ≡ low_byte_of x }
{
    if is_plain(x) || GRID % 256 == 0 {
        Ok((x.c % 256) as u8)
    } else {
        Err(Why::Byte)
    }
}

/// The number that a form is at every pair.
pub(crate) fn count(x: Form) -> Result<u64, Why>
    ensures { result ≡ number_of x }
{
    if is_plain(x) {
        Ok(x.c)
    } else {
        Err(Why::Count)
    }
}

/// The forms of a remainder and a quotient.
fn forms(answer: Result<(u64, u64), DivFault>) -> Result<(Form, Form), DivFault>
    ensures { result ≡ plain_forms answer }
{
    let (remainder, quotient) = answer?;
    Ok((number(remainder), number(quotient)))
}

/// The division of unsigned plain numbers.
pub(crate) fn unsigned_quotient(
    low: Form,
    high: Form,
    by: Form,
) -> Result<Result<(Form, Form), DivFault>, Why>
    ensures { result ≡ origin_division Unsigned low high by }
{
    if !(is_plain(low) && is_plain(high) && is_plain(by)) {
        return Err(Why::Divide);
    }
    Ok(forms(mi_num::um_div(low.c, high.c, by.c)))
}

/// The division of signed plain numbers, the quotient cut towards zero.
pub(crate) fn symmetric_quotient(
    low: Form,
    high: Form,
    by: Form,
) -> Result<Result<(Form, Form), DivFault>, Why>
    ensures { result ≡ origin_division Symmetric low high by }
{
    if !(is_plain(low) && is_plain(high) && is_plain(by)) {
        return Err(Why::Divide);
    }
    Ok(forms(mi_num::sm_div(low.c, high.c, by.c)))
}

/// The division of signed plain numbers, the quotient rounded down.
pub(crate) fn floored_quotient(
    low: Form,
    high: Form,
    by: Form,
) -> Result<Result<(Form, Form), DivFault>, Why>
    ensures { result ≡ origin_division Floored low high by }
{
    if !(is_plain(low) && is_plain(high) && is_plain(by)) {
        return Err(Why::Divide);
    }
    Ok(forms(mi_num::fm_div(low.c, high.c, by.c)))
}
