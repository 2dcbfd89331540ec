//! Operations on the bits of a form with a plain number.
ghost use Rattle.std.specs.Prelude.{◌≡◌};
ghost use Rattle.mi_model.specs.Ops.Two.{And, Or, Xor};
ghost use Rattle.mi_model.specs.Plain.{plain_two};
ghost use Rattle.mi_model.specs.Forms.{value_at, plain_form, TellsForm};
ghost use Rattle.mi_model.specs.Origin.{masked, or_low_of, xor_low_of};

use crate::GRID;
use crate::ring::normal;
use crate::sort::is_plain;
use mi_model::{Form, Why};

/// The bits of a form that `m` has too.
///
/// A form that isn't plain takes an `m` that keeps only low bits, below `GRID`, or drops only low bits; else the answer
/// is `Mask`.
pub fn mask(x: Form, m: u64) -> Result<Form, Why>
    ensures result { result ≡ masked x m }
    ensures values { TellsForm (λ pair. plain_two And (value_at x pair) m) result }
{
    if is_plain(x) || m < GRID {
        Ok(plain(x.c & m))
    } else if !m < GRID {
        Ok(normal(x.a, x.b, x.c & m))
    } else {
        Err(Why::Mask)
    }
}

/// A form with the bits of `m` set. A form that isn't plain takes an `m` below `GRID`; else the answer is `Mask`.
pub fn or_low(x: Form, m: u64) -> Result<Form, Why>
    ensures result { result ≡ or_low_of x m }
    ensures values { TellsForm (λ pair. plain_two Or (value_at x pair) m) result }
{
    if is_plain(x) || m < GRID {
        Ok(normal(x.a, x.b, x.c | m))
    } else {
        Err(Why::Mask)
    }
}

/// A form with the bits of `m` turned over. A form that isn't plain takes an `m` below `GRID`; else the answer is
/// `Mask`.
pub fn xor_low(x: Form, m: u64) -> Result<Form, Why>
    ensures result { result ≡ xor_low_of x m }
    ensures values { TellsForm (λ pair. plain_two Xor (value_at x pair) m) result }
{
    if is_plain(x) || m < GRID {
        Ok(normal(x.a, x.b, x.c ^ m))
    } else {
        Err(Why::Mask)
    }
}

/// The form of a number.
fn plain(n: u64) -> Form
    ensures { result ≡ plain_form n }
{
    Form { a: 0, b: 0, c: n }
}
