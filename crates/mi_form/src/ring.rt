//! Sums, differences and products of forms.
ghost use Rattle.std.specs.Prelude.{◌≡◌};
ghost use Rattle.mi_model.specs.Ops.Two.{Add, Sub, Mul};
ghost use Rattle.mi_model.specs.Ops.One.{Negate, Invert};
ghost use Rattle.mi_model.specs.Plain.{plain_two, plain_one};
ghost use Rattle.mi_model.specs.Forms.{value_at, IsNormal, HasValues, normal as normal_of};
ghost use Rattle.mi_model.specs.Origin.{sum_of, difference_of, product_of, negated, inverted};

use crate::WRAP;
use mi_model::Form;

/// The sum of two forms.
pub fn add(x: Form, y: Form) -> Form
    ensures result { result ≡ sum_of x y }
    ensures values { HasValues (λ pair. plain_two Add (value_at x pair) (value_at y pair)) result }
    ensures normal { IsNormal result }
{
    normal(
        x.a.wrapping_add(y.a),
        x.b.wrapping_add(y.b),
        x.c.wrapping_add(y.c),
    )
}

/// The difference of two forms.
#[tactic(auto, using(crate::proofs::Values::difference_value))]
pub fn sub(x: Form, y: Form) -> Form
    ensures result { result ≡ difference_of x y }
    ensures values { HasValues (λ pair. plain_two Sub (value_at x pair) (value_at y pair)) result }
    ensures normal { IsNormal result }
{
    normal(
        x.a.wrapping_sub(y.a),
        x.b.wrapping_sub(y.b),
        x.c.wrapping_sub(y.c),
    )
}

/// A form times a plain number.
pub fn scale(x: Form, m: u64) -> Form
    ensures result { result ≡ product_of x m }
    ensures values { HasValues (λ pair. plain_two Mul (value_at x pair) m) result }
    ensures normal { IsNormal result }
{
    normal(
        x.a.wrapping_mul(m),
        x.b.wrapping_mul(m),
        x.c.wrapping_mul(m),
    )
}

/// A form with its sign turned over.
pub fn negate(x: Form) -> Form
    ensures result { result ≡ negated x }
    ensures values { HasValues (λ pair. plain_one Negate (value_at x pair)) result }
    ensures normal { IsNormal result }
{
    sub(Form { a: 0, b: 0, c: 0 }, x)
}

/// A form with all bits turned over: -x - 1.
pub fn invert(x: Form) -> Form
    ensures result { result ≡ inverted x }
    ensures values { HasValues (λ pair. plain_one Invert (value_at x pair)) result }
    ensures normal { IsNormal result }
{
    sub(negate(x), Form { a: 0, b: 0, c: 1 })
}

/// The normal form of these parts.
pub(crate) fn normal(a: u64, b: u64, c: u64) -> Form
    ensures result { result ≡ normal_of a b c }
    ensures normal { IsNormal result }
{
    Form {
        a: a % WRAP,
        b: b % WRAP,
        c,
    }
}
