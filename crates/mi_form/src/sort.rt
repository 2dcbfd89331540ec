//! The sorts of forms that comparisons tell apart.
ghost use Rattle.std.specs.Prelude.{◌≡◌};
ghost use Rattle.mi_form.specs.Code.{meant};
ghost use Rattle.mi_model.specs.Origin.{sort_of};
ghost use Rattle.mi_model.specs.Forms.{is_plain as has_no_base};

use mi_model::Form;

/// The bound on the distance of a code form from the code base.
pub(crate) const CODE_BOUND: u64 = 4096;

/// What a form is, with its c.
#[derive(Clone, Copy)]
pub(crate) enum Sort {
    /// A number that is the same at every pair.
    Plain(u64),
    /// An address in the region, or of its end.
    Data(u64),
    /// An address near the code table.
    Code(u64),
    /// None of these.
    Mixed,
}

/// Whether a form is a plain number.
pub(crate) fn is_plain(form: Form) -> bool
    ensures { result ≡ has_no_base form }
{
    form.a == 0 && form.b == 0
}

/// The sort of a form, in a region of `size` bytes.
pub(crate) fn classify(form: Form, size: u32) -> Sort
    ensures { meant result ≡ sort_of size form }
{
    if form.a == 0 && form.b == 0 {
        Sort::Plain(form.c)
    } else if form.a == 1 && form.b == 0 && form.c <= u64::from(size) {
        Sort::Data(form.c)
    } else if form.a == 0 && form.b == 1 && form.c < CODE_BOUND {
        Sort::Code(form.c)
    } else {
        Sort::Mixed
    }
}
