//! The texts of the throw codes.
ghost use Rattle.std.specs.Prelude.{◌≡◌};
ghost use Rattle.mi_model.specs.Throws.{throw_text_of};

/// The text of a throw code; it is empty for any other code.
#[tactic(auto, unfolding(mi_model::specs::Throws::throw_text_of))]
pub fn throw_text(code: i64) -> &'static str
    ensures { result.now ≡ throw_text_of code }
{
    match code {
        -1 => "abort",
        -2 => "abort quote",
        -3 => "stack overflow",
        -4 => "stack underflow",
        -5 => "return stack overflow",
        -6 => "return stack underflow",
        -8 => "dictionary overflow",
        -9 => "invalid memory address",
        -10 => "division by zero",
        -11 => "result out of range",
        -13 => "undefined word",
        -14 => "interpreting a compile-only word",
        -16 => "zero-length name",
        -17 => "pictured numeric output overflow",
        -18 => "parsed string overflow",
        -19 => "name too long",
        -22 => "control structure mismatch",
        -23 => "address alignment",
        -24 => "invalid numeric argument",
        -31 => "not a created word",
        -32 => "invalid name argument",
        -39 => "unexpected end of file",
        -49 => "search-order overflow",
        -50 => "search-order underflow",
        _ => "",
    }
}
