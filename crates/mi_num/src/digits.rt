//! The digits of number texts.
ghost use Rattle.std.specs.Prelude.{◌≡◌, ◌≤◌, None};
ghost use Rattle.mi_model.specs.Numbers.{digit_value, digit_in};

/// The value of a byte as a digit where it is below `base`, else `None`. The digits are `0` to `9`, and from 10 on the
/// letters, of either case. Beyond base 36 there are no more of them, and base 0 has none.
pub fn digit(byte: u8, base: u8) -> Option<u8>
    ensures digit { 1 ≤ base → result ≡ digit_in base byte }
    ensures no_base { base ≡ 0 → result ≡ None }
{
    match value(byte) {
        Some(value) if value < base => Some(value),
        _ => None,
    }
}

/// The value of a byte as a digit.
fn value(byte: u8) -> Option<u8>
    ensures { result ≡ digit_value byte }
{
    match byte {
        b'0'..=b'9' => Some(byte - b'0'),
        b'A'..=b'Z' => Some(byte - b'A' + 10),
        b'a'..=b'z' => Some(byte - b'a' + 10),
        _ => None,
    }
}
