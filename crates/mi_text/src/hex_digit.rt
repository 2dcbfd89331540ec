//! Hexadecimal digits.

ghost use Rattle.std.specs.Prelude.{◌≡◌, ◌<◌, ◌+◌, ◌*◌, IsNone, IfSome, None, Some};
ghost use Rattle.mi_model.specs.Numbers.{digit_in};

use mi_num::digit;

/// A hexadecimal digit.
#[derive(Clone, Copy, Debug, Drop)]
pub struct HexDigit {
    value: u8,
    ghost in_range: { value < 16 },
}

impl HexDigit {
    /// The digit that a byte spells.
    pub fn new(byte: u8) -> Option<HexDigit>
        ensures some { IfSome result (λ digit. digit_in 16 byte ≡ Some digit.value) }
        ensures none { IsNone result → digit_in 16 byte ≡ None }
    {
        let value = digit(byte, 16)?;
        Some(HexDigit { value })
    }

    /// The byte of this digit and the one behind it.
    pub fn with(self, low: HexDigit) -> u8
        ensures { result ≡ 16 * self.value + low.value }
    {
        16 * self.value + low.value
    }
}
