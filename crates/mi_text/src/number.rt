//! Number texts, read byte by byte.

ghost use Rattle.std.specs.Prelude.{◌≡◌, ◌^◌, ◌-◌, ℕ, List, [], ◌∷◌, ◌++◌, true, false, None, Some};
ghost use Rattle.mi_model.specs.Numbers.{at_most, continued, number_text, signed_number};
ghost use Rattle.mi_model.specs.Numbers.{is_base as is_number_base};
ghost use Rattle.mi_text.specs.Number.{Reads, answer_with, in_base, with_sign};

use mi_model::BadBase;
use mi_num::digit;

/// A reader of a number text, which is fed the text byte by byte. It takes no memory.
///
/// A number text is an optional prefix, an optional minus sign, and one digit or more. The prefix is `#` for decimal,
/// `$` for hexadecimal and `%` for binary numbers; without one the number is in BASE. Digits beyond 9 are letters, of
/// either case. The number is at most 2^64 - 1, and with a minus sign at least -2^63. A character between two
/// apostrophes is a number text too, and stands for its code.
#[derive(Clone, Debug, Drop)]
pub struct NumberReader {
    /// The value of BASE, or the base of the prefix once that is read.
    base: u64,
    progress: Progress,
}

/// What a reader has read.
#[derive(Clone, Copy, Debug, Drop)]
enum Progress {
    /// Nothing.
    Empty,
    /// A prefix.
    Prefixed,
    /// A minus sign, with or without a prefix before it.
    Signed,
    /// One digit at least.
    Digits { negative: bool, magnitude: u64 },
    /// An apostrophe.
    Quote,
    /// An apostrophe and a byte.
    Quoted(u8),
    /// A byte between two apostrophes.
    Character(u8),
    /// What is no number, whatever follows.
    NoNumber,
}

impl NumberReader {
    /// A reader that has read nothing. `base` is the value of BASE.
    pub fn new(base: u64) -> NumberReader
        ensures { Reads result base [] }
    {
        NumberReader {
            base,
            progress: Progress::Empty,
        }
    }

    /// Reads one more byte.
    pub fn feed(&mut self, byte: u8)
        ensures { (base : ℕ) (text : List ℕ) → Reads self.old base text → Reads self.new base (text ++ byte ∷ []) }
    {
        *self = self.after(byte);
    }

    /// The number that the text stands for, modulo 2^64, or `None` where the text is no number.
    ///
    /// Fails with `BadBase` where BASE isn't from 2 to 36, whether or not the text is a number, but not for a text with
    /// a prefix, nor for a character.
    pub fn end(self) -> Result<Option<u64>, BadBase>
        ensures { (base : ℕ) (text : List ℕ) → Reads self base text → result ≡ number_text base text }
    {
        self.answer()
    }

    /// The reader when it has read this byte too.
    fn after(&self, byte: u8) -> NumberReader
        ensures { (rest : List ℕ) → answer_with result rest ≡ answer_with self.now (byte ∷ rest) }
    {
        let base = self.base;
        match self.progress {
            Progress::Empty => after_nothing(base, byte),
            Progress::Prefixed => after_prefix(base, byte),
            Progress::Signed => after_digits(base, true, 0, byte),
            Progress::Digits {
                negative,
                magnitude,
            } => after_digits(base, negative, magnitude, byte),
            Progress::Quote => NumberReader {
                base,
                progress: Progress::Quoted(byte),
            },
            Progress::Quoted(code) => after_quoted(base, code, byte),
            Progress::Character(_) | Progress::NoNumber => NumberReader {
                base,
                progress: Progress::NoNumber,
            },
        }
    }

    /// The answer where nothing follows.
    fn answer(&self) -> Result<Option<u64>, BadBase>
        ensures { result ≡ answer_with self.now [] }
    {
        match self.progress {
            Progress::Character(code) => Ok(Some(u64::from(code))),
            Progress::Digits {
                negative,
                magnitude,
            } => number(self.base, signed(negative, magnitude)),
            Progress::Empty
            | Progress::Prefixed
            | Progress::Signed
            | Progress::Quote
            | Progress::Quoted(_)
            | Progress::NoNumber => number(self.base, None),
        }
    }
}

/// The reader behind the first byte.
fn after_nothing(base: u64, byte: u8) -> NumberReader
    ensures { (rest : List ℕ) → answer_with result rest ≡ number_text base (byte ∷ rest) }
{
    match byte {
        b'#' => prefixed(10),
        b'$' => prefixed(16),
        b'%' => prefixed(2),
        b'\'' => NumberReader {
            base,
            progress: Progress::Quote,
        },
        _ => after_prefix(base, byte),
    }
}

/// The reader behind the prefix of a base.
fn prefixed(base: u64) -> NumberReader
    ensures { (rest : List ℕ) → answer_with result rest ≡ in_base base (signed_number base rest) }
{
    NumberReader {
        base,
        progress: Progress::Prefixed,
    }
}

/// The reader behind the first byte of a signed number.
fn after_prefix(base: u64, byte: u8) -> NumberReader
    ensures { (rest : List ℕ) → answer_with result rest ≡ in_base base (signed_number base (byte ∷ rest)) }
{
    if byte == b'-' {
        NumberReader {
            base,
            progress: Progress::Signed,
        }
    } else {
        after_digits(base, false, 0, byte)
    }
}

/// The reader behind digits of this magnitude, which may be none and 0, and one more byte.
fn after_digits(base: u64, negative: bool, magnitude: u64, byte: u8) -> NumberReader
    ensures { (rest : List ℕ) → answer_with result rest ≡ in_base base (with_sign negative (continued base magnitude (byte ∷ rest))) }
{
    let progress = match longer(base, magnitude, byte) {
        Some(magnitude) => Progress::Digits {
            negative,
            magnitude,
        },
        None => Progress::NoNumber,
    };
    NumberReader { base, progress }
}

/// The reader behind an apostrophe and two bytes.
fn after_quoted(base: u64, code: u8, byte: u8) -> NumberReader
    ensures { (rest : List ℕ) → answer_with result rest ≡ number_text base (39 ∷ (code ∷ (byte ∷ rest))) }
{
    let progress = if byte == b'\'' {
        Progress::Character(code)
    } else {
        Progress::NoNumber
    };
    NumberReader { base, progress }
}

/// The magnitude with one more digit, where the byte is a digit of the base and the magnitude is below 2^64.
fn longer(base: u64, magnitude: u64, byte: u8) -> Option<u64>
    ensures { is_number_base base ≡ true → result ≡ at_most (2 ^ 64 - 1) (continued base magnitude (byte ∷ [])) }
{
    if !is_base(base) {
        return None;
    }
    let value = digit(byte, base as u8)?;
    base.checked_mul(magnitude)?.checked_add(u64::from(value))
}

/// The number of a magnitude with a sign or none, modulo 2^64, where it is in range.
fn signed(negative: bool, magnitude: u64) -> Option<u64>
    ensures { result ≡ with_sign negative (Some magnitude) }
{
    if !negative {
        Some(magnitude)
    } else if magnitude <= 1 << 63 {
        Some(0_u64.wrapping_sub(magnitude))
    } else {
        None
    }
}

/// The answer of a number in a base, or of no number.
fn number(base: u64, number: Option<u64>) -> Result<Option<u64>, BadBase>
    ensures { result ≡ in_base base number }
{
    if is_base(base) {
        Ok(number)
    } else {
        Err(BadBase)
    }
}

/// Can digits be written in this base.
fn is_base(base: u64) -> bool
    ensures { result ≡ is_number_base base }
{
    matches!(base, 2..=36)
}
