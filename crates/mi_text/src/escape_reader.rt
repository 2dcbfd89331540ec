//! Texts with escapes, read byte by byte.

ghost use Rattle.std.specs.Prelude.{◌≡◌, ℕ, List, [], ◌∷◌, ◌++◌, None, Some, IfOk, OnOk, OnErr};
ghost use Rattle.mi_model.specs.Escapes.{unescaped, unescaped_from, in_front};
ghost use Rattle.mi_text.specs.Unescaped.{Reads, bytes_of, in_escape};

use crate::escapes::escape;
use crate::hex_digit::HexDigit;
use mi_model::Escaped;

/// A reader of a text with escapes, as that of `S\"`. It is fed the text byte by byte, and gives the bytes of the text
/// with its escapes replaced. It takes no memory.
///
/// An escape is a backslash and a byte for which `escape` has an answer, and behind `\x` two hexadecimal digits, with
/// letters of either case. All other bytes stay.
#[derive(Clone, Debug, Drop)]
pub struct EscapeReader {
    place: Place,
}

/// Where the next byte stands.
#[derive(Clone, Copy, Debug, Drop)]
enum Place {
    /// In no escape.
    Outside,
    /// Right behind a backslash.
    Behind,
    /// Behind `\x`.
    FirstDigit,
    /// Behind `\x` and this digit.
    SecondDigit(HexDigit),
}

/// What a byte adds to the text with its escapes replaced.
#[derive(Clone, Copy, Debug, PartialEq, Eq, Drop)]
pub enum Replaced {
    /// Nothing: the byte begins an escape, or goes on in one.
    Nothing,
    /// This byte.
    One(u8),
    /// A CR and an LF.
    CrLf,
}

/// A backslash begins no escape: no byte follows that makes it one, or `\x` lacks its two digits.
#[derive(Clone, Copy, Debug, PartialEq, Eq, Drop)]
pub struct BadEscape;

impl EscapeReader {
    /// A reader that has read nothing.
    pub fn new() -> EscapeReader
        ensures { Reads result [] [] }
    {
        EscapeReader {
            place: Place::Outside,
        }
    }

    /// Reads one more byte, and gives what it adds to the text with its escapes replaced.
    ///
    /// Fails with `BadEscape` where an escape was begun in which this byte can't follow, so that the text is bad whatever
    /// comes behind. Then the reader is as it was before this byte.
    pub fn feed(&mut self, byte: u8) -> Result<Replaced, BadEscape>
        ensures ok { IfOk result (λ replaced. (text given : List ℕ) → Reads self.old text given →
            Reads self.new (text ++ byte ∷ []) (given ++ bytes_of replaced)) }
        ensures err { OnErr result ((text given rest : List ℕ) → Reads self.old text given →
            unescaped (text ++ byte ∷ rest) ≡ None) }
        ensures unchanged { OnErr result (self.new ≡ self.old) }
    {
        let (replaced, place) = after(self.place, byte)?;
        self.place = place;
        Ok(replaced)
    }

    /// Ends the text. What was given by then is the text with its escapes replaced.
    ///
    /// Fails with `BadEscape` where an escape was begun and hasn't ended.
    pub fn end(self) -> Result<(), BadEscape>
        ensures ok { OnOk result ((text given : List ℕ) → Reads self text given → unescaped text ≡ Some given) }
        ensures err { OnErr result ((text given : List ℕ) → Reads self text given → unescaped text ≡ None) }
    {
        match self.place {
            Place::Outside => Ok(()),
            Place::Behind | Place::FirstDigit | Place::SecondDigit(_) => Err(BadEscape),
        }
    }
}

/// What a byte that stands there adds, and where the next one stands.
fn after(place: Place, byte: u8) -> Result<(Replaced, Place), BadEscape>
    ensures ok { IfOk result (λ step. (rest : List ℕ) →
        unescaped_from (in_escape place) (byte ∷ rest) ≡ in_front (bytes_of step.0) (unescaped_from (in_escape step.1) rest)) }
    ensures err { OnErr result ((rest : List ℕ) → unescaped_from (in_escape place) (byte ∷ rest) ≡ None) }
{
    match place {
        Place::Outside if byte == b'\\' => Ok((Replaced::Nothing, Place::Behind)),
        Place::Outside => Ok((Replaced::One(byte), Place::Outside)),
        Place::Behind => match escape(byte).ok_or(BadEscape)? {
            Escaped::One(byte) => Ok((Replaced::One(byte), Place::Outside)),
            Escaped::CrLf => Ok((Replaced::CrLf, Place::Outside)),
            Escaped::Hex => Ok((Replaced::Nothing, Place::FirstDigit)),
        },
        Place::FirstDigit => {
            let high = HexDigit::new(byte).ok_or(BadEscape)?;
            Ok((Replaced::Nothing, Place::SecondDigit(high)))
        }
        Place::SecondDigit(high) => {
            let low = HexDigit::new(byte).ok_or(BadEscape)?;
            Ok((Replaced::One(high.with(low)), Place::Outside))
        }
    }
}
