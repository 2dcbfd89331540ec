//! The escapes in the text of `S\"`.

ghost use Rattle.std.specs.Prelude.{◌≡◌};
ghost use Rattle.mi_model.specs.Escapes.{escape_of};

use mi_model::Escaped;

/// What a backslash and the byte `first` behind it stand for, or `None` where they are no escape. Capital letters are
/// none.
#[tactic(auto, unfolding(mi_model::specs::Escapes::escape_of))]
pub fn escape(first: u8) -> Option<Escaped>
    ensures { result ≡ escape_of first }
{
    match first {
        b'a' => Some(Escaped::One(7)),
        b'b' => Some(Escaped::One(8)),
        b'e' => Some(Escaped::One(27)),
        b'f' => Some(Escaped::One(12)),
        b'l' | b'n' => Some(Escaped::One(b'\n')),
        b'm' => Some(Escaped::CrLf),
        b'q' | b'"' => Some(Escaped::One(b'"')),
        b'r' => Some(Escaped::One(b'\r')),
        b't' => Some(Escaped::One(b'\t')),
        b'v' => Some(Escaped::One(11)),
        b'x' => Some(Escaped::Hex),
        b'z' => Some(Escaped::One(0)),
        b'\\' => Some(Escaped::One(b'\\')),
        _ => None,
    }
}
