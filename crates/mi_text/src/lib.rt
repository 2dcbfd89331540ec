//! The lines of a text, number texts, and texts with escapes.
#![tactic(auto)]

ghost use Rattle.std.specs.Prelude.{◌≡◌, ◌==◌, ◌^◌, ◌<◌, ◌≤◌, ◌↔◌, [], ◌∷◌, length, drop, position, slice_range, IsNone, IfSome};
ghost use Rattle.mi_model.specs.Lines.{lines_of};
ghost use Rattle.mi_text.specs.Ending.{without_last_cr};

mod escape_reader;
mod escapes;
mod hex_digit;
mod number;

pub use escape_reader::{BadEscape, EscapeReader, Replaced};
pub use escapes::escape;
pub use mi_model::{BadBase, Escaped, Line};
pub use number::NumberReader;

/// The first line of the part of `text` that begins at `from`, in bytes, or `None` where that part has no line. A line
/// ends before an LF, or at the end of the text; a CR right before either is no part of it. What comes after the last
/// LF is a line where it isn't empty once its CR is dropped.
pub fn next_line(text: &[u8], from: usize) -> Option<Line>
    requires { from ≤ length text.now }
    ensures none { IsNone result ↔ (lines_of (drop from text.now) ≡ []) }
    ensures line { IfSome result (λ l.
        lines_of (drop from text.now)
        ≡ slice_range text.now l.start l.end ∷ lines_of (drop l.next text.now)) }
    ensures start { IfSome result (λ l. l.start ≡ from) }
    ensures order { IfSome result (λ l. (l.start ≤ l.end) × (l.end ≤ l.next)) }
    ensures forward { IfSome result (λ l. from < l.next) }
    ensures within { IfSome result (λ l. l.next ≤ length text.now) }
{
    match line_feed(&text[from..]) {
        Some(place) => {
            let end = from + place;
            Some(Line {
                start: from,
                end: line_end(text, from, end),
                next: end + 1,
            })
        }
        None => {
            let end = line_end(text, from, text.len());
            if end == from {
                None
            } else {
                Some(Line {
                    start: from,
                    end,
                    next: text.len(),
                })
            }
        }
    }
}

/// The place of the first LF.
fn line_feed(text: &[u8]) -> Option<usize>
    ensures { result ≡ position (λ byte. byte == 10) text.now }
{
    text.iter().position(|byte| *byte == b'\n')
}

/// Where a line ends that begins at `from`, and whose bytes with its CR end before `end`.
fn line_end(text: &[u8], from: usize, end: usize) -> usize
    requires order { from ≤ end }
    requires within { end ≤ length text.now }
    ensures value { slice_range text.now from result ≡ without_last_cr (slice_range text.now from end) }
    ensures not_before { from ≤ result }
    ensures not_behind { result ≤ end }
{
    if from < end && text[end - 1] == b'\r' {
        end - 1
    } else {
        end
    }
}

/// How many lines `text` has.
pub fn count_lines(text: &[u8]) -> u32
    requires { length text.now < 2 ^ 32 }
    ensures { result ≡ length (lines_of text.now) }
{
    let mut count = 0;
    let mut from = 0;
    while let Some(line) = next_line(text, from) {
        count += 1;
        from = line.next;
    }
    count
}
