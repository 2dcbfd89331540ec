//! Bytes that know the form they are cut from.
ghost use Rattle.std.specs.Prelude.{◌≡◌, ◌<◌, cond, None, Some};
ghost use Rattle.std.specs.Int.{w64, from_le_bytes};
ghost use Rattle.mi_model.specs.Plain.{listed};
ghost use Rattle.mi_model.specs.OriginOps.{cut_of, value_of, is_form, is_part as is_part_of, are_plain as are_plain_bytes, are_parts as are_parts_of, plain_numbers, joined};

use crate::forms::{is_plain, number, with};
use mi_model::{Eight, Form, GRID, OriginByte, Refusal, Why};

/// Byte i of a form.
pub(crate) fn cut(x: Form, i: u8) -> OriginByte
    requires { i < 8 }
    ensures { result ≡ cut_of x i }
{
    if is_plain(x) {
        OriginByte::Plain(x.c.to_le_bytes()[i as usize])
    } else {
        OriginByte::Part { form: x, index: i }
    }
}

/// The number of a byte: a plain one's, or that of the lowest of a form, which no base changes.
pub(crate) fn value(b: OriginByte) -> Result<u8, Refusal>
    ensures { result ≡ value_of b }
{
    match b {
        OriginByte::Plain(n) => Ok(n),
        OriginByte::Part { form, index } => with(
            form,
            number(0),
            if index == 0 && GRID % 256 == 0 {
                Ok((form.c % 256) as u8)
            } else {
                Err(Why::Byte)
            },
        ),
    }
}

/// Whether it is this byte of the form.
fn is_part(form: Form, i: u8, b: OriginByte) -> bool
    ensures { result ≡ is_part_of form i b }
{
    match b {
        OriginByte::Plain(_) => false,
        OriginByte::Part { form: other, index } => form == other && i == index,
    }
}

/// Whether they are the bytes of the form, the lowest first.
fn are_parts(form: Form, b: Eight<OriginByte>) -> bool
    ensures { result ≡ are_parts_of form b }
{
    is_part(form, 0, b.b0)
        && is_part(form, 1, b.b1)
        && is_part(form, 2, b.b2)
        && is_part(form, 3, b.b3)
        && is_part(form, 4, b.b4)
        && is_part(form, 5, b.b5)
        && is_part(form, 6, b.b6)
        && is_part(form, 7, b.b7)
}

/// The number of eight plain bytes; None where one of them isn't plain.
fn plain_cell(b: Eight<OriginByte>) -> Option<u64>
    ensures { result ≡ cond (are_plain_bytes b) (Some (from_le_bytes w64 (listed (plain_numbers b)))) None }
{
    match (b.b0, b.b1, b.b2, b.b3, b.b4, b.b5, b.b6, b.b7) {
        (
            OriginByte::Plain(b0),
            OriginByte::Plain(b1),
            OriginByte::Plain(b2),
            OriginByte::Plain(b3),
            OriginByte::Plain(b4),
            OriginByte::Plain(b5),
            OriginByte::Plain(b6),
            OriginByte::Plain(b7),
        ) => Some(u64::from_le_bytes([b0, b1, b2, b3, b4, b5, b6, b7])),
        _ => None,
    }
}

/// The form of eight bytes: of plain ones a plain number, of all bytes of a form that form.
pub(crate) fn join(b: Eight<OriginByte>) -> Result<Form, Why>
    ensures { result ≡ joined b }
{
    match b.b0 {
        OriginByte::Plain(_) => match plain_cell(b) {
            Some(n) => Ok(number(n)),
            None => Err(Why::Byte),
        },
        OriginByte::Part { form, .. } => {
            if are_parts(form, b) {
                Ok(form)
            } else {
                Err(Why::Byte)
            }
        }
    }
}
