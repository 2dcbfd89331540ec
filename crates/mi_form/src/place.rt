//! What a form says as an address.
ghost use Rattle.std.specs.Prelude.{◌≡◌};
ghost use Rattle.mi_model.specs.Plain.{plain_place, plain_tag};
ghost use Rattle.mi_model.specs.Forms.{value_at, IsSize, Tells};
ghost use Rattle.mi_model.specs.Origin.{place_of, place_of_plain, tag_of, tag_of_plain, tag_at as tag_at_offset};

use crate::GRID;
use crate::compare::undecided;
use crate::pair::{CODE_LEAST, CODE_MOST, DATA_LEAST, DATA_MOST};
use crate::sort::{CODE_BOUND, is_plain};
use mi_model::{Form, Why};

/// The offset of an address in a region of `size` bytes, from 0 to its size; `None` where the form is no such address.
///
/// The answer is the same at every allowed pair. A plain number may be an address at one pair and none at another; that
/// is `Undecided` with two such pairs. It is `Far` where the form is no plain number, no address behind the region's
/// beginning and none near the code table.
pub fn address(x: Form, size: u32) -> Result<Option<u32>, Why>
    ensures result { result ≡ place_of size x }
    ensures told { IsSize size → Tells (λ pair. plain_place pair size (value_at x pair)) result }
{
    if is_plain(x) {
        address_of_number(x.c, size)
    } else if x.a == 1 && x.b == 0 {
        Ok(if x.c <= u64::from(size) {
            Some(x.c as u32)
        } else {
            None
        })
    } else if x.a == 0 && x.b == 1 && x.c < CODE_BOUND {
        Ok(None)
    } else {
        Err(Why::Far)
    }
}

/// The offset of a number as an address.
fn address_of_number(n: u64, size: u32) -> Result<Option<u32>, Why>
    ensures { result ≡ place_of_plain size n }
{
    let size = u64::from(size);
    if n < DATA_LEAST || n > DATA_MOST + size {
        return Ok(None);
    }
    let base = (n - n % GRID).min(DATA_MOST);
    let other = if n - DATA_LEAST > size {
        DATA_LEAST
    } else {
        DATA_MOST
    };
    undecided(base, CODE_LEAST, other, CODE_LEAST)
}

/// The tag whose code stands at an address; `None` where the form is no such address, in a region of `size` bytes.
///
/// The answer is the same at every allowed pair. A plain number may be such an address at one pair and none at another;
/// that is `Undecided` with two such pairs. It is `Far` where the form is no plain number, no address behind the code
/// base and none in the region.
pub fn code(x: Form, size: u32) -> Result<Option<u8>, Why>
    ensures result { result ≡ tag_of size x }
    ensures told { IsSize size → Tells (λ pair. plain_tag pair (value_at x pair)) result }
{
    if is_plain(x) {
        code_of_number(x.c)
    } else if x.a == 0 && x.b == 1 {
        Ok(tag_at(x.c))
    } else if x.a == 1 && x.b == 0 && x.c <= u64::from(size) {
        Ok(None)
    } else {
        Err(Why::Far)
    }
}

/// The tag whose code stands at an offset of the code table.
fn tag_at(offset: u64) -> Option<u8>
    ensures { result ≡ tag_at_offset offset }
{
    if offset < 1920 && offset % 16 == 0 {
        Some((offset / 16) as u8)
    } else {
        None
    }
}

/// The tag whose code stands at a number.
fn code_of_number(n: u64) -> Result<Option<u8>, Why>
    ensures { result ≡ tag_of_plain n }
{
    let base = (n - n % GRID).min(CODE_MOST);
    let offset = n - base;
    if n >= CODE_LEAST && offset < 1920 && offset % 16 == 0 {
        let other = if n - CODE_LEAST < 1920 {
            CODE_MOST
        } else {
            CODE_LEAST
        };
        undecided(DATA_LEAST, base, DATA_LEAST, other)
    } else {
        Ok(None)
    }
}
