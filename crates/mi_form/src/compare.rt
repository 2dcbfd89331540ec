//! Comparisons of forms.
ghost use Rattle.std.specs.Prelude.{◌≡◌, ◌+◌};
ghost use Rattle.mi_model.specs.Ops.Test.{Equal, Less, Below};
ghost use Rattle.mi_model.specs.Plain.{plain_test, wrapped};
ghost use Rattle.mi_model.specs.Forms.{value_at, IsSize, Tells};
ghost use Rattle.mi_form.specs.Code.{meant, test_of};
ghost use Rattle.mi_model.specs.Origin.{equal_of, equal_sorts as equal_sorts_of, equal_data as equal_data_of, equal_code as equal_code_of, less_of, less_sorts as less_sorts_of, at_ends as at_ends_of, undecided as undecided_at};

use crate::GRID;
use crate::pair::{CODE_LEAST, CODE_MOST, DATA_LEAST, DATA_MOST, is_code_base, is_data_base};
use crate::sort::{Sort, classify};
use mi_model::{Form, Pair, Why};

/// The order of numbers.
#[derive(Clone, Copy)]
enum Order {
    Signed,
    Unsigned,
}

/// Whether two forms have equal values, in a region of `size` bytes.
///
/// The answer is the same at every allowed pair. Where it differs from pair to pair, that is `Undecided` with two such
/// pairs. It is `Far` where the forms are no plain number, no address in the region and none near the code table, and
/// neither their difference nor their low bits decide it.
pub fn equal(x: Form, y: Form, size: u32) -> Result<bool, Why>
    ensures result { result ≡ equal_of size x y }
    ensures told { IsSize size → Tells (λ pair. plain_test Equal (value_at x pair) (value_at y pair)) result }
{
    if x.a == y.a && x.b == y.b {
        Ok(x.c == y.c)
    } else if x.c % GRID == y.c % GRID {
        equal_sorts(classify(x, size), classify(y, size))
    } else {
        Ok(false)
    }
}

/// Whether two forms with different bases and the same low bits have equal values.
fn equal_sorts(x: Sort, y: Sort) -> Result<bool, Why>
    ensures { result ≡ equal_sorts_of (meant x) (meant y) }
{
    match (x, y) {
        (Sort::Data(_), Sort::Code(_)) | (Sort::Code(_), Sort::Data(_)) => Ok(false),
        (Sort::Data(c), Sort::Plain(n)) | (Sort::Plain(n), Sort::Data(c)) => equal_data(c, n),
        (Sort::Code(c), Sort::Plain(n)) | (Sort::Plain(n), Sort::Code(c)) => equal_code(c, n),
        _ => Err(Why::Far),
    }
}

/// Whether an address in the region, with its c, is the number `n`.
fn equal_data(c: u64, n: u64) -> Result<bool, Why>
    ensures { result ≡ equal_data_of c n }
{
    let d = n.saturating_sub(c);
    if is_data_base(d) {
        let other = if d == DATA_LEAST {
            DATA_MOST
        } else {
            DATA_LEAST
        };
        undecided(d, CODE_LEAST, other, CODE_LEAST)
    } else {
        Ok(false)
    }
}

/// Whether an address near the code table, with its c, is the number `n`.
fn equal_code(c: u64, n: u64) -> Result<bool, Why>
    ensures { result ≡ equal_code_of c n }
{
    let k = n.saturating_sub(c);
    if is_code_base(k) {
        let other = if k == CODE_LEAST {
            CODE_MOST
        } else {
            CODE_LEAST
        };
        undecided(DATA_LEAST, k, DATA_LEAST, other)
    } else {
        Ok(false)
    }
}

/// Whether the value of `x` is less than that of `y`, as signed numbers, in a region of `size` bytes.
///
/// The answer is the same at every allowed pair. Where it differs from pair to pair, that is `Undecided` with two such
/// pairs. It is `Far` where a form is no plain number, no address in the region and none near the code table.
pub fn less(x: Form, y: Form, size: u32) -> Result<bool, Why>
    ensures result { result ≡ less_of Less size x y }
    ensures told { IsSize size → Tells (λ pair. plain_test Less (value_at x pair) (value_at y pair)) result }
{
    less_sorts(Order::Signed, classify(x, size), classify(y, size))
}

/// As `less`, of unsigned numbers.
pub fn less_unsigned(x: Form, y: Form, size: u32) -> Result<bool, Why>
    ensures result { result ≡ less_of Below size x y }
    ensures told { IsSize size → Tells (λ pair. plain_test Below (value_at x pair) (value_at y pair)) result }
{
    less_sorts(Order::Unsigned, classify(x, size), classify(y, size))
}

/// Whether a form is less than another, in this order.
fn less_sorts(order: Order, x: Sort, y: Sort) -> Result<bool, Why>
    ensures { result ≡ less_sorts_of (test_of order) (meant x) (meant y) }
{
    match (x, y) {
        (Sort::Plain(m), Sort::Plain(n)) => Ok(less_plain(order, m, n)),
        (Sort::Data(c), Sort::Data(d)) | (Sort::Code(c), Sort::Code(d)) => Ok(c < d),
        (Sort::Data(_), Sort::Code(_)) => Ok(true),
        (Sort::Code(_), Sort::Data(_)) => Ok(false),
        (Sort::Data(c), Sort::Plain(n)) => less_than_number(order, DATA_LEAST, DATA_MOST, c, n),
        (Sort::Code(c), Sort::Plain(n)) => less_than_number(order, CODE_LEAST, CODE_MOST, c, n),
        (Sort::Plain(n), Sort::Data(c)) => number_is_less(order, n, DATA_LEAST, DATA_MOST, c),
        (Sort::Plain(n), Sort::Code(c)) => number_is_less(order, n, CODE_LEAST, CODE_MOST, c),
        _ => Err(Why::Far),
    }
}

/// Whether the address at `c` behind a base, which is from `least` to `most`, is less than the number `n`.
fn less_than_number(order: Order, least: u64, most: u64, c: u64, n: u64) -> Result<bool, Why>
    ensures { result ≡ at_ends_of (plain_test (test_of order) (wrapped (least + c)) n) (plain_test (test_of order) (wrapped (most + c)) n) }
{
    at_ends(
        less_plain(order, least.wrapping_add(c), n),
        less_plain(order, most.wrapping_add(c), n),
    )
}

/// Whether the number `n` is less than the address at `c` behind a base, which is from `least` to `most`.
fn number_is_less(order: Order, n: u64, least: u64, most: u64, c: u64) -> Result<bool, Why>
    ensures { result ≡ at_ends_of (plain_test (test_of order) n (wrapped (least + c))) (plain_test (test_of order) n (wrapped (most + c))) }
{
    at_ends(
        less_plain(order, n, least.wrapping_add(c)),
        less_plain(order, n, most.wrapping_add(c)),
    )
}

/// Whether one number is less than another.
fn less_plain(order: Order, x: u64, y: u64) -> bool
    ensures { result ≡ plain_test (test_of order) x y }
{
    match order {
        Order::Signed => x.wrapping_add(1 << 63) < y.wrapping_add(1 << 63),
        Order::Unsigned => x < y,
    }
}

/// An answer that is one thing at the least bases and one at the greatest.
fn at_ends(least: bool, most: bool) -> Result<bool, Why>
    ensures { result ≡ at_ends_of least most }
{
    if least == most {
        Ok(least)
    } else {
        undecided(DATA_LEAST, CODE_LEAST, DATA_MOST, CODE_MOST)
    }
}

/// The answers at these two pairs differ.
pub(crate) fn undecided<A>(d: u64, k: u64, other_d: u64, other_k: u64) -> Result<A, Why>
    ensures { result ≡ undecided_at d k other_d other_k }
{
    Err(Why::Undecided {
        first: Pair { d, k },
        second: Pair {
            d: other_d,
            k: other_k,
        },
    })
}
