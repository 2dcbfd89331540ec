//! Origin forms, which no command computes with. The expected values were computed apart from this code.
use mi_form::{
    Form, Pair, Why, add, address, code as tag, equal, invert, less, mask, scale, sub, value_at,
};

const SIZE: u32 = 65_536;

const MINUS_ONE: u64 = 0xf_ffff_ffff_ffff;

fn is_form(x: Form, a: u64, b: u64, c: u64) -> bool {
    x.a == a && x.b == b && x.c == c
}

fn data(c: u64) -> Form {
    Form { a: 1, b: 0, c }
}

fn code(c: u64) -> Form {
    Form { a: 0, b: 1, c }
}

#[test]
fn sums_are_part_by_part(rt: HostRuntime) {
    assert!(rt; is_form(add(code(1904), data(0x1_0000)), 1, 1, 0x1_0770));
    assert!(rt; is_form(sub(data(5), code(7)), 1, MINUS_ONE, 0xffff_ffff_ffff_fffe));
}

#[test]
fn products_are_part_by_part(rt: HostRuntime) {
    assert!(rt; is_form(scale(data(3), 5), 5, 0, 15));
    assert!(rt; is_form(invert(data(0)), MINUS_ONE, 0, 0xffff_ffff_ffff_ffff));
}

#[test]
fn a_form_has_a_value_at_a_pair(rt: HostRuntime) {
    let pair = Pair {
        d: 0x1_0000_0000,
        k: 0x4000_0000_0000,
    };
    assert!(rt; value_at(Form { a: 1, b: 1, c: 7 }, pair) == 0x4001_0000_0007);
}

#[test]
fn low_bits_are_the_same_at_every_pair(rt: HostRuntime) {
    assert!(rt; mask(data(4664), 4095).is_ok_and(|x| is_form(x, 0, 0, 568)));
    assert!(rt; mask(data(4664), 4096) == Err(Why::Mask));
}

#[test]
fn comparisons_hold_at_every_pair(rt: HostRuntime) {
    assert!(rt; equal(data(8), data(8), SIZE) == Ok(true));
    assert!(rt; less(data(0x1_0000), code(0), SIZE) == Ok(true));
    assert!(rt; less(data(0x1_0001), data(0), SIZE) == Err(Why::Far));
}

/// The number is the least data base.
#[test]
fn a_comparison_names_the_pairs_that_decide_it(rt: HostRuntime) {
    let number = Form {
        a: 0,
        b: 0,
        c: 0x1_0000_0000,
    };
    match equal(data(0), number, SIZE) {
        Err(Why::Undecided { first, second }) => {
            assert!(rt; first.d == 0x1_0000_0000 && second.d == 0x3fff_0000_0000);
        }
        _ => panic!(rt; "decided"),
    }
}

#[test]
fn addresses_are_known_by_their_bases(rt: HostRuntime) {
    assert!(rt; address(data(0x1_0000), SIZE) == Ok(Some(65_536)));
    assert!(rt; address(data(0x1_0001), SIZE) == Ok(None));
    assert!(rt; tag(code(1904), SIZE) == Ok(Some(119)));
    assert!(rt; tag(code(1920), SIZE) == Ok(None));
}
