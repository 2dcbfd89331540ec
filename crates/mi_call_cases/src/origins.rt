//! The arithmetic of origin forms, which no command computes with.
use mi_arith::{Arith, Form, Origin, Refusal, Why};

const ORIGIN: Origin = Origin { size: 65_536 };

fn refused<T>(first: Form, second: Form, why: Why) -> Result<T, Refusal> {
    Err(Refusal { first, second, why })
}

#[test]
fn forms_are_added_and_masked(rt: HostRuntime) {
    let there = ORIGIN.region_cell(100);
    assert!(rt; ORIGIN.add(there, ORIGIN.plain(2)) == Ok(ORIGIN.region_cell(102)));
    assert!(rt; ORIGIN.and(ORIGIN.plain(7), there) == Ok(ORIGIN.plain(4)));
    assert!(rt; ORIGIN.place(there) == Ok(Some(100)));
    assert!(rt; ORIGIN.tag(ORIGIN.code_cell(119)) == Ok(Some(119)));
}

#[test]
fn what_bases_change_is_refused(rt: HostRuntime) {
    let there = ORIGIN.region_cell(100);
    let two = ORIGIN.plain(2);
    let none = ORIGIN.plain(0);
    assert!(rt; ORIGIN.mul(there, there) == refused(there, there, Why::Multiply));
    assert!(rt; ORIGIN.rshift(there, two) == refused(there, two, Why::Shift));
    assert!(rt; ORIGIN.fm_div(two, there, two) == refused(two, two, Why::Divide));
    assert!(rt; ORIGIN.number(there) == refused(there, none, Why::Count));
}

#[test]
fn only_the_low_byte_of_an_address_is_known(rt: HostRuntime) {
    let there = ORIGIN.region_cell(300);
    let none = ORIGIN.plain(0);
    assert!(rt; ORIGIN.low_byte(there) == Ok(44));
    assert!(rt; ORIGIN.value(ORIGIN.cut(there, 0)) == Ok(44));
    assert!(rt; ORIGIN.value(ORIGIN.cut(there, 1)) == refused(there, none, Why::Byte));
}
