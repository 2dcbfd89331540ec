//! The table of the kernel's words, asked by name.
use mi_vocab::{TAGS, row, tag_of};

#[test]
fn words_are_found_by_name(rt: HostRuntime) {
    assert!(rt; tag_of(b"bye") == Some(0));
    assert!(rt; tag_of(b"IS") == Some(119));
    assert!(rt; tag_of(b"FOO").is_none());
}

#[test]
fn rows_end_with_the_last_tag(rt: HostRuntime) {
    assert!(rt; row(TAGS - 1).is_some());
    assert!(rt; row(TAGS).is_none());
}
