//! The words of the kernel that are no colon definitions: each has a tag, a name and flags.
ghost use Rattle.std.specs.Prelude.{◌≡◌, ◌<◌, ◌≤◌, None, Some, length};
ghost use Rattle.mi_model.specs.Tags.{entry_of, name_of};
ghost use Rattle.mi_model.specs.Kernel.{flags_of, whole_kernel};
ghost use Rattle.mi_vocab.specs.Rows.{row_of};

use crate::layout::{COMPILE_ONLY, IMMEDIATE, TAGS};

/// What the header of a tag says of its word.
#[derive(Clone, Copy, Debug, PartialEq, Eq, Drop)]
pub struct TagRow {
    /// The tag, below 120.
    pub tag: u8,
    pub immediate: bool,
    pub compile_only: bool,
    /// The length of the name in bytes, from 1 to 31.
    pub length: u8,
}

/// The row of a tag, or `None` where no word has the tag: from 120 on.
pub fn row(tag: u8) -> Option<TagRow>
    ensures word { tag < 120 → result ≡ Some (row_of tag) }
    ensures no_word { 120 ≤ tag → result ≡ None }
{
    if tag < TAGS {
        Some(TagRow {
            tag,
            immediate: is_immediate(tag),
            compile_only: is_compile_only(tag),
            length: name(tag).len() as u8,
        })
    } else {
        None
    }
}

/// The name of a tag's word.
pub fn name(tag: u8) -> &'static [u8]
    requires { tag < 120 }
    ensures name { result.now ≡ name_of tag }
    ensures short { length result.now ≤ 31 }
    ensures some { 0 < length result.now }
{
    match tag / 30 {
        0 => name_below_30(tag),
        1 => name_from_30(tag),
        2 => name_from_60(tag),
        _ => name_from_90(tag),
    }
}

/// The flags cell of a tag's header: the length of the name, and the flags of the word.
pub fn header_flags(tag: u8) -> u64
    requires { tag < 120 }
    ensures { result ≡ flags_of whole_kernel tag }
{
    let mut flags = name(tag).len() as u64;
    if is_immediate(tag) {
        flags += IMMEDIATE;
    }
    if is_compile_only(tag) {
        flags += COMPILE_ONLY;
    }
    flags
}

/// Is a tag's word immediate.
pub fn is_immediate(tag: u8) -> bool
    ensures { result ≡ (entry_of tag).immediate }
{
    matches!(tag, 91 | 94..=97 | 99..=119)
}

/// Is a tag's word compile-only.
pub fn is_compile_only(tag: u8) -> bool
    ensures { result ≡ (entry_of tag).compile_only }
{
    matches!(tag, 1..=20 | 22 | 36..=41 | 79 | 85 | 91 | 94..=115)
}

#[tactic(auto, unfolding(mi_model::specs::Tags::tag_table))]
fn name_below_30(tag: u8) -> &'static [u8]
    requires { tag < 30 }
    ensures name { result.now ≡ name_of tag }
    ensures short { length result.now ≤ 31 }
    ensures some { 0 < length result.now }
{
    match tag {
        0 => b"BYE",
        1 => b"(DOCOL)",
        2 => b"(DOVAR)",
        3 => b"(DOCON)",
        4 => b"(DOVALUE)",
        5 => b"(DODEFER)",
        6 => b"(DODOES)",
        7 => b"(DOMARKER)",
        8 => b"EXIT",
        9 => b"(LIT)",
        10 => b"(BRANCH)",
        11 => b"(0BRANCH)",
        12 => b"(DO)",
        13 => b"(?DO)",
        14 => b"(LOOP)",
        15 => b"(+LOOP)",
        16 => b"UNLOOP",
        17 => b"I",
        18 => b"J",
        19 => b"(S\")",
        20 => b"(INTERPRET)",
        21 => b"EXECUTE",
        22 => b"(THROW)",
        23 => b"QUIT",
        24 => b"EVALUATE",
        25 => b"REFILL",
        26 => b"ACCEPT",
        27 => b"EMIT",
        28 => b"DUP",
        _ => b"DROP",
    }
}

#[tactic(auto, unfolding(mi_model::specs::Tags::tag_table))]
fn name_from_30(tag: u8) -> &'static [u8]
    requires from { 30 ≤ tag }
    requires below { tag < 60 }
    ensures name { result.now ≡ name_of tag }
    ensures short { length result.now ≤ 31 }
    ensures some { 0 < length result.now }
{
    match tag {
        30 => b"SWAP",
        31 => b"OVER",
        32 => b"ROT",
        33 => b"PICK",
        34 => b"ROLL",
        35 => b"DEPTH",
        36 => b">R",
        37 => b"R>",
        38 => b"R@",
        39 => b"2>R",
        40 => b"2R>",
        41 => b"2R@",
        42 => b"+",
        43 => b"-",
        44 => b"*",
        45 => b"NEGATE",
        46 => b"INVERT",
        47 => b"AND",
        48 => b"OR",
        49 => b"XOR",
        50 => b"LSHIFT",
        51 => b"RSHIFT",
        52 => b"2/",
        53 => b"UM*",
        54 => b"UM/MOD",
        55 => b"SM/REM",
        56 => b"FM/MOD",
        57 => b"=",
        58 => b"<",
        _ => b"U<",
    }
}

#[tactic(auto, unfolding(mi_model::specs::Tags::tag_table))]
fn name_from_60(tag: u8) -> &'static [u8]
    requires from { 60 ≤ tag }
    requires below { tag < 90 }
    ensures name { result.now ≡ name_of tag }
    ensures short { length result.now ≤ 31 }
    ensures some { 0 < length result.now }
{
    match tag {
        60 => b"0=",
        61 => b"0<",
        62 => b"@",
        63 => b"!",
        64 => b"C@",
        65 => b"C!",
        66 => b"MOVE",
        67 => b"FILL",
        68 => b"REGION",
        69 => b"HERE",
        70 => b"ALLOT",
        71 => b",",
        72 => b"C,",
        73 => b"ALIGN",
        74 => b"UNUSED",
        75 => b"PARSE",
        76 => b"PARSE-NAME",
        77 => b"WORD",
        78 => b">NUMBER",
        79 => b"(FIND)",
        80 => b"SEARCH-WORDLIST",
        81 => b"GET-ORDER",
        82 => b"SET-ORDER",
        83 => b"'",
        84 => b">BODY",
        85 => b"(HEADER)",
        86 => b"CREATE",
        87 => b"CONSTANT",
        88 => b"VARIABLE",
        _ => b":",
    }
}

#[tactic(auto, unfolding(mi_model::specs::Tags::tag_table))]
fn name_from_90(tag: u8) -> &'static [u8]
    requires from { 90 ≤ tag }
    requires below { tag < 120 }
    ensures name { result.now ≡ name_of tag }
    ensures short { length result.now ≤ 31 }
    ensures some { 0 < length result.now }
{
    match tag {
        90 => b":NONAME",
        91 => b";",
        92 => b"IMMEDIATE",
        93 => b"COMPILE-ONLY",
        94 => b"RECURSE",
        95 => b"LITERAL",
        96 => b"POSTPONE",
        97 => b"DOES>",
        98 => b"(DOES)",
        99 => b"IF",
        100 => b"ELSE",
        101 => b"THEN",
        102 => b"BEGIN",
        103 => b"AGAIN",
        104 => b"UNTIL",
        105 => b"WHILE",
        106 => b"REPEAT",
        107 => b"DO",
        108 => b"?DO",
        109 => b"LOOP",
        110 => b"+LOOP",
        111 => b"LEAVE",
        112 => b"CASE",
        113 => b"OF",
        114 => b"ENDOF",
        115 => b"ENDCASE",
        116 => b"S\"",
        117 => b"S\\\"",
        118 => b"TO",
        _ => b"IS",
    }
}
