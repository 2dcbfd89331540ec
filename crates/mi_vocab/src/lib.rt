//! The layout of a region, the words of the kernel, and the texts of the throw codes.
#![tactic(auto)]

mod laws;
mod layout;
mod names;
mod tags;
mod throws;

pub use laws::layout_is_the_definition;
pub use layout::{
    BASE, BODY, BYE_AFTER_ENTRY, CODE, CODE_SIZE, COMPILE_ONLY, CURRENT, DEFAULT_SIZE,
    DEFAULT_TURNS, DICTIONARY, DP, ENTRY, FLAGS, FORTH_WORDLIST, HEADER_SIZE, HIDDEN, HLD,
    HOLD_BUFFER, HOLD_END, HOLD_LIMIT, IMMEDIATE, INPUT_LIMIT, INTERPRETER_LOOP, LATEST, LEAVES,
    LINE_BUFFER, LINE_LIMIT, LINK, NAME, NAME_LIMIT, ORDER, ORDER_COUNT, ORDER_LIMIT, PAD,
    PRELUDE_TURNS, SECOND, SIZE_LIMIT, SOURCE_ADDRESS, SOURCE_COUNT_LIMIT, SOURCE_LENGTH,
    SOURCE_LIMIT, SOURCE_NUMBER, STACK_LIMIT, STATE, STRING_BUFFER_FIRST, STRING_BUFFER_SECOND,
    STRING_LIMIT, STRING_TURN, TAGS, TO_IN, TURN_LIMIT, USER_DICTIONARY, VOC, WORD_BUFFER,
    WORD_LIMIT,
};
pub use names::{folded, tag_of};
pub use tags::{TagRow, header_flags, is_compile_only, is_immediate, name, row};
pub use throws::throw_text;
