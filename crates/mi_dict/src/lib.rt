//! The dictionary: the space that words are compiled to, the headers of words, the names in the source, and the lookup
//! of names.
#![tactic(auto)]

mod headers;
mod lookup;
mod order;
mod parsing;
mod restoring;
mod space;

pub use headers::{
    header_place, lay_header, lay_header_with_cell, nameless_place, write_hidden_header,
    write_nameless_header,
};
pub use lookup::{find, find_text, search_wordlist};
pub use mi_model::{Effect, HeaderPlace, Span, Word};
pub use order::{get_order, set_order};
pub use parsing::{parse_escaped, parse_name, parse_until, parse_word};
pub use restoring::restore;
pub use space::{compile_cell, compile_literal, compile_literal_and, here, room, token_of};
