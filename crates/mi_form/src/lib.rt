//! Origin forms: what arithmetic and comparison can say about a form at every allowed pair, or why not.
#![tactic(auto)]

mod bits;
mod compare;
mod laws;
mod pair;
mod place;
mod ring;
mod sort;

pub use bits::{mask, or_low, xor_low};
pub use compare::{equal, less, less_unsigned};
pub use laws::{
    forms_stand_for_numbers, origins_come_back, refused_operations_are_met, values_tell_forms_apart,
};
pub use mi_model::{Form, GRID, Pair, WRAP, Why};
pub use pair::{is_allowed, value_at};
pub use place::{address, code};
pub use ring::{add, invert, negate, scale, sub};
