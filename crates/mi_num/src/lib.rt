//! The digits of number texts, the double product, and the divisions of doubles.
#![tactic(auto)]

mod digits;
mod division;

pub use digits::digit;
pub use division::{fm_div, sm_div, um_div, um_mul};
pub use mi_model::DivFault;
