//! The allowed pairs, and what a form stands for at a pair.
ghost use Rattle.std.specs.Prelude.{◌≡◌, IsTrue, ◌↔◌};
ghost use Rattle.mi_model.specs.Pairs.{IsAllowedPair};
ghost use Rattle.mi_model.specs.Forms.{value_at as value_of};
ghost use Rattle.mi_model.specs.Origin.{is_data_base as data_base, is_code_base as code_base};

use crate::GRID;
use mi_model::{Form, Pair};

/// The least data base, 2^32.
pub(crate) const DATA_LEAST: u64 = 0x1_0000_0000;

/// The greatest data base, 2^46 - 2^32.
pub(crate) const DATA_MOST: u64 = 0x3fff_0000_0000;

/// The least code base, 2^46.
pub(crate) const CODE_LEAST: u64 = 0x4000_0000_0000;

/// The greatest code base, 2^47 - 2^32.
pub(crate) const CODE_MOST: u64 = 0x7fff_0000_0000;

/// Whether an image may stand at this pair.
pub fn is_allowed(pair: Pair) -> bool
    ensures { IsTrue result ↔ IsAllowedPair pair }
{
    is_data_base(pair.d) && is_code_base(pair.k)
}

/// Whether the data may stand there in an allowed pair.
pub(crate) fn is_data_base(d: u64) -> bool
    ensures { result ≡ data_base d }
{
    DATA_LEAST <= d && d <= DATA_MOST && d % GRID == 0
}

/// Whether the code may stand there in an allowed pair.
pub(crate) fn is_code_base(k: u64) -> bool
    ensures { result ≡ code_base k }
{
    CODE_LEAST <= k && k <= CODE_MOST && k % GRID == 0
}

/// The value of a form at a pair, modulo 2^64.
pub fn value_at(form: Form, pair: Pair) -> u64
    ensures { result ≡ value_of form pair }
{
    let data = form.a.wrapping_mul(pair.d);
    let code = form.b.wrapping_mul(pair.k);
    data.wrapping_add(code).wrapping_add(form.c)
}
