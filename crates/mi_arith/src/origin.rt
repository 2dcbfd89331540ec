//! Cells that know the bases they are made of.
use crate::Arith;
use crate::forms::{
    and, count, floored_quotient, half, low_byte, lshift, number, or, product, rshift,
    symmetric_quotient, times, unsigned_quotient, with, xor,
};
use crate::parts::{cut, join, value};
use mi_model::{DivFault, Eight, Form, OriginByte, Refusal};

/// Cells that know the bases they are made of, for a region of `size` bytes. It covers every allowed pair, where a
/// region may have that size. An operation whose answer isn't the same form at all of them, or of which that isn't known,
/// is refused.
#[derive(Clone, Copy, Debug, Drop)]
pub struct Origin {
    pub size: u32,
}

#[tactic(auto, unfolding(mi_model::specs::OriginOps::origin_ops))]
impl Arith for Origin {
    ghost use Rattle.std.specs.Prelude.{◌≡◌, ℕ, false};
    ghost use Rattle.mi_model.specs.Ops.{Ops};
    ghost use Rattle.mi_model.specs.declared.Pair.{Pair};
    ghost use Rattle.mi_model.specs.Pairs.{IsAllowedPair};
    ghost use Rattle.mi_model.specs.Forms.{IsSize};
    ghost use Rattle.mi_model.specs.Stands.{Simulates};
    ghost use Rattle.mi_model.specs.OriginOps.{origin_ops, FormStands, ByteStands};
    ghost use Rattle.mi_form.proofs.Stand.{origin_stands};
    ghost use Rattle.mi_arith.specs.OriginLaw.{origin_keeps_offsets};

    type Cell = Form;

    type Byte = OriginByte;

    const GROWS: bool = false;

    ghost GROWS = { false };

    ghost size = { λ a. a.size };

    ghost ops = { λ a. origin_ops a.size };

    ghost covers = { λ a pair. IsSize a.size × IsAllowedPair pair };

    ghost stands = { λ _ x pair n. FormStands pair x n };

    ghost byte_stands = { λ _ b pair n. ByteStands pair b n };

    fn plain(&self, n: u64) -> Form {
        number(n)
    }

    fn region_cell(&self, offset: u64) -> Form {
        Form {
            a: 1,
            b: 0,
            c: offset,
        }
    }

    fn code_cell(&self, tag: u8) -> Form {
        Form {
            a: 0,
            b: 1,
            c: 16 * tag as u64,
        }
    }

    fn add(&self, x: Form, y: Form) -> Result<Form, Refusal> {
        Ok(mi_form::add(x, y))
    }

    fn sub(&self, x: Form, y: Form) -> Result<Form, Refusal> {
        Ok(mi_form::sub(x, y))
    }

    fn mul(&self, x: Form, y: Form) -> Result<Form, Refusal> {
        with(x, y, times(x, y))
    }

    fn and(&self, x: Form, y: Form) -> Result<Form, Refusal> {
        with(x, y, and(x, y))
    }

    fn or(&self, x: Form, y: Form) -> Result<Form, Refusal> {
        with(x, y, or(x, y))
    }

    fn xor(&self, x: Form, y: Form) -> Result<Form, Refusal> {
        with(x, y, xor(x, y))
    }

    fn lshift(&self, x: Form, y: Form) -> Result<Form, Refusal> {
        with(x, y, lshift(x, y))
    }

    fn rshift(&self, x: Form, y: Form) -> Result<Form, Refusal> {
        with(x, y, rshift(x, y))
    }

    fn negate(&self, x: Form) -> Result<Form, Refusal> {
        Ok(mi_form::negate(x))
    }

    fn invert(&self, x: Form) -> Result<Form, Refusal> {
        Ok(mi_form::invert(x))
    }

    fn half(&self, x: Form) -> Result<Form, Refusal> {
        with(x, number(0), half(x))
    }

    fn um_mul(&self, x: Form, y: Form) -> Result<(Form, Form), Refusal> {
        with(x, y, product(x, y))
    }

    fn um_div(
        &self,
        low: Form,
        high: Form,
        by: Form,
    ) -> Result<Result<(Form, Form), DivFault>, Refusal> {
        with(low, by, unsigned_quotient(low, high, by))
    }

    fn sm_div(
        &self,
        low: Form,
        high: Form,
        by: Form,
    ) -> Result<Result<(Form, Form), DivFault>, Refusal> {
        with(low, by, symmetric_quotient(low, high, by))
    }

    fn fm_div(
        &self,
        low: Form,
        high: Form,
        by: Form,
    ) -> Result<Result<(Form, Form), DivFault>, Refusal> {
        with(low, by, floored_quotient(low, high, by))
    }

    fn equal(&self, x: Form, y: Form) -> Result<bool, Refusal> {
        with(x, y, mi_form::equal(x, y, self.size))
    }

    fn less(&self, x: Form, y: Form) -> Result<bool, Refusal> {
        with(x, y, mi_form::less(x, y, self.size))
    }

    fn below(&self, x: Form, y: Form) -> Result<bool, Refusal> {
        with(x, y, mi_form::less_unsigned(x, y, self.size))
    }

    fn place(&self, x: Form) -> Result<Option<u32>, Refusal> {
        with(x, number(0), mi_form::address(x, self.size))
    }

    fn tag(&self, x: Form) -> Result<Option<u8>, Refusal> {
        with(x, number(0), mi_form::code(x, self.size))
    }

    fn number(&self, x: Form) -> Result<u64, Refusal> {
        with(x, number(0), count(x))
    }

    fn byte(&self, b: u8) -> OriginByte {
        OriginByte::Plain(b)
    }

    fn cut(&self, x: Form, i: u8) -> OriginByte {
        cut(x, i)
    }

    fn join(&self, b: Eight<OriginByte>) -> Result<Form, Refusal>
        ensures { result ≡ (origin_ops self.now.size).join b }
    {
        with(number(0), number(0), join(b))
    }

    fn value(&self, b: OriginByte) -> Result<u8, Refusal> {
        value(b)
    }

    fn low_byte(&self, x: Form) -> Result<u8, Refusal> {
        with(x, number(0), low_byte(x))
    }

    ghost simulates = { λ a pair covered. origin_stands a.size pair covered.0 covered.1 };

    ghost offsets = { λ a small. origin_keeps_offsets a.size small };
}
