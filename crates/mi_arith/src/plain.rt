//! Plain numbers at one base pair.
use crate::Arith;
use mi_model::{DivFault, Eight, Pair, Refusal};

/// Plain numbers at one base pair, for a region of `size` bytes. It covers that pair, and refuses nothing.
#[derive(Clone, Copy, Debug, Drop)]
pub struct Plain {
    pub pair: Pair,
    pub size: u32,
}

#[tactic(auto, unfolding(mi_model::specs::Plain::plain_ops))]
impl Arith for Plain {
    ghost use Rattle.std.specs.Prelude.{◌≡◌, ℕ, false};
    ghost use Rattle.mi_model.specs.Ops.{Ops};
    ghost use Rattle.mi_model.specs.declared.Pair.{Pair};
    ghost use Rattle.mi_model.specs.Stands.{Simulates};
    ghost use Rattle.mi_model.specs.Plain.{plain_ops};
    ghost use Rattle.mi_arith.specs.PlainLaw.{plain_simulates, plain_keeps_offsets};

    type Cell = u64;

    type Byte = u8;

    const GROWS: bool = false;

    ghost GROWS = { false };

    ghost size = { λ a. a.size };

    ghost ops = { λ a. plain_ops a.pair a.size };

    ghost covers = { λ a pair. pair ≡ a.pair };

    ghost stands = { λ _ x _ n. x ≡ n };

    ghost byte_stands = { λ _ b _ n. b ≡ n };

    fn plain(&self, n: u64) -> u64 {
        n
    }

    fn region_cell(&self, offset: u64) -> u64 {
        self.pair.d.wrapping_add(offset)
    }

    fn code_cell(&self, tag: u8) -> u64 {
        self.pair.k.wrapping_add(16 * tag as u64)
    }

    fn add(&self, x: u64, y: u64) -> Result<u64, Refusal> {
        Ok(x.wrapping_add(y))
    }

    fn sub(&self, x: u64, y: u64) -> Result<u64, Refusal> {
        Ok(x.wrapping_sub(y))
    }

    fn mul(&self, x: u64, y: u64) -> Result<u64, Refusal> {
        Ok(x.wrapping_mul(y))
    }

    fn and(&self, x: u64, y: u64) -> Result<u64, Refusal> {
        Ok(x & y)
    }

    fn or(&self, x: u64, y: u64) -> Result<u64, Refusal> {
        Ok(x | y)
    }

    fn xor(&self, x: u64, y: u64) -> Result<u64, Refusal> {
        Ok(x ^ y)
    }

    fn lshift(&self, x: u64, y: u64) -> Result<u64, Refusal> {
        Ok(if y < 64 { x << y } else { 0 })
    }

    fn rshift(&self, x: u64, y: u64) -> Result<u64, Refusal> {
        Ok(if y < 64 { x >> y } else { 0 })
    }

    fn negate(&self, x: u64) -> Result<u64, Refusal> {
        Ok(0_u64.wrapping_sub(x))
    }

    fn invert(&self, x: u64) -> Result<u64, Refusal> {
        Ok(!x)
    }

    fn half(&self, x: u64) -> Result<u64, Refusal> {
        Ok(x / 2 + if x >= 1 << 63 { 1 << 63 } else { 0 })
    }

    fn um_mul(&self, x: u64, y: u64) -> Result<(u64, u64), Refusal> {
        Ok(mi_num::um_mul(x, y))
    }

    fn um_div(
        &self,
        low: u64,
        high: u64,
        by: u64,
    ) -> Result<Result<(u64, u64), DivFault>, Refusal> {
        Ok(mi_num::um_div(low, high, by))
    }

    fn sm_div(
        &self,
        low: u64,
        high: u64,
        by: u64,
    ) -> Result<Result<(u64, u64), DivFault>, Refusal> {
        Ok(mi_num::sm_div(low, high, by))
    }

    fn fm_div(
        &self,
        low: u64,
        high: u64,
        by: u64,
    ) -> Result<Result<(u64, u64), DivFault>, Refusal> {
        Ok(mi_num::fm_div(low, high, by))
    }

    fn equal(&self, x: u64, y: u64) -> Result<bool, Refusal> {
        Ok(x == y)
    }

    fn less(&self, x: u64, y: u64) -> Result<bool, Refusal> {
        Ok(x.wrapping_add(1 << 63) < y.wrapping_add(1 << 63))
    }

    fn below(&self, x: u64, y: u64) -> Result<bool, Refusal> {
        Ok(x < y)
    }

    fn place(&self, x: u64) -> Result<Option<u32>, Refusal> {
        Ok(match x.checked_sub(self.pair.d) {
            Some(o) if o <= self.size as u64 => Some(o as u32),
            _ => None,
        })
    }

    fn tag(&self, x: u64) -> Result<Option<u8>, Refusal> {
        let o = x.wrapping_sub(self.pair.k);
        Ok(if o < 1920 && o % 16 == 0 {
            Some((o / 16) as u8)
        } else {
            None
        })
    }

    fn number(&self, x: u64) -> Result<u64, Refusal> {
        Ok(x)
    }

    fn byte(&self, b: u8) -> u8 {
        b
    }

    fn cut(&self, x: u64, i: u8) -> u8 {
        x.to_le_bytes()[i as usize]
    }

    fn join(&self, b: Eight<u8>) -> Result<u64, Refusal>
        ensures { result ≡ (plain_ops self.now.pair self.now.size).join b }
    {
        Ok(u64::from_le_bytes([b.b0, b.b1, b.b2, b.b3, b.b4, b.b5, b.b6, b.b7]))
    }

    fn value(&self, b: u8) -> Result<u8, Refusal> {
        Ok(b)
    }

    fn low_byte(&self, x: u64) -> Result<u8, Refusal> {
        Ok((x % 256) as u8)
    }

    ghost simulates = { λ a pair covered. plain_simulates a.pair a.size pair covered };

    ghost offsets = { λ a small. plain_keeps_offsets a.pair a.size small };
}
