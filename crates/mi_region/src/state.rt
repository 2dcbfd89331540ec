//! The state of a machine, over any arithmetic.

ghost use Rattle.std.specs.Prelude.{◌≡◌, ◌≢◌, ℕ, ◌<◌, ◌^◌, ◌≤◌, ◌+◌, ◌-◌, length, List, [], ◌∷◌, ◌++◌, take, drop, get_or, slice_set, None, Ok, IfSome, IfOk, OnOk};
ghost use Rattle.mi_model.specs.Machine.{asked};
ghost use Rattle.mi_model.specs.Region.{range_at, fetch, fetch_at, fetch_byte, offset_of, cell_at, byte_at, eight_from, with_cell, with_moved, with_filled, with_text, get, tests};
ghost use Rattle.mi_model.specs.Seed.{blank_machine};
ghost use Rattle.mi_region.specs.View.{Tells, Becomes, stored, with_bytes, with_stack, with_rstack, with_empty_stacks, with_ip, with_due, with_wait, with_eight, byte_stored, bytes_moved, bytes_filled};

use crate::Stack;
use mi_arith::Arith;
use mi_model::{Eight, Fault, Wait};
use std::alloc::{AllocError, Global};
use std::marker::Model;

/// The state of a machine, seen as its arithmetic and a machine record: the region as a list of bytes, and the stacks
/// with the top first.
///
/// A call that is refused changes nothing. After `new` no call over an arithmetic that doesn't grow takes memory. What puts,
/// copies or clears at offsets never fails.
#[derive(Drop)]
pub struct State<A: Arith> {
    arith: A,
    region: Vec<A::Byte>,
    stack: Stack<A::Cell>,
    rstack: Stack<A::Cell>,
    ip: A::Cell,
    due: Option<A::Cell>,
    wait: Wait<A::Cell>,
}

impl<A: Arith> Model for State<A> {
    ghost use Rattle.std.specs.Prelude.{◌≡◌, ◌≤◌, ◌^◌, length};
    ghost use Rattle.mi_region.specs.View.{StateView};

    ghost Value = { StateView A A.Cell A.Byte };

    ghost view = { λ s. record { arith = s.arith; machine = record { bytes = s.region.items; stack = s.stack; rstack = s.rstack; ip = s.ip; due = s.due; wait = s.wait } } };

    ghost invariant = { λ s. (length s.region.items ≡ A.size s.arith) × (2 ^ 16 ≤ length s.region.items) × (length s.region.items ≤ 2 ^ 23) };
}

impl<A: Arith> State<A> {
    /// A region of zeros, empty stacks, no due token and the wait Idle. The size is the arithmetic's, from 65,536 to
    /// 8,388,608 bytes.
    pub fn new(alloc: Global, arith: A, size: u32) -> Result<Self, AllocError>
        requires size { size ≡ A.size arith }
        requires least { 2 ^ 16 ≤ size }
        requires most { size ≤ 2 ^ 23 }
        ensures arith { IfOk result (λ s. s.arith ≡ arith) }
        ensures machine { IfOk result (λ s. s.machine ≡ blank_machine (A.ops arith) size) }
    {
        let zero = arith.plain(0);
        let mut region = Vec::with_capacity(alloc, size as usize)?;
        region.resize(size as usize, arith.byte(0))?;
        Ok(State {
            arith,
            region,
            stack: Stack::new(alloc, zero)?,
            rstack: Stack::new(alloc, zero)?,
            ip: zero,
            due: None,
            wait: Wait::Idle,
        })
    }

    pub fn arith(&self) -> &A
        ensures { result.now ≡ self.now.arith }
    {
        &self.arith
    }

    /// The size of the region, in bytes.
    pub fn size(&self) -> u32
        ensures bytes { result ≡ length self.now.machine.bytes }
        ensures size { result ≡ A.size self.now.arith }
        ensures least { 2 ^ 16 ≤ result }
        ensures most { result ≤ 2 ^ 23 }
    {
        self.region.len() as u32
    }

    /// The instruction address.
    pub fn ip(&self) -> A::Cell
        ensures { result ≡ self.now.machine.ip }
    {
        self.ip
    }

    pub fn set_ip(&mut self, x: A::Cell)
        ensures { self.new ≡ with_ip self.old x }
    {
        self.ip = x;
    }

    /// The token that is due, which the next instruction takes in place of the cell at ip.
    pub fn due(&self) -> Option<A::Cell>
        ensures { result ≡ self.now.machine.due }
    {
        self.due
    }

    pub fn set_due(&mut self, x: Option<A::Cell>)
        ensures { self.new ≡ with_due self.old x }
    {
        self.due = x;
    }

    /// What the machine waits for.
    pub fn wait(&self) -> Wait<A::Cell>
        ensures { result ≡ self.now.machine.wait }
    {
        self.wait
    }

    pub fn set_wait(&mut self, w: Wait<A::Cell>)
        ensures { self.new ≡ with_wait self.old w }
    {
        self.wait = w;
    }

    /// How many items the data stack has.
    pub fn depth(&self) -> u32
        ensures value { result ≡ length self.now.machine.stack }
        ensures most { result ≤ 4096 }
    {
        self.stack.depth()
    }

    /// How many items the return stack has.
    pub fn rdepth(&self) -> u32
        ensures value { result ≡ length self.now.machine.rstack }
        ensures most { result ≤ 4096 }
    {
        self.rstack.depth()
    }

    /// The item of the data stack that has so many above it.
    pub fn item(&self, i: u32) -> A::Cell
        requires { i < length self.now.machine.stack }
        ensures { (d : A.Cell) → result ≡ get_or self.now.machine.stack i d }
    {
        self.stack.item(i)
    }

    /// The item of the return stack that has so many above it.
    pub fn ritem(&self, i: u32) -> A::Cell
        requires { i < length self.now.machine.rstack }
        ensures { (d : A.Cell) → result ≡ get_or self.now.machine.rstack i d }
    {
        self.rstack.item(i)
    }

    /// Puts an item on the data stack, which has room for it.
    pub fn put(&mut self, x: A::Cell)
        requires { length self.old.machine.stack < 4096 }
        ensures { self.new ≡ with_stack self.old (x ∷ self.old.machine.stack) }
    {
        self.stack.push(x);
    }

    /// Puts an item on the return stack, which has room for it.
    pub fn rput(&mut self, x: A::Cell)
        requires { length self.old.machine.rstack < 4096 }
        ensures { self.new ≡ with_rstack self.old (x ∷ self.old.machine.rstack) }
    {
        self.rstack.push(x);
    }

    /// Drops items from the top of the data stack.
    pub fn cut(&mut self, count: u32)
        requires { count ≤ length self.old.machine.stack }
        ensures { self.new ≡ with_stack self.old (drop count self.old.machine.stack) }
    {
        self.stack.cut(count);
    }

    /// Moves the item of the data stack that has so many above it to the top. Those keep their order, each one place lower.
    pub fn roll(&mut self, count: u32)
        requires { count < length self.old.machine.stack }
        ensures { (d : A.Cell) → self.new ≡ with_stack self.old (get_or self.old.machine.stack count d ∷ (take count self.old.machine.stack ++ drop (count + 1) self.old.machine.stack)) }
    {
        self.stack.roll(count);
    }

    /// Drops items from the top of the return stack.
    pub fn rcut(&mut self, count: u32)
        requires { count ≤ length self.old.machine.rstack }
        ensures { self.new ≡ with_rstack self.old (drop count self.old.machine.rstack) }
    {
        self.rstack.cut(count);
    }

    /// Empties both stacks.
    pub fn empty_stacks(&mut self)
        ensures { self.new ≡ with_empty_stacks self.old }
    {
        self.stack.clear();
        self.rstack.clear();
    }

    /// The tests that come first in an instruction: -4 where the data stack lacks the items, -6 where the return stack
    /// does, -3 where the results don't fit the data stack, -5 where they don't fit the return stack.
    #[tactic(auto, unfolding(mi_model::specs::Region::tests))]
    pub fn tests(&self, ins: u32, outs: u32, rins: u32, routs: u32) -> Result<(), Fault>
        requires outs { outs ≤ 4096 }
        requires routs { routs ≤ 4096 }
        ensures tests { result ≡ tests ins outs rins routs self.now.machine }
        ensures items { OnOk result (ins ≤ length self.now.machine.stack) }
        ensures ritems { OnOk result (rins ≤ length self.now.machine.rstack) }
        ensures room { OnOk result ((length self.now.machine.stack - ins) + outs ≤ 4096) }
        ensures rroom { OnOk result ((length self.now.machine.rstack - rins) + routs ≤ 4096) }
    {
        if self.depth() < ins {
            return Err(Fault::Throw(-4));
        }
        if self.rdepth() < rins {
            return Err(Fault::Throw(-6));
        }
        if self.depth() - ins + outs > 4096 {
            return Err(Fault::Throw(-3));
        }
        if self.rdepth() - rins + routs > 4096 {
            return Err(Fault::Throw(-5));
        }
        Ok(())
    }

    /// The offset of an address; throw -9 where it has none.
    pub fn offset_of(&self, x: A::Cell) -> Result<u32, Fault>
        ensures { result ≡ offset_of (A.ops self.now.arith) x }
    {
        match self.arith.place(x)? {
            Some(o) => Ok(o),
            None => Err(Fault::Throw(-9)),
        }
    }

    /// The offset of the cell at an address: throw -9 where it doesn't lie in the region, then -23 where it isn't
    /// aligned.
    #[tactic(auto, unfolding(mi_model::specs::Region::cell_at))]
    pub fn cell_offset(&self, x: A::Cell) -> Result<u32, Fault>
        ensures found { result ≡ cell_at (A.ops self.now.arith) self.now.machine.bytes x }
        ensures in_range { IfOk result (λ o. o + 8 ≤ length self.now.machine.bytes) }
    {
        let o = self.offset_of(x)?;
        if o as usize + 8 > self.region.len() {
            return Err(Fault::Throw(-9));
        }
        if o % 8 != 0 {
            return Err(Fault::Throw(-23));
        }
        Ok(o)
    }

    /// The offset of a range of so many bytes: throw -9 where they don't lie in the region. Where there are none it is 0,
    /// and the address isn't asked for its place.
    #[tactic(auto, unfolding(mi_model::specs::Region::range_at))]
    pub fn range(&self, x: A::Cell, count: u64) -> Result<u32, Fault>
        ensures found { result ≡ range_at (A.ops self.now.arith) self.now.machine.bytes count x }
        ensures in_range { IfOk result (λ o. o + count ≤ length self.now.machine.bytes) }
    {
        if count == 0 {
            return Ok(0);
        }
        let o = self.offset_of(x)?;
        let size = self.region.len() as u64;
        if o as u64 > size || count > size - o as u64 {
            return Err(Fault::Throw(-9));
        }
        Ok(o)
    }

    /// The cell at an address: throw -9 where it doesn't lie in the region, then -23 where it isn't aligned.
    #[tactic(auto, unfolding(mi_model::specs::Region::fetch, mi_model::specs::Region::fetch_at))]
    pub fn fetch(&self, x: A::Cell) -> Result<A::Cell, Fault>
        ensures { result ≡ fetch (A.ops self.now.arith) self.now.machine.bytes x }
    {
        let o = self.cell_offset(x)?;
        Ok(self.arith.join(self.eight(o as usize))?)
    }

    /// The cell at an address, where there is one: what `fetch` answers, without saying why there is none. Its answer is a
    /// tenth as long, so it's for walks over many cells.
    #[tactic(auto, unfolding(mi_model::specs::Region::fetch, mi_model::specs::Region::fetch_at, mi_model::specs::Region::cell_at))]
    pub fn peek(&self, x: A::Cell) -> Option<A::Cell>
        ensures some { IfSome result (λ v. fetch (A.ops self.now.arith) self.now.machine.bytes x ≡ Ok v) }
        ensures none { result ≡ None → (v : A.Cell) → fetch (A.ops self.now.arith) self.now.machine.bytes x ≢ Ok v }
    {
        let Ok(Some(o)) = self.arith.place(x) else {
            return None;
        };
        if o as usize + 8 > self.region.len() || o % 8 != 0 {
            return None;
        }
        match self.arith.join(self.eight(o as usize)) {
            Ok(v) => Some(v),
            Err(_) => None,
        }
    }

    /// The cell at an offset of the region.
    #[tactic(auto, unfolding(mi_model::specs::Region::fetch_at))]
    pub fn fetch_at(&self, offset: u32) -> Result<A::Cell, Fault>
        requires { offset + 8 ≤ length self.now.machine.bytes }
        ensures { result ≡ fetch_at (A.ops self.now.arith) self.now.machine.bytes offset }
    {
        Ok(self.arith.join(self.eight(offset as usize))?)
    }

    /// The cell at an offset of the system cells, which stand in front of the region.
    #[tactic(auto, unfolding(mi_model::specs::Region::fetch_at))]
    pub fn fetch_system(&self, offset: u32) -> Result<A::Cell, Fault>
        requires { offset + 8 ≤ 4096 }
        ensures { result ≡ fetch_at (A.ops self.now.arith) self.now.machine.bytes offset }
    {
        Ok(self.arith.join(self.eight(offset as usize))?)
    }

    /// The byte at an address; throw -9 where it doesn't lie in the region.
    #[tactic(auto, unfolding(mi_model::specs::Region::fetch_byte))]
    pub fn fetch_byte(&self, x: A::Cell) -> Result<u8, Fault>
        ensures { result ≡ fetch_byte (A.ops self.now.arith) self.now.machine.bytes x }
    {
        let o = self.byte_place(x)?;
        Ok(self.arith.value(self.region[o])?)
    }

    /// The byte at an offset of the region.
    pub fn fetch_byte_at(&self, offset: u32) -> Result<u8, Fault>
        requires { offset < length self.now.machine.bytes }
        ensures { result ≡ asked ((A.ops self.now.arith).value (get (A.ops self.now.arith) self.now.machine.bytes offset)) }
    {
        Ok(self.arith.value(self.region[offset as usize])?)
    }

    /// Stores a cell at an address: throws as `fetch`.
    pub fn store(&mut self, x: A::Cell, v: A::Cell) -> Result<(), Fault>
        ensures { Tells A.GROWS result self.old self.new (stored (A.ops self.old.arith) self.old x v) }
    {
        let o = self.cell_offset(x)?;
        self.put_cell(o, v);
        Ok(())
    }

    /// Stores the low byte of a cell at an address; throw -9 where that doesn't lie in the region.
    pub fn store_byte(&mut self, x: A::Cell, v: A::Cell) -> Result<(), Fault>
        ensures { Tells A.GROWS result self.old self.new (byte_stored (A.ops self.old.arith) self.old x v) }
    {
        let c = self.arith.low_byte(v)?;
        let o = self.byte_place(x)?;
        self.region[o] = self.arith.byte(c);
        Ok(())
    }

    /// Puts a byte at an offset of the region.
    pub fn put_byte(&mut self, offset: u32, b: u8)
        requires { offset < length self.old.machine.bytes }
        ensures { self.new ≡ with_bytes self.old (slice_set self.old.machine.bytes offset ((A.ops self.old.arith).byte b)) }
    {
        self.region[offset as usize] = self.arith.byte(b);
    }

    /// Stores a byte at an offset of the region.
    pub fn store_byte_at(&mut self, offset: u32, b: u8) -> Result<(), Fault>
        requires { offset < length self.old.machine.bytes }
        ensures { Becomes A.GROWS result self.old self.new (with_bytes self.old (slice_set self.old.machine.bytes offset ((A.ops self.old.arith).byte b))) }
    {
        self.put_byte(offset, b);
        Ok(())
    }

    /// Copies so many bytes from one address to another, as if through a copy; throw -9 where one of the ranges doesn't
    /// lie in the region. Where there are none, no address is asked for its place.
    pub fn move_bytes(&mut self, from: A::Cell, to: A::Cell, count: u64) -> Result<(), Fault>
        ensures { Tells A.GROWS result self.old self.new (bytes_moved (A.ops self.old.arith) self.old from to count) }
    {
        let from = self.range(from, count)?;
        let to = self.range(to, count)?;
        copy(&mut self.region, from as usize, to as usize, count as usize);
        Ok(())
    }

    /// Makes so many bytes from an address on this one; throw -9 where they don't lie in the region. Where there are none,
    /// the address isn't asked for its place.
    pub fn fill(&mut self, at: A::Cell, count: u64, b: u8) -> Result<(), Fault>
        ensures { Tells A.GROWS result self.old self.new (bytes_filled (A.ops self.old.arith) self.old at count b) }
    {
        let o = self.range(at, count)?;
        let value = self.arith.byte(b);
        fill(&mut self.region, o as usize, count as usize, value);
        Ok(())
    }

    /// Stores a cell at an offset of the region.
    pub fn store_at(&mut self, offset: u32, v: A::Cell) -> Result<(), Fault>
        requires { offset + 8 ≤ length self.old.machine.bytes }
        ensures { Becomes A.GROWS result self.old self.new (with_bytes self.old (with_cell (A.ops self.old.arith) self.old.machine.bytes offset v)) }
    {
        self.put_cell(offset, v);
        Ok(())
    }

    /// Puts a cell at an offset of the region.
    pub fn put_cell(&mut self, offset: u32, v: A::Cell)
        requires { offset + 8 ≤ length self.old.machine.bytes }
        ensures { self.new ≡ with_bytes self.old (with_cell (A.ops self.old.arith) self.old.machine.bytes offset v) }
    {
        let o = offset as usize;
        self.region[o] = self.arith.cut(v, 0);
        self.region[o + 1] = self.arith.cut(v, 1);
        self.region[o + 2] = self.arith.cut(v, 2);
        self.region[o + 3] = self.arith.cut(v, 3);
        self.region[o + 4] = self.arith.cut(v, 4);
        self.region[o + 5] = self.arith.cut(v, 5);
        self.region[o + 6] = self.arith.cut(v, 6);
        self.region[o + 7] = self.arith.cut(v, 7);
    }

    /// Puts a system cell.
    pub fn put_system(&mut self, offset: u32, v: A::Cell)
        requires { offset + 8 ≤ 4096 }
        ensures { self.new ≡ with_bytes self.old (with_cell (A.ops self.old.arith) self.old.machine.bytes offset v) }
    {
        let _ = self.size();
        self.put_cell(offset, v);
    }

    /// Stores a system cell.
    pub fn store_system(&mut self, offset: u32, v: A::Cell) -> Result<(), Fault>
        requires { offset + 8 ≤ 4096 }
        ensures { Becomes A.GROWS result self.old self.new (with_bytes self.old (with_cell (A.ops self.old.arith) self.old.machine.bytes offset v)) }
    {
        self.put_system(offset, v);
        Ok(())
    }

    /// The eight bytes of a system cell as they stand.
    pub fn system_bytes(&self, offset: u32) -> Eight<A::Byte>
        requires { offset + 8 ≤ 4096 }
        ensures { result ≡ eight_from (A.ops self.now.arith) self.now.machine.bytes offset }
    {
        let _ = &self.region;
        self.eight(offset as usize)
    }

    /// Puts back the eight bytes of a system cell, as they stood before a cell was stored there.
    pub fn put_back(&mut self, offset: u32, bytes: Eight<A::Byte>) -> Result<(), Fault>
        requires { offset + 8 ≤ 4096 }
        ensures value { Becomes A.GROWS result self.old self.new (with_bytes self.old (with_eight self.old.machine.bytes offset bytes)) }
        ensures back { (before : List A.Byte) (v : A.Cell) → length before ≡ length self.old.machine.bytes
            → self.old.machine.bytes ≡ with_cell (A.ops self.old.arith) before offset v
            → bytes ≡ eight_from (A.ops self.old.arith) before offset
            → with_eight self.old.machine.bytes offset bytes ≡ before }
    {
        let o = offset as usize;
        let _ = &self.region;
        self.region[o + 7] = bytes.b7;
        self.region[o + 6] = bytes.b6;
        self.region[o + 5] = bytes.b5;
        self.region[o + 4] = bytes.b4;
        self.region[o + 3] = bytes.b3;
        self.region[o + 2] = bytes.b2;
        self.region[o + 1] = bytes.b1;
        self.region[o] = bytes.b0;
        Ok(())
    }

    /// Copies a text to an offset of the region.
    pub fn put_text(&mut self, offset: u32, text: &[u8])
        requires { offset + length text.now ≤ length self.old.machine.bytes }
        ensures { self.new ≡ with_bytes self.old (with_text (A.ops self.old.arith) self.old.machine.bytes offset text.now) }
    {
        let arith = self.arith;
        write_text(&arith, &mut self.region, offset as usize, text);
    }

    /// Copies a text to an offset of the region.
    pub fn store_text(&mut self, offset: u32, text: &[u8]) -> Result<(), Fault>
        requires { offset + length text.now ≤ length self.old.machine.bytes }
        ensures { Becomes A.GROWS result self.old self.new (with_bytes self.old (with_text (A.ops self.old.arith) self.old.machine.bytes offset text.now)) }
    {
        self.put_text(offset, text);
        Ok(())
    }

    /// Copies bytes of the region from one offset to another. The ranges may overlap: the bytes that come are those that
    /// stood there before.
    pub fn copy_within(&mut self, from: u32, to: u32, count: u32)
        requires from { from + count ≤ length self.old.machine.bytes }
        requires to { to + count ≤ length self.old.machine.bytes }
        ensures bytes { self.new ≡ with_bytes self.old (with_moved self.old.machine.bytes from to count) }
        ensures same_length { length self.new.machine.bytes ≡ length self.old.machine.bytes }
    {
        copy(&mut self.region, from as usize, to as usize, count as usize);
    }

    /// Copies bytes of the region from one offset to another, as `copy_within`.
    pub fn copy_at(&mut self, from: u32, to: u32, count: u32) -> Result<(), Fault>
        requires from { from + count ≤ length self.old.machine.bytes }
        requires to { to + count ≤ length self.old.machine.bytes }
        ensures bytes { Becomes A.GROWS result self.old self.new (with_bytes self.old (with_moved self.old.machine.bytes from to count)) }
        ensures same_length { length self.new.machine.bytes ≡ length self.old.machine.bytes }
    {
        self.copy_within(from, to, count);
        Ok(())
    }

    /// Makes bytes of the region from an offset on plain 0.
    pub fn clear(&mut self, offset: u32, count: u32)
        requires { offset + count ≤ length self.old.machine.bytes }
        ensures bytes { self.new ≡ with_bytes self.old (with_filled self.old.machine.bytes offset count ((A.ops self.old.arith).byte 0)) }
        ensures same_length { length self.new.machine.bytes ≡ length self.old.machine.bytes }
    {
        let zero = self.arith.byte(0);
        fill(&mut self.region, offset as usize, count as usize, zero);
    }

    /// Makes bytes of the region from an offset on plain 0, as `clear`.
    pub fn clear_bytes(&mut self, offset: u32, count: u32) -> Result<(), Fault>
        requires { offset + count ≤ length self.old.machine.bytes }
        ensures bytes { Becomes A.GROWS result self.old self.new (with_bytes self.old (with_filled self.old.machine.bytes offset count ((A.ops self.old.arith).byte 0))) }
        ensures same_length { length self.new.machine.bytes ≡ length self.old.machine.bytes }
    {
        self.clear(offset, count);
        Ok(())
    }

    #[tactic(auto, unfolding(mi_model::specs::Region::byte_at))]
    fn byte_place(&self, x: A::Cell) -> Result<usize, Fault>
        ensures found { result ≡ byte_at (A.ops self.now.arith) self.now.machine.bytes x }
        ensures in_range { IfOk result (λ o. o + 1 ≤ length self.now.machine.bytes) }
    {
        let Some(o) = self.arith.place(x)? else {
            return Err(Fault::Throw(-9));
        };
        let o = o as usize;
        if o + 1 > self.region.len() {
            return Err(Fault::Throw(-9));
        }
        Ok(o)
    }

    fn eight(&self, o: usize) -> Eight<A::Byte>
        requires { o + 8 ≤ length self.now.machine.bytes }
        ensures { result ≡ eight_from (A.ops self.now.arith) self.now.machine.bytes o }
    {
        Eight {
            b0: self.region[o],
            b1: self.region[o + 1],
            b2: self.region[o + 2],
            b3: self.region[o + 3],
            b4: self.region[o + 4],
            b5: self.region[o + 5],
            b6: self.region[o + 6],
            b7: self.region[o + 7],
        }
    }
}

/// Copies a text into a list of bytes.
#[tactic(auto, using(crate::proofs::Texts::text_next, crate::proofs::Texts::text_done))]
fn write_text<A: Arith>(arith: &A, region: &mut Vec<A::Byte>, offset: usize, text: &[u8])
    requires { offset + length text.now ≤ length region.old.items }
    ensures same_length { length region.new.items ≡ length region.old.items }
    ensures copied { region.new.items ≡ with_text (A.ops arith.now) region.old.items offset text.now }
{
    'bytes: for (i, c) in text.iter().enumerate() {
        region[offset + i] = arith.byte(*c);
    }
}

/// Copies bytes of a list from one place to another, as if through a copy.
fn copy<B: Copy>(region: &mut Vec<B>, from: usize, to: usize, count: usize)
    requires from { from + count ≤ length region.old.items }
    requires to { to + count ≤ length region.old.items }
    ensures same_length { length region.new.items ≡ length region.old.items }
    ensures moved { region.new.items ≡ with_moved region.old.items from to count }
{
    region.copy_within(from..from + count, to);
}

/// Makes bytes of a list this one.
#[tactic(auto, using(crate::proofs::Texts::fill_none))]
fn fill<B: Copy>(region: &mut Vec<B>, offset: usize, count: usize, value: B)
    requires { offset + count ≤ length region.old.items }
    ensures same_length { length region.new.items ≡ length region.old.items }
    ensures filled { region.new.items ≡ with_filled region.old.items offset count value }
{
    'bytes: for i in 0..count {
        region[offset + i] = value;
    }
}
