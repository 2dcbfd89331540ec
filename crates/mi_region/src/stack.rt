//! A stack of cells.

ghost use Rattle.std.specs.Prelude.{◌≡◌, ℕ, ◌<◌, ◌≤◌, ◌+◌, length, List, [], ◌∷◌, ◌++◌, take, drop, get_or, IfOk};

use std::alloc::{AllocError, Global};
use std::marker::Model;

/// How many cells a stack has room for.
pub const STACK_LIMIT: u32 = 4096;

/// A stack of at most `STACK_LIMIT` cells, seen as their list with the top first. All its memory is taken when it is
/// made.
#[derive(Drop)]
pub struct Stack<C> {
    // the places from `top` on hold the items, the top item first
    items: Vec<C>,
    top: u32,
}

impl<C> Model for Stack<C> {
    ghost use Rattle.std.specs.Prelude.{List, ◌≡◌, ◌≤◌, drop, length};

    ghost Value = { List C };

    ghost view = { λ s. drop s.top s.items.items };

    ghost invariant = { λ s. (s.top ≤ 4096) × (length s.items.items ≡ 4096) };
}

impl<C: Copy> Stack<C> {
    /// An empty stack. The filler stands in the places that hold no item.
    pub fn new(alloc: Global, filler: C) -> Result<Self, AllocError>
        ensures { IfOk result (λ s. s ≡ []) }
    {
        let mut items = Vec::with_capacity(alloc, STACK_LIMIT as usize)?;
        items.resize(STACK_LIMIT as usize, filler)?;
        Ok(Stack {
            items,
            top: STACK_LIMIT,
        })
    }

    /// How many items there are.
    pub fn depth(&self) -> u32
        ensures value { result ≡ length self.now }
        ensures most { result ≤ 4096 }
    {
        STACK_LIMIT - self.top
    }

    /// Puts an item on the stack, which has room for it.
    pub fn push(&mut self, x: C)
        requires { length self.old < 4096 }
        ensures { self.new ≡ x ∷ self.old }
    {
        self.top -= 1;
        self.items[self.top as usize] = x;
    }

    /// The item that has so many above it.
    pub fn item(&self, i: u32) -> C
        requires { i < length self.now }
        ensures { (d : C) → result ≡ get_or self.now i d }
    {
        self.items[(self.top + i) as usize]
    }

    /// Drops items from the top.
    pub fn cut(&mut self, count: u32)
        requires { count ≤ length self.old }
        ensures { self.new ≡ drop count self.old }
    {
        self.top += count;
    }

    /// Moves the item that has so many above it to the top. Those keep their order, each one place lower.
    #[tactic(auto, using(crate::proofs::Rolls::rolled))]
    pub fn roll(&mut self, count: u32)
        requires { count < length self.old }
        ensures { (d : C) → self.new ≡ get_or self.old count d ∷ (take count self.old ++ drop (count + 1) self.old) }
    {
        let top = self.top as usize;
        let place = top + count as usize;
        let item = self.items[place];
        self.items.copy_within(top..place, top + 1);
        self.items[top] = item;
    }

    /// Drops all items.
    pub fn clear(&mut self)
        ensures { self.new ≡ [] }
    {
        self.top = STACK_LIMIT;
    }
}
