// A list of at most N items in an array of its own: the gate has no heap.
ghost use Rattle.std.specs.Prelude.{◌≡◌, ◌<◌, ◌≤◌, List, [], ◌∷◌, ◌++◌, length, take, drop, MatchOption};

use std::marker::Model;

#[derive(Drop)]
pub struct Stack<T: Copy, const N: usize> {
    items: [T; N],
    len: usize,
}

impl<T: Copy, const N: usize> Model for Stack<T, N> {
    ghost use Rattle.std.specs.Prelude.{◌≤◌, List, take};

    ghost Value = { List T };

    ghost view = { λ s. take s.len s.items };

    ghost invariant = { λ s. s.len ≤ N };
}

impl<T: Copy, const N: usize> Stack<T, N> {
    // An empty stack, whose array is filled with the item.
    pub fn new(filler: T) -> Self
        ensures { result ≡ [] }
    {
        Stack {
            items: [filler; N],
            len: 0,
        }
    }

    pub fn len(&self) -> usize
        ensures { result ≡ length self.now }
    {
        self.len
    }

    pub fn as_slice(&self) -> &[T]
        ensures { result.now ≡ self.now }
    {
        &self.items[..self.len]
    }

    // The items after the first `len`.
    pub fn after(&self, len: usize) -> &[T]
        requires { len ≤ length self.now }
        ensures { result.now ≡ drop len self.now }
    {
        &self.as_slice()[len..]
    }

    pub fn push(&mut self, item: T)
        requires { length self.old < N }
        ensures { self.new ≡ self.old ++ item ∷ [] }
    {
        self.items[self.len] = item;
        self.len += 1;
    }

    // An empty stack gives none and stays empty.
    pub fn pop(&mut self) -> Option<T>
        ensures { MatchOption result ((self.old ≡ []) × (self.new ≡ [])) (λ item. self.old ≡ self.new ++ item ∷ []) }
    {
        if self.len == 0 {
            return None;
        }
        self.len -= 1;
        Some(self.items[self.len])
    }

    // Keeps the first `len` items.
    pub fn truncate(&mut self, len: usize)
        requires { len ≤ length self.old }
        ensures { self.new ≡ take len self.old }
    {
        self.len = len;
    }
}
