ghost use Rattle.std.specs.Prelude.{◌≡◌, ◌<◌, ◌≤◌, List, [], ◌∷◌, ◌++◌, length, IfOk, MatchOption, vec_capacity};

use std::alloc::{AllocError, Global};
use std::marker::Model;

// A list with memory for `ROOM` items, made once: a push takes no more.
#[derive(Drop)]
pub(crate) struct ReservedVec<T, const ROOM: usize> {
    items: Vec<T>,
}

impl<T, const ROOM: usize> Model for ReservedVec<T, ROOM> {
    ghost Value = { List T };

    ghost view = { λ r. r.items.items };

    ghost invariant = { λ r. ROOM ≤ vec_capacity r.items };
}

impl<T: Copy, const ROOM: usize> ReservedVec<T, ROOM> {
    pub(crate) fn new(alloc: Global) -> Result<Self, AllocError>
        ensures { IfOk result (λ r. r ≡ []) }
    {
        Ok(ReservedVec {
            items: Vec::with_capacity(alloc, ROOM)?,
        })
    }

    pub(crate) fn len(&self) -> usize
        ensures { result ≡ length self.now }
    {
        self.items.len()
    }

    pub(crate) fn as_slice(&self) -> &[T]
        ensures { result.now ≡ self.now }
    {
        self.items.as_slice()
    }

    pub(crate) fn clear(&mut self)
        ensures { self.new ≡ [] }
    {
        self.items.clear();
    }

    pub(crate) fn push(&mut self, item: T)
        requires { length self.old < ROOM }
        ensures { self.new ≡ self.old ++ item ∷ [] }
    {
        self.items.push_reserved(item);
    }

    // Takes the last item, if there is one.
    pub(crate) fn pop(&mut self) -> Option<T>
        ensures { MatchOption result ((self.old ≡ []) × (self.new ≡ [])) (λ item. self.old ≡ self.new ++ item ∷ []) }
    {
        self.items.pop()
    }
}
