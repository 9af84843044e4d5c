ghost use Rattle.std.specs.Prelude.{◌≡◌, ◌<◌, ◌≤◌, suc, true, false, length, map, MatchOption};
ghost use Rattle.model.specs.Bays.{is_there, stack_at, top_slot};
ghost use Rattle.model.specs.Targets.{lowest};
ghost use Rattle.bay.specs.Ask.{height_at, slot_in, opens};
ghost use Rattle.bay.specs.Shown.{shown};
ghost use Rattle.bay.specs.Slots.{slot_shown};
ghost use Rattle.bay.specs.Stacks.{stack_shown};

use crate::slot::{Slot, UNCALLED};
use crate::stack::Stack;
use crate::work::WorkBay;

impl WorkBay {
    // The number of stacks.
    pub fn count(&self) -> u8
        ensures { result ≡ length (shown self.now) }
    {
        self.count
    }

    // The stacks, from the first on.
    pub fn stacks(&self) -> &[Stack]
        ensures value { map stack_shown result.now ≡ shown self.now }
        ensures few { length result.now ≤ 12 }
    {
        &self.stacks[..usize::from(self.count)]
    }

    // The place of a stack among the stacks; none of a number that no stack has.
    pub(super) fn row(&self, s: u8) -> Option<usize>
        ensures { MatchOption result (is_there (shown self.now) s ≡ false) (λ i. (i < self.now.count) × (suc i ≡ s)) }
    {
        if s == 0 || s > self.count {
            return None;
        }
        Some(usize::from(s) - 1)
    }

    // The stack of a number; none where no stack has it.
    pub(super) fn stack(&self, s: u8) -> Option<&Stack>
        ensures { MatchOption result (is_there (shown self.now) s ≡ false) (λ t. (is_there (shown self.now) s ≡ true) × (stack_shown t.now ≡ stack_at (shown self.now) s)) }
    {
        let row = self.row(s)?;
        Some(&self.stacks[row])
    }

    pub fn clearance(&self, s: u8) -> u8
        ensures { result ≡ (stack_at (shown self.now) s).clearance }
    {
        self.stack(s).map_or(0, |stack| stack.clearance())
    }

    pub fn height(&self, s: u8) -> u8
        ensures { result ≡ height_at (shown self.now) s }
    {
        self.stack(s).map_or(0, |stack| stack.height())
    }

    // The crates of a stack, bottom first; none where no stack is.
    pub fn slots(&self, s: u8) -> &[Slot]
        ensures { map slot_shown result.now ≡ (stack_at (shown self.now) s).items }
    {
        self.stack(s).map_or(&[], |stack| stack.slots())
    }

    // The crate on top of a stack that is not empty.
    pub(super) fn top(&self, s: u8) -> Slot
        requires { 0 < height_at (shown self.now) s }
        ensures { slot_shown result ≡ top_slot (stack_at (shown self.now) s).items }
    {
        self.stacks[usize::from(s) - 1].top()
    }

    // The crate at a tier, counted from 1 at the bottom; zero in both numbers where none stands.
    pub fn slot_at(&self, s: u8, tier: u8) -> Slot
        ensures { slot_shown result ≡ slot_in (shown self.now) s tier }
    {
        self.stack(s)
            .map_or(Slot::empty(), |stack| stack.slot(tier))
    }

    // The lateness of the earliest crate of a stack; that of an uncalled crate if none is called.
    pub fn earliest(&self, s: u8) -> u32
        ensures { result ≡ lowest (stack_at (shown self.now) s).items }
    {
        self.stack(s).map_or(UNCALLED, |stack| stack.earliest())
    }

    // Whether a crate of stack `from` may go to stack `to`.
    pub fn is_open(&self, from: u8, to: u8) -> bool
        ensures { result ≡ opens (shown self.now) from to }
    {
        from != to && self.stack(to).is_some_and(|stack| stack.has_space())
    }
}
