ghost use Rattle.std.specs.Prelude.{◌≡◌, ◌<◌, ◌≤◌, [], map, length, nat_lt};
ghost use Rattle.model.specs.Bays.{has_space, tally_in, top_slot};
ghost use Rattle.model.specs.Targets.{lateness, lowest, scan_stack};
ghost use Rattle.bay.specs.Ask.{slot_on};
ghost use Rattle.bay.specs.Label.{bearing};
ghost use Rattle.bay.specs.Slots.{slot_shown};
ghost use Rattle.bay.specs.Stacks.{stack_shown};
ghost use Rattle.bay.specs.Target.{best_shown};

use crate::candidate::Best;
use crate::faults::Label;
use crate::slot::{Slot, UNCALLED};
use crate::stack::Stack;

impl Stack {
    pub fn clearance(&self) -> u8
        ensures { result ≡ (stack_shown self.now).clearance }
    {
        self.clearance
    }

    pub fn height(&self) -> u8
        ensures { result ≡ length (stack_shown self.now).items }
    {
        self.height
    }

    // The crates, bottom first.
    pub fn slots(&self) -> &[Slot]
        ensures value { map slot_shown result.now ≡ (stack_shown self.now).items }
        ensures few { length result.now ≤ 8 }
    {
        &self.slots[..usize::from(self.height)]
    }

    // The crate at a tier, counted from 1 at the bottom; zero in both numbers where none stands.
    pub(crate) fn slot(&self, tier: u8) -> Slot
        ensures { slot_shown result ≡ slot_on (stack_shown self.now).items tier }
    {
        if tier == 0 || tier > self.height {
            return Slot::empty();
        }
        self.slots[usize::from(tier) - 1]
    }

    pub(crate) fn has_space(&self) -> bool
        ensures { result ≡ has_space (stack_shown self.now) }
    {
        self.slots().len() < usize::from(self.clearance)
    }

    // The lateness of the earliest crate; that of an uncalled crate if none is called.
    pub(crate) fn earliest(&self) -> u32
        ensures { result ≡ lowest (stack_shown self.now).items }
    {
        let mut low = UNCALLED;
        for slot in self.slots() {
            low = slot.lateness().min(low);
        }
        low
    }

    // Whether a crate of the stack is called earlier than another crate.
    pub fn has_earlier(&self, than: Slot) -> bool
        ensures { result ≡ nat_lt (lowest (stack_shown self.now).items) (lateness (slot_shown than).call) }
    {
        let late = than.lateness();
        self.slots().iter().any(|slot| slot.lateness() < late)
    }

    // Whether a crate bears the label.
    pub(crate) fn bears(&self, label: Label) -> bool
        ensures { result ≡ nat_lt 0 (tally_in (bearing label) (stack_shown self.now).items) }
    {
        self.slots().iter().any(|slot| slot.bears(label))
    }

    // The best candidate for the target, after those met before and the crates of this stack, which is number s.
    pub(crate) fn best(&self, s: u8, before: Best) -> Best
        ensures { best_shown result ≡ scan_stack (best_shown before) s (stack_shown self.now).items }
    {
        let mut best = before;
        let mut rest = self.slots();
        while let [slot, above @ ..] = rest {
            let late = slot.lateness();
            // Most crates are later than the best so far: one comparison, and no candidate built.
            if late <= best.late {
                best = best.better(Best {
                    late,
                    // Narrowed: a stack holds at most eight.
                    above: above.len() as u8,
                    stack: s,
                });
            }
            rest = above;
        }
        best
    }

    // The crate on top.
    pub(crate) fn top(&self) -> Slot
        requires { 0 < length (stack_shown self.now).items }
        ensures { slot_shown result ≡ top_slot (stack_shown self.now).items }
    {
        self.slots[usize::from(self.height) - 1]
    }
}
