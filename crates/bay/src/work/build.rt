ghost use Rattle.std.specs.Prelude.{◌≡◌, List, []};
ghost use Rattle.model.specs.Bays.{put_on};
ghost use Rattle.bay.specs.Build.{stack_fault, with_stack, crate_fault, fault_of, unless};
ghost use Rattle.bay.specs.Shown.{shown};
ghost use Rattle.bay.specs.Slots.{slot_shown};

use crate::faults::{BuildFault, Label};
use crate::slot::Slot;
use crate::stack::Stack;
use crate::work::WorkBay;

impl WorkBay {
    // A bay without stacks.
    pub fn new() -> WorkBay
        ensures { shown result ≡ [] }
    {
        WorkBay {
            count: 0,
            stacks: [Stack::empty(0); 12],
        }
    }

    // An empty stack more, to the right of the others.
    pub fn add_stack(&mut self, clearance: u8) -> Result<(), BuildFault>
        ensures says { fault_of result ≡ stack_fault (shown self.old) clearance }
        ensures after { shown self.new ≡ unless (fault_of result) (with_stack (shown self.old) clearance) (shown self.old) }
    {
        if self.count >= 12 {
            return Err(BuildFault::TooManyStacks);
        }
        if clearance > 8 {
            return Err(BuildFault::ClearanceTooHigh);
        }
        self.stacks[usize::from(self.count)] = Stack::empty(clearance);
        self.count += 1;
        Ok(())
    }

    // Whether a crate may be put on a stack of the bay, and why not.
    fn admits(&self, s: u8, slot: Slot) -> Result<(), BuildFault>
        ensures { fault_of result ≡ crate_fault (shown self.now) s (slot_shown slot) }
    {
        let stack = self.stack(s).ok_or(BuildFault::NoSuchStack)?;
        if stack.height() >= 8 {
            return Err(BuildFault::StackFull);
        }
        if slot.number.number == 0 {
            return Err(BuildFault::CrateZero);
        }
        if self.bears(Label::Crate(slot.number.number)) {
            return Err(BuildFault::CrateTwice);
        }
        if slot.call.number > 0 && self.bears(Label::Call(slot.call.number)) {
            return Err(BuildFault::CallTwice);
        }
        Ok(())
    }

    // A crate more on top of a stack, whatever the stack's clearance.
    pub fn add_crate(&mut self, s: u8, slot: Slot) -> Result<(), BuildFault>
        ensures says { fault_of result ≡ crate_fault (shown self.old) s (slot_shown slot) }
        ensures after { shown self.new ≡ unless (fault_of result) (put_on (shown self.old) s (slot_shown slot)) (shown self.old) }
    {
        self.admits(s, slot)?;
        self.put(s, slot);
        Ok(())
    }
}
