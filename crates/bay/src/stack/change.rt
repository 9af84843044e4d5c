ghost use Rattle.std.specs.Prelude.{◌≡◌, ◌-◌, ◌<◌, ◌≤◌, [], ◌∷◌, ◌++◌, length, take};
ghost use Rattle.model.specs.Bays.{holding};
ghost use Rattle.bay.specs.Slots.{slot_shown};
ghost use Rattle.bay.specs.Stacks.{stack_shown};

use crate::slot::Slot;
use crate::stack::Stack;

impl Stack {
    pub(crate) fn empty(clearance: u8) -> Stack
        requires { clearance ≤ 8 }
        ensures { stack_shown result ≡ record { clearance = clearance; items = [] } }
    {
        Stack {
            clearance,
            height: 0,
            slots: [Slot::empty(); 8],
        }
    }

    // Puts a crate on top.
    pub(crate) fn put(&mut self, slot: Slot)
        requires { length (stack_shown self.old).items < 8 }
        ensures { stack_shown self.new ≡ holding (stack_shown self.old) ((stack_shown self.old).items ++ slot_shown slot ∷ []) }
    {
        self.slots[usize::from(self.height)] = slot;
        self.height += 1;
    }

    // Takes so many crates off the top, or all that stand there.
    pub(crate) fn take_off(&mut self, crates: u8)
        ensures { stack_shown self.new ≡ holding (stack_shown self.old) (take (length (stack_shown self.old).items - crates) (stack_shown self.old).items) }
    {
        self.height = self.height.saturating_sub(crates);
    }
}
