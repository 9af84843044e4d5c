ghost use Rattle.std.specs.Prelude.{◌≡◌, ◌-◌, ◌<◌, suc, true, map, length, take};
ghost use Rattle.model.specs.Bays.{is_there, items_at, stack_at, changed, put_on};
ghost use Rattle.bay.specs.Ask.{height_at};
ghost use Rattle.bay.specs.Build.{Newcomer};
ghost use Rattle.bay.specs.Shown.{shown};
ghost use Rattle.bay.specs.Slots.{slot_shown};
ghost use Rattle.bay.specs.Stacks.{stack_shown};

use crate::slot::Slot;
use crate::stack::Stack;
use crate::work::WorkBay;

// Puts a crate on top of one of some stacks: of stacks, since the checker cannot lend one of those inside a bay.
fn put_on(stacks: &mut [Stack], row: usize, slot: Slot)
    requires inside { row < length stacks.old }
    requires low { length (items_at (map stack_shown stacks.old) row) < 8 }
    ensures { map stack_shown stacks.new ≡ put_on (map stack_shown stacks.old) (suc row) (slot_shown slot) }
{
    stacks[row].put(slot);
}

// Takes so many crates off the top of one of some stacks, or all that stand there.
fn take_from(stacks: &mut [Stack], row: usize, crates: u8)
    requires { row < length stacks.old }
    ensures { map stack_shown stacks.new ≡ changed (map stack_shown stacks.old) (suc row) (take (length (items_at (map stack_shown stacks.old) row) - crates) (items_at (map stack_shown stacks.old) row)) }
{
    stacks[row].take_off(crates);
}

impl WorkBay {
    // Puts a crate that is new to the bay on top of a stack. That fewer than eight stand there is handed down with it.
    pub(super) fn put(&mut self, s: u8, slot: Slot)
        requires there { is_there (shown self.old) s ≡ true }
        requires low { height_at (shown self.old) s < 8 }
        requires new { Newcomer (shown self.old) (slot_shown slot) }
        ensures { shown self.new ≡ put_on (shown self.old) s (slot_shown slot) }
    {
        put_on(&mut self.stacks, usize::from(s) - 1, slot);
    }

    // Takes so many crates off the top of a stack, or all that stand there.
    pub fn take_off(&mut self, s: u8, crates: u8)
        ensures { shown self.new ≡ changed (shown self.old) s (take (height_at (shown self.old) s - crates) (stack_at (shown self.old) s).items) }
    {
        if let Some(row) = self.row(s) {
            take_from(&mut self.stacks, row, crates);
        }
    }
}
