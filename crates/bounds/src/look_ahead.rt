ghost use Rattle.std.specs.Prelude.{◌≡◌, ◌*◌, ◌≤◌, map, length};
ghost use Rattle.bay.specs.Shown.{shown};
ghost use Rattle.bay.specs.Slots.{slot_shown};
ghost use Rattle.model.specs.Bays.{tally_in};
ghost use Rattle.model.specs.Bounds.{elsewhere, weight, look_ahead};
ghost use Rattle.model.specs.Targets.{lateness};
ghost use Rattle.model.proofs.LookAhead.{look_ahead_honest};

use crate::bound::LowerBound;
use bay::slot::Slot;
use bay::work::WorkBay;

// Looks ahead on a copy of the bay: target after target leaves with all above it. Each crate above counts one, and one
// more if every other stack of the copy holds a crate called earlier, so that it will be in the way again.
#[derive(Clone, Copy)]
pub struct LookAhead;

// Whether every stack other than `s` holds a crate that is called earlier than this one.
fn blocks_elsewhere(bay: &WorkBay, s: u8, slot: Slot) -> bool
    ensures { result ≡ elsewhere (lateness (slot_shown slot).call) s 1 (shown bay.now) }
{
    for (number, stack) in (1..).zip(bay.stacks()) {
        if number != s && !stack.has_earlier(slot) {
            return false;
        }
    }
    true
}

// What some crates of stack `s` count.
fn weigh(bay: &WorkBay, s: u8, slots: &[Slot]) -> u16
    requires { length slots.now ≤ 8 }
    ensures value { result ≡ tally_in (weight (shown bay.now) s) (map slot_shown slots.now) }
    ensures small { result ≤ 2 * length slots.now }
{
    let mut count = 0;
    for slot in slots {
        count += if blocks_elsewhere(bay, s, *slot) {
            2
        } else {
            1
        };
    }
    count
}

impl LowerBound for LookAhead {
    ghost value = { λ _. look_ahead };

    ghost honest = { λ bound. look_ahead_honest };

    fn estimate(&self, bay: &WorkBay) -> u16 {
        let mut copy = *bay;
        let mut count = 0;
        while let Some((s, above)) = copy.target() {
            let slots = copy.slots(s);
            let start = slots.len() - usize::from(above);
            count += weigh(&copy, s, &slots[start..]);
            copy.take_off(s, above + 1);
        }
        count
    }
}
