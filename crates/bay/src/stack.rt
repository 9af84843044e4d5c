ghost use Rattle.std.specs.Prelude.{◌≡◌, ◌≤◌, length};

use crate::slot::Slot;

mod ask;
mod change;

// One stack of a working bay: at most eight crates, bottom first, and the clearance, which it may stand higher than.
// Fixed places and a height, and no list from the heap: a bay is copied at every try of a search.
#[derive(Clone, Copy)]
pub struct Stack {
    clearance: u8,
    height: u8,
    slots: [Slot; 8],
    ghost cleared: { clearance ≤ 8 },
    ghost tall: { height ≤ 8 },
    ghost whole: { length slots ≡ 8 },
}
