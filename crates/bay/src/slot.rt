ghost use Rattle.std.specs.Prelude.{◌≡◌};
ghost use Rattle.model.specs.Bays.{no_slot, one};
ghost use Rattle.model.specs.Targets.{lateness};
ghost use Rattle.bay.specs.Label.{bearing};
ghost use Rattle.bay.specs.Slots.{slot_shown};

use crate::faults::Label;
use model::numbers::{CallNumber, CrateNumber};

// The lateness of an uncalled crate: a number, later than every call, so that one `<` orders any two crates.
pub const UNCALLED: u32 = 65536;

// A crate as it stands in a stack: its number, and its call number.
#[derive(Clone, Copy, Debug, PartialEq, Eq)]
pub struct Slot {
    pub number: CrateNumber,
    pub call: CallNumber,
}

impl Slot {
    // What stands where no crate stands: what is not there answers zero.
    pub(crate) fn empty() -> Slot
        ensures { slot_shown result ≡ no_slot }
    {
        Slot {
            number: CrateNumber { number: 0 },
            call: CallNumber { number: 0 },
        }
    }

    // How late the crate is called; an uncalled crate is later than every call.
    pub fn lateness(self) -> u32
        ensures { result ≡ lateness (slot_shown self).call }
    {
        if self.call.number == 0 {
            UNCALLED
        } else {
            u32::from(self.call.number)
        }
    }

    // Whether the crate bears a label.
    pub(crate) fn bears(self, label: Label) -> bool
        ensures { one result ≡ bearing label (slot_shown self) }
    {
        match label {
            Label::Crate(c) => self.number.number == c,
            Label::Call(k) => self.call.number == k,
        }
    }
}
