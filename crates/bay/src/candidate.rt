ghost use Rattle.std.specs.Prelude.{◌≡◌};
ghost use Rattle.model.specs.Targets.{nobody, better};
ghost use Rattle.bay.specs.Target.{best_shown};

use crate::slot::UNCALLED;

// The crate that goes first among those seen: how late it is called, how many crates stand above it, its stack.
#[derive(Clone, Copy)]
pub struct Best {
    pub late: u32,
    pub above: u8,
    pub stack: u8,
}

impl Best {
    // No crate yet: later than every called one, so that the scan has one comparison and no case.
    pub fn nobody() -> Best
        ensures { best_shown result ≡ nobody }
    {
        Best {
            late: UNCALLED,
            above: 0,
            stack: 0,
        }
    }

    // Of two, the one that goes first: the earlier called, then the one with fewer crates above, then the first taken.
    pub fn better(self, other: Best) -> Best
        ensures { best_shown result ≡ better (best_shown self) (best_shown other) }
    {
        // Spelled out: comparing two pairs runs slower.
        if other.late < self.late || (other.late == self.late && other.above < self.above) {
            other
        } else {
            self
        }
    }
}
