ghost use Rattle.std.specs.Prelude.{◌≡◌, nat_lt};
ghost use Rattle.model.specs.Bays.{tally};
ghost use Rattle.model.specs.Targets.{target, TargetMeans};
ghost use Rattle.bay.specs.Label.{bearing};
ghost use Rattle.bay.specs.Shown.{shown};

use crate::candidate::Best;
use crate::faults::Label;
use crate::slot::UNCALLED;
use crate::work::WorkBay;

impl WorkBay {
    // The stack of the target and the number of crates above it, or none if no crate is called.
    pub fn target(&self) -> Option<(u8, u8)>
        ensures value { result ≡ target (shown self.now) }
        ensures means { TargetMeans (shown self.now) result }
    {
        let mut best = Best::nobody();
        for (row, stack) in self.stacks().iter().enumerate() {
            // Narrowed: a bay has at most twelve.
            best = stack.best(row as u8 + 1, best);
        }
        if best.late < UNCALLED {
            Some((best.stack, best.above))
        } else {
            None
        }
    }

    // Whether a crate of the bay bears the label.
    pub fn bears(&self, label: Label) -> bool
        ensures { result ≡ nat_lt 0 (tally (bearing label) (shown self.now)) }
    {
        self.stacks().iter().any(|stack| stack.bears(label))
    }
}
