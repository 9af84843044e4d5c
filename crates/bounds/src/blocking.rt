ghost use Rattle.std.specs.Prelude.{◌≡◌, ◌≤◌};
ghost use Rattle.bay.specs.Stacks.{stack_shown};
ghost use Rattle.model.specs.Bounds.{blockers as blocking_in, blocking};
ghost use Rattle.model.proofs.LookAhead.{blocking_is_honest};

use crate::bound::LowerBound;
use bay::slot::UNCALLED;
use bay::stack::Stack;
use bay::work::WorkBay;

// The number of crates that stand above an earlier-called crate of their stack. Each has to be relocated at least once.
#[derive(Clone, Copy)]
pub struct BlockingCount;

// The crates of one stack with an earlier-called one anywhere below.
fn blockers(stack: &Stack) -> u16
    ensures value { result ≡ blocking_in 65536 (stack_shown stack.now).items }
    ensures small { result ≤ 8 }
{
    let mut count = 0;
    let mut earliest = UNCALLED;
    for slot in stack.slots() {
        let late = slot.lateness();
        if earliest < late {
            count += 1;
        } else {
            earliest = late;
        }
    }
    count
}

impl LowerBound for BlockingCount {
    ghost value = { λ _. blocking };

    ghost honest = { λ bound. blocking_is_honest };

    fn estimate(&self, bay: &WorkBay) -> u16 {
        let mut count = 0;
        for stack in bay.stacks() {
            count += blockers(stack);
        }
        count
    }
}
