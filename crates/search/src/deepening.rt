ghost use Rattle.std.specs.Prelude.{◌≡◌};
ghost use Rattle.bay.specs.Shown.{shown};
ghost use Rattle.model.specs.Claims.{Promised};
ghost use Rattle.model.specs.Search.{searched};
ghost use Rattle.search.specs.Told.{told, kind_told, plan_in, plan_of};

use crate::outcome::{Ended, Kind, Outcome, Round};
use crate::round::round;
use crate::workspace::Workspace;
use bay::work::WorkBay;
use bounds::bound::LowerBound;

// Iterative deepening: rounds with rising limits, from the bound of the settled bay on, until one finds a plan, the
// budget is used up, or a round cuts no branch and finds nothing. The destinations found are left in the workspace.
pub fn search<B: LowerBound>(
    bay: &WorkBay,
    bound: &B,
    budget: u32,
    space: &mut Workspace,
) -> Outcome
    ensures value { told result (plan_in space.new) ≡ searched (B.value bound.now) budget (shown bay.now) }
    ensures plan { plan_in space.new ≡ plan_of (kind_told result.kind (plan_in space.new)) }
    ensures promise { Promised (B.value bound.now) budget (shown bay.now) (kind_told result.kind (plan_in space.new)) result.tries }
{
    space.plan.clear();
    let mut start = *bay;
    let Some((source, _)) = start.settle() else {
        return Outcome {
            kind: Kind::Fewest(0),
            tries: 0,
        };
    };
    let mut limit = bound.estimate(&start);
    let mut tries = 0;
    // Not a `for` over the limits: that would want an answer after the last one.
    loop {
        let Round { ended, tries: made } = round(
            &mut space.frames,
            &start,
            source,
            bound,
            limit,
            budget,
            tries,
        );
        let kind = match ended {
            Ended::Found => Kind::Fewest(space.keep_plan()),
            Ended::Spent => Kind::AtLeast(limit),
            Ended::Over => Kind::NoWay,
            Ended::Cut => {
                tries = made;
                limit += 1;
                continue;
            }
        };
        return Outcome { kind, tries: made };
    }
}
