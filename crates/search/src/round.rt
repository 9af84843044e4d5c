ghost use Rattle.std.specs.Prelude.{◌≡◌, ◌≤◌};
ghost use Rattle.bay.specs.Shown.{shown};
ghost use Rattle.search.specs.Rounds.{Aims, round_from};
ghost use Rattle.search.specs.Told.{end_told};
ghost use Rattle.search.specs.declared.workspace.TheConstants.{DEEPEST};

use crate::outcome::{Ended, Round};
use crate::workspace::{Frame, Frames};
use bay::work::WorkBay;
use bounds::bound::LowerBound;

// One round from a settled bay whose target is in stack `source`: depth first over the destinations of each bay, rising
// by number. Only branches that the bound keeps within the limit are gone into. One function with both loops, so that each
// way out of them is one jump.
pub(crate) fn round<B: LowerBound>(
    frames: &mut Frames,
    start: &WorkBay,
    source: u8,
    bound: &B,
    limit: u16,
    budget: u32,
    mut tries: u32,
) -> Round
    requires aims { Aims (shown start.now) source }
    requires low { limit ≤ DEEPEST }
    requires left { tries ≤ budget }
    ensures meaning { end_told result frames.new ≡ round_from (B.value bound.now) budget limit (shown start.now) tries }
    ensures within { result.tries ≤ budget }
{
    frames.clear();
    let mut at = Frame {
        bay: *start,
        source,
        destination: 1,
    };
    let mut cut = false;
    let ended = 'depth: loop {
        'destination: for to in at.destination..at.bay.count() + 1 {
            if !at.bay.is_open(at.source, to) {
                continue 'destination;
            }
            if tries == budget {
                break 'depth Ended::Spent;
            }
            tries += 1;
            let mut after = at.bay;
            after.carry(at.source, to);
            let target = after.settle();
            // Narrowed, no deeper than the limit: the sum of wider numbers runs slower.
            if limit < frames.len() as u16 + 1 + bound.estimate(&after) {
                cut = true;
                continue 'destination;
            }
            at.destination = to;
            frames.push(at);
            let Some((source, _)) = target else {
                break 'depth Ended::Found;
            };
            at = Frame {
                bay: after,
                source,
                destination: 1,
            };
            continue 'depth;
        }
        let Some(frame) = frames.pop() else {
            break 'depth if cut { Ended::Cut } else { Ended::Over };
        };
        // Taken up again, a bay goes on at the next destination.
        at = frame;
        at.destination += 1;
    };
    Round { ended, tries }
}
