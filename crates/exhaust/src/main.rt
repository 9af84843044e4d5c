#![tactic(auto)]

ghost use Rattle.std.specs.Prelude.{◌<◌};

mod every;
mod small;

use bay::faults::BuildFault;
use bay::slot::Slot;
use bay::work::WorkBay;
use bounds::blocking::BlockingCount;
use bounds::bound::LowerBound;
use bounds::look_ahead::LookAhead;
use bounds::null::NullBound;
use every::shortest_handling;
use model::numbers::{CallNumber, CrateNumber};
use search::deepening::search;
use search::outcome::Kind;
use search::workspace::Workspace;
use small::{Small, Stack};
use std::alloc::{AllocError, Global};
use std::ops::RangeFrom;

// Numbers that look random and are the same on every run.
#[derive(Clone, Copy)]
struct Dice {
    state: u32,
}

impl Dice {
    // A number below `sides`; 0 where there are none.
    fn roll(&mut self, sides: u32) -> u32
        ensures { 0 < sides → result < sides }
    {
        self.state = self.state.wrapping_mul(1664525).wrapping_add(1013904223);
        (self.state >> 16).checked_rem(sides).unwrap_or(0)
    }
}

// A stack with a clearance of 0 to 4 and up to three crates. Three in four are given a call drawn at random: one that was
// drawn before is not there to be given again, and the crate stays uncalled.
fn roll_stack(
    alloc: Global,
    dice: &mut Dice,
    calls: &mut [Option<u8>; 6],
) -> Result<Stack, AllocError> {
    // What the dice show is small: `as`, since std has nothing else that cannot fail.
    let mut stack = Stack {
        clearance: dice.roll(5) as u8,
        calls: Vec::new(alloc),
    };
    for _ in 0..dice.roll(4) {
        let pick = dice.roll(6) as usize;
        let call = if dice.roll(4) > 0 {
            calls[pick].take()
        } else {
            None
        };
        stack.calls.push(call)?;
    }
    Ok(stack)
}

// A bay of up to three stacks.
fn roll_bay(alloc: Global, dice: &mut Dice) -> Result<Small, AllocError> {
    let mut calls = [1, 2, 3, 4, 5, 6].map(Some);
    let mut stacks = Vec::new(alloc);
    for _ in 0..dice.roll(4) {
        stacks.push(roll_stack(alloc, dice, &mut calls)?)?;
    }
    Ok(Small { stacks })
}

// One stack more for the planner, its crates with the next of the numbers.
fn build_stack(
    bay: &mut WorkBay,
    place: u8,
    stack: &Stack,
    numbers: &mut RangeFrom<u32>,
) -> Result<(), BuildFault> {
    bay.add_stack(stack.clearance)?;
    for (call, number) in stack.calls.iter().zip(numbers) {
        let slot = Slot {
            number: CrateNumber { number },
            call: CallNumber {
                number: call.map_or(0, u16::from),
            },
        };
        bay.add_crate(place, slot)?;
    }
    Ok(())
}

// The same bay for the planner, built from lists of this comparison alone.
fn build(small: &Small) -> Result<WorkBay, BuildFault> {
    let mut bay = WorkBay::new();
    let mut numbers = 1..;
    for (place, stack) in (1..).zip(&small.stacks) {
        build_stack(&mut bay, place, stack, &mut numbers)?;
    }
    Ok(bay)
}

// Whether the search under a bound answers what going through every handling showed, and the bound is honest.
fn agrees<B: LowerBound>(
    bay: &WorkBay,
    bound: &B,
    best: Option<&[usize]>,
    space: &mut Workspace,
) -> bool {
    let outcome = search(bay, bound, 4000000000, space);
    match (outcome.kind, best) {
        (Kind::Fewest(n), Some(best)) => usize::from(n) == best.len()
            && space
                .destinations()
                .iter()
                .map(|&to| usize::from(to))
                .eq(best.iter().copied())
            && usize::from(bound.estimate(bay)) <= best.len(),
        (Kind::NoWay, None) => true,
        _ => false,
    }
}

fn run(rt: &impl Print, alloc: Global) -> anyhow::Result<()> {
    let mut dice = Dice { state: 20261118 };
    let mut space = Workspace::new(alloc)?;
    let mut agreed = 0u32;
    let mut with_plan = 0u32;
    let mut longest = 0;
    for _ in 0..600u32 {
        let small = roll_bay(alloc, &mut dice)?;
        let bay = build(&small)?;
        let shortest = shortest_handling(alloc, small, 60)?;
        let best = shortest.as_deref();
        if agrees(&bay, &NullBound, best, &mut space)
            && agrees(&bay, &BlockingCount, best, &mut space)
            && agrees(&bay, &LookAhead, best, &mut space)
        {
            agreed += 1;
        }
        if let Some(best) = best {
            with_plan += 1;
            longest = best.len().max(longest);
        }
    }
    println!(rt;
        "of 600 bays, {agreed} agree under all three bounds; {with_plan} have a legal handling, the longest shortest one with {longest} relocations"
    )?;
    Ok(())
}

fn main(rt: HostRuntime) -> anyhow::Result<()> {
    run(&rt, rt.alloc())
}
