use bay::faults::BuildFault;
use bay::slot::Slot;
use bay::work::WorkBay;
use bounds::blocking::BlockingCount;
use bounds::bound::LowerBound;
use bounds::look_ahead::LookAhead;
use bounds::null::NullBound;
use model::numbers::{CallNumber, CrateNumber};
use search::deepening::search;
use search::outcome::{Kind, Outcome};
use search::workspace::Workspace;
use std::fmt::Debug;
use std::ops::RangeFrom;
use std::test::Fail;

// A failure of the test that shows what was found and what was expected.
fn check_eq<T: PartialEq + Debug + Drop>(found: T, expected: T) -> Result<(), Fail> {
    if found == expected {
        Ok(())
    } else {
        Err(Fail::new(format_args!("found {found:?}, expected {expected:?}")))
    }
}

// A bay by its clearance and the calls of its stacks, bottom first, 0 for uncalled; crates are numbered as they are laid down.
fn bay_of(clearance: u8, stacks: &[&[u16]]) -> Result<WorkBay, BuildFault> {
    let mut bay = WorkBay::new();
    let mut numbers = 1..;
    for (place, calls) in (1..).zip(stacks) {
        bay.add_stack(clearance)?;
        fill(&mut bay, place, calls, &mut numbers)?;
    }
    Ok(bay)
}

fn fill(
    bay: &mut WorkBay,
    place: u8,
    calls: &[u16],
    numbers: &mut RangeFrom<u32>,
) -> Result<(), BuildFault> {
    for (call, number) in calls.iter().zip(numbers) {
        let slot = Slot {
            number: CrateNumber { number },
            call: CallNumber { number: *call },
        };
        bay.add_crate(place, slot)?;
    }
    Ok(())
}

// Holds a search to its outcome, its tries and its destinations.
fn expect<B: LowerBound>(
    rt: &HostRuntime,
    bay: &WorkBay,
    bound: &B,
    budget: u32,
    kind: Kind,
    tries: u32,
    plan: &[u8],
) -> Result<(), Fail> {
    let mut space = Workspace::new(rt.alloc())?;
    let outcome = search(bay, bound, budget, &mut space);
    check_eq(outcome, Outcome { kind, tries })?;
    check_eq(space.destinations(), plan)
}

// The same outcome under the null bound, the blocking count and the look-ahead, after so many tries each.
fn expect_all(
    rt: &HostRuntime,
    bay: &WorkBay,
    kind: Kind,
    tries: [u32; 3],
    plan: &[u8],
) -> Result<(), Fail> {
    let [null, blocking, look_ahead] = tries;
    expect(rt, bay, &NullBound, 1000000, kind, null, plan)?;
    expect(rt, bay, &BlockingCount, 1000000, kind, blocking, plan)?;
    expect(rt, bay, &LookAhead, 1000000, kind, look_ahead, plan)
}

#[test]
fn no_stacks(rt: HostRuntime) -> Result<(), Fail> {
    expect_all(&rt, &WorkBay::new(), Kind::Fewest(0), [0, 0, 0], &[])
}

#[test]
fn in_order_already(rt: HostRuntime) -> Result<(), Fail> {
    let bay = bay_of(2, &[&[2, 1]])?;
    expect_all(&rt, &bay, Kind::Fewest(0), [0, 0, 0], &[])
}

#[test]
fn one_stack_and_nowhere_to_go(rt: HostRuntime) -> Result<(), Fail> {
    let bay = bay_of(2, &[&[1, 2]])?;
    expect_all(&rt, &bay, Kind::NoWay, [0, 0, 0], &[])
}

#[test]
fn one_blocker_one_free_stack(rt: HostRuntime) -> Result<(), Fail> {
    let bay = bay_of(2, &[&[1, 2], &[]])?;
    expect_all(&rt, &bay, Kind::Fewest(1), [2, 1, 1], &[2])
}

#[test]
fn one_blocker_moved_twice(rt: HostRuntime) -> Result<(), Fail> {
    let bay = bay_of(3, &[&[1, 3], &[2]])?;
    expect_all(&rt, &bay, Kind::Fewest(2), [5, 3, 2], &[2, 1])
}

#[test]
fn budgets_around_the_last_try(rt: HostRuntime) -> Result<(), Fail> {
    let bay = bay_of(3, &[&[1, 3], &[2]])?;
    expect(&rt, &bay, &BlockingCount, 3, Kind::Fewest(2), 3, &[2, 1])?;
    expect(&rt, &bay, &BlockingCount, 2, Kind::AtLeast(2), 2, &[])?;
    expect(&rt, &bay, &BlockingCount, 0, Kind::AtLeast(1), 0, &[])
}

#[test]
fn free_stack_without_clearance(rt: HostRuntime) -> Result<(), Fail> {
    let mut bay = bay_of(2, &[&[1, 2]])?;
    bay.add_stack(0)?;
    expect_all(&rt, &bay, Kind::NoWay, [0, 0, 0], &[])
}

#[test]
fn dead_end(rt: HostRuntime) -> Result<(), Fail> {
    let bay = bay_of(3, &[&[1, 3, 2], &[5, 4]])?;
    expect_all(&rt, &bay, Kind::NoWay, [2, 1, 2], &[])
}

#[test]
fn uncalled_crate_on_top(rt: HostRuntime) -> Result<(), Fail> {
    let bay = bay_of(2, &[&[1, 0], &[0]])?;
    expect(&rt, &bay, &BlockingCount, 1000000, Kind::Fewest(1), 1, &[2])
}
