#![tactic(auto)]

ghost use Rattle.std.specs.Prelude.{◌≡◌};
ghost use Rattle.bay.specs.Shown.{shown};
ghost use Rattle.model.specs.Carrying.{LegalRun, after_all};
ghost use Rattle.model.specs.Search.{searched};
ghost use Rattle.search.specs.Told.{told, plan_in};
ghost use Rattle.planner.specs.Plan.{bound_of, move_of, moves_of, Makes};

use anyhow::Context;
use bay::work::WorkBay;
use bounds::blocking::BlockingCount;
use bounds::look_ahead::LookAhead;
use bounds::null::NullBound;
use search::carrying::moves;
use search::deepening::search;
use search::moves::Move;
use search::outcome::{Kind, Outcome};
use search::workspace::Workspace;
use std::alloc::Global;
use std::io;
use std::io::Read;
use std::process::ExitCode;
use text::picture::Picture;
use text::read::read_requests;
use text::request::{BoundChoice, Request};

// The outcome of the search that a request asks for; the plan is left in the workspace. Each bound is another type.
fn plan(request: &Request, space: &mut Workspace) -> Outcome
    ensures { told result (plan_in space.new)
        ≡ searched (bound_of request.now.bound) request.now.budget (shown request.now.bay) }
{
    match request.bound {
        BoundChoice::Null => search(&request.bay, &NullBound, request.budget, space),
        BoundChoice::Blocking => search(&request.bay, &BlockingCount, request.budget, space),
        BoundChoice::LookAhead => search(&request.bay, &LookAhead, request.budget, space),
    }
}

// Makes a move that the search told. The cases carry what each needs.
fn make(bay: &mut WorkBay, made: Move)
    ensures { Makes (move_of made) (shown bay.old) (shown bay.new) }
{
    let _ = match made {
        Move::Relocate { to, .. } => bay.relocate(to),
        Move::Retrieve { .. } => bay.retrieve(),
    };
}

// The bay after moves that the search told: where each is legal, it is made.
fn after(bay: &WorkBay, list: &[Move]) -> WorkBay
    ensures { LegalRun (shown bay.now) (moves_of list.now)
        → shown result ≡ after_all (shown bay.now) (moves_of list.now) }
{
    let mut here = *bay;
    for made in list {
        make(&mut here, *made);
    }
    here
}

fn print_moves(rt: &impl Print, list: &[Move]) -> io::Result<()> {
    for (number, made) in (1..).zip(list) {
        println!(rt; "  {number:>3}. {made}")?;
    }
    Ok(())
}

fn answer(
    rt: &impl Print,
    alloc: Global,
    request: &Request,
    space: &mut Workspace,
) -> anyhow::Result<()> {
    let outcome = plan(request, space);
    let bay = &request.bay;
    println!(rt; "The bay:")?;
    print!(rt; "{}", Picture { bay })?;
    println!(rt; "{outcome}")?;
    if let Kind::Fewest(_) = outcome.kind {
        let list = moves(alloc, bay, space.destinations())?;
        print_moves(rt, &list)?;
        println!(rt; "The bay after the last move:")?;
        let last = after(bay, &list);
        print!(rt; "{}", Picture { bay: &last })?;
    }
    Ok(())
}

fn run(rt: &impl Print, alloc: Global, input: &mut impl Read) -> anyhow::Result<()> {
    let mut bytes = Vec::new(alloc);
    input.read_to_end(&mut bytes)?;
    let text = str::from_utf8(&bytes).context(
        "the input is not UTF-8 text: write the bay as lines of words.",
    )?;
    let requests = read_requests(alloc, text)?;
    let mut space = Workspace::new(alloc)?;
    for request in &requests {
        answer(rt, alloc, request, &mut space)?;
    }
    Ok(())
}

// A fault is one line on standard error. That even that line may not be written changes nothing: the status says it.
fn main(rt: HostRuntime) -> ExitCode {
    match run(&rt, rt.alloc(), &mut rt.stdin()) {
        Ok(()) => ExitCode::SUCCESS,
        Err(fault) => {
            let _ = eprintln!(rt; "planner: {fault}");
            ExitCode::FAILURE
        }
    }
}
