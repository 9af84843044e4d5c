ghost use Rattle.std.specs.Prelude.{◌≡◌, []};
ghost use Rattle.bay.specs.Shown.{shown};
ghost use Rattle.text.specs.declared.request.BoundChoice.TheVariants.{LookAhead};

use crate::fault::Reason;
use bay::work::WorkBay;
use std::str::FromStr;

// Which lower bound the planner is asked to use.
#[derive(Clone, Copy, Debug, PartialEq, Eq)]
pub enum BoundChoice {
    Null,
    Blocking,
    LookAhead,
}

impl FromStr for BoundChoice {
    type Err = Reason;

    ghost use Rattle.text.specs.Choice.{ParsesBound};

    ghost from_str_gives = { ParsesBound };

    fn from_str(word: &str) -> Result<BoundChoice, Reason> {
        match word {
            "null" => Ok(BoundChoice::Null),
            "blocking" => Ok(BoundChoice::Blocking),
            "lookahead" => Ok(BoundChoice::LookAhead),
            _ => Err(Reason::Bound),
        }
    }
}

// What the planner is asked: a bay with its calls, a bound and a budget of tries.
#[derive(Clone, Copy)]
pub struct Request {
    pub bay: WorkBay,
    pub bound: BoundChoice,
    pub budget: u32,
}

impl Request {
    // A bay without stacks, to be planned with the look-ahead and at most 1,000,000 tries.
    pub fn new() -> Request
        ensures bay { shown result.bay ≡ [] }
        ensures bound { result.bound ≡ LookAhead }
        ensures budget { result.budget ≡ 1000000 }
    {
        Request {
            bay: WorkBay::new(),
            bound: BoundChoice::LookAhead,
            budget: 1000000,
        }
    }
}
