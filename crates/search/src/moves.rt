use model::numbers::CrateNumber;
use std::fmt;

// A legal move that was made: a crate carried from one stack to another, or handed out from a stack.
#[derive(Clone, Copy, Debug, PartialEq, Eq)]
pub enum Move {
    Relocate {
        crate_number: CrateNumber,
        from: u8,
        to: u8,
    },
    Retrieve {
        crate_number: CrateNumber,
        stack: u8,
    },
}

impl fmt::Display for Move {
    fn fmt<W: fmt::Write>(&self, f: &mut fmt::Formatter<W>) -> fmt::Result {
        match self {
            Move::Relocate {
                crate_number,
                from,
                to,
            } => write!(
                f,
                "relocate crate {crate_number} from stack {from} to stack {to}"
            ),
            Move::Retrieve {
                crate_number,
                stack,
            } => write!(f, "hand out crate {crate_number} from stack {stack}"),
        }
    }
}
