use std::error::Error;
use std::fmt;

// Why a bay cannot be built further.
#[derive(Clone, Copy, Debug, PartialEq, Eq)]
pub enum BuildFault {
    TooManyStacks,
    ClearanceTooHigh,
    NoSuchStack,
    StackFull,
    CrateZero,
    CrateTwice,
    CallTwice,
}

impl fmt::Display for BuildFault {
    fn fmt<W: fmt::Write>(&self, f: &mut fmt::Formatter<W>) -> fmt::Result {
        f.write_str(match self {
            BuildFault::TooManyStacks => "expected no more stacks: a bay has at most 12",
            BuildFault::ClearanceTooHigh => "expected a clearance of at most 8",
            BuildFault::NoSuchStack => "expected a stack that is there",
            BuildFault::StackFull => "expected no more crates: a stack holds at most 8",
            BuildFault::CrateZero => "expected a crate number from 1 to 4294967295",
            BuildFault::CrateTwice => "expected a crate number that does not stand in the bay yet",
            BuildFault::CallTwice => "expected a call number that no other crate has",
        })
    }
}

impl Error for BuildFault {}

// What is looked for on the crates of a bay: two cases, which contracts count by, and not a test of the caller's.
#[derive(Clone, Copy, Debug, PartialEq, Eq)]
pub enum Label {
    Crate(u32),
    Call(u16),
}
