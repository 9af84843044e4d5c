ghost use Rattle.std.specs.Prelude.{◌≤◌};

use std::fmt;

// Two types, so that a call number never stands where a crate number is wanted.

// The number painted on a crate's side, for life: 1 to 4,294,967,295. Zero is no crate.
#[derive(Clone, Copy, Debug, PartialEq, Eq)]
pub struct CrateNumber {
    pub number: u32,
    ghost fits: { number ≤ 4294967295 },
}

// A call number, for one season: 1 to 65,535, in the order of leaving. Zero is no call: an uncalled crate has it.
#[derive(Clone, Copy, Debug, PartialEq, Eq)]
pub struct CallNumber {
    pub number: u16,
    ghost fits: { number ≤ 65535 },
}

impl fmt::Display for CrateNumber {
    fn fmt<W: fmt::Write>(&self, f: &mut fmt::Formatter<W>) -> fmt::Result {
        fmt::Display::fmt(&self.number, f)
    }
}

impl fmt::Display for CallNumber {
    fn fmt<W: fmt::Write>(&self, f: &mut fmt::Formatter<W>) -> fmt::Result {
        fmt::Display::fmt(&self.number, f)
    }
}
