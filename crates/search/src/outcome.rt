use std::fmt;

// What a search came to: the fewest relocations; a number that no legal handling goes below; that there is no legal handling.
#[derive(Clone, Copy, Debug, PartialEq, Eq)]
pub enum Kind {
    Fewest(u16),
    AtLeast(u16),
    NoWay,
}

// The outcome of a search, and the number of tries that it made.
#[derive(Clone, Copy, Debug, PartialEq, Eq)]
pub struct Outcome {
    pub kind: Kind,
    pub tries: u32,
}

impl fmt::Display for Outcome {
    fn fmt<W: fmt::Write>(&self, f: &mut fmt::Formatter<W>) -> fmt::Result {
        let tries = self.tries;
        match self.kind {
            Kind::Fewest(n) => write!(f, "fewest relocations: {n}, found after {tries} tries"),
            Kind::AtLeast(n) => write!(
                f,
                "at least {n} relocations: the budget was used up after {tries} tries"
            ),
            Kind::NoWay => write!(
                f,
                "no way: no legal handling brings out every called crate, shown in {tries} tries"
            ),
        }
    }
}

// How a round ended: with a plan, with the budget used up, or with nothing, after a branch was cut or with none cut.
#[derive(Clone, Copy, Debug, PartialEq, Eq)]
pub(crate) enum Ended {
    Found,
    Spent,
    Cut,
    Over,
}

// The end of a round, with the tries made so far.
#[derive(Clone, Copy, Debug, PartialEq, Eq)]
pub(crate) struct Round {
    pub(crate) ended: Ended,
    pub(crate) tries: u32,
}
