ghost use Rattle.std.specs.Prelude.{◌≡◌};
ghost use Rattle.text.specs.declared.fault.Reason.TheVariants.{Build};
ghost use Rattle.text.specs.declared.fault.ReadFault.TheVariants.{Text, Memory};

use bay::faults::BuildFault;
use std::alloc::AllocFailed;
use std::error::Error;
use std::fmt;

// What is wrong with a word, or with the line that should have one.
#[derive(Clone, Copy, Debug, PartialEq, Eq)]
pub enum Reason {
    UnknownLine,
    NoClearance,
    Clearance,
    Crate,
    Call,
    NoBound,
    Bound,
    NoBudget,
    Budget,
    Extra,
    Build(BuildFault),
}

// Where a request could not be read, and why; lines and words are counted from 1.
#[derive(Clone, Copy, Debug, PartialEq, Eq)]
pub struct TextFault {
    pub line: usize,
    pub word: usize,
    pub reason: Reason,
}

// Why requests could not be read: a fault of the text, or no memory for them.
#[derive(Clone, Copy, Debug, PartialEq, Eq)]
pub enum ReadFault {
    Text(TextFault),
    Memory,
}

impl From<BuildFault> for Reason {
    ghost from_gives = { λ fault reason. reason ≡ Build fault };

    fn from(fault: BuildFault) -> Reason {
        Reason::Build(fault)
    }
}

impl From<TextFault> for ReadFault {
    ghost from_gives = { λ fault read. read ≡ Text fault };

    fn from(fault: TextFault) -> ReadFault {
        ReadFault::Text(fault)
    }
}

impl<T: Drop> From<AllocFailed<T>> for ReadFault {
    ghost from_gives = { λ _ read. read ≡ Memory };

    fn from(_refused: AllocFailed<T>) -> ReadFault {
        ReadFault::Memory
    }
}

// What was expected in place of what could not be read.
impl fmt::Display for Reason {
    fn fmt<W: fmt::Write>(&self, f: &mut fmt::Formatter<W>) -> fmt::Result {
        f.write_str(match self {
            Reason::UnknownLine =>
                "expected a line that begins with 'stack', 'bound', 'budget' or 'next'",
            Reason::NoClearance =>
                "expected the stack's clearance, a number from 0 to 8, after 'stack'",
            Reason::Clearance => "expected the stack's clearance, a number from 0 to 8",
            Reason::Crate =>
                "expected a crate number from 1 to 4294967295, alone or with ':' and its call number",
            Reason::Call => "expected a call number from 1 to 65535 after the ':'",
            Reason::NoBound => "expected 'null', 'blocking' or 'lookahead' after 'bound'",
            Reason::Bound => "expected 'null', 'blocking' or 'lookahead'",
            Reason::NoBudget => "expected the number of tries, 0 to 4294967295, after 'budget'",
            Reason::Budget => "expected the number of tries, 0 to 4294967295",
            Reason::Extra => "expected the end of the line: this line takes no more words",
            Reason::Build(fault) => return write!(f, "{fault}"),
        })
    }
}

impl fmt::Display for TextFault {
    fn fmt<W: fmt::Write>(&self, f: &mut fmt::Formatter<W>) -> fmt::Result {
        let TextFault { line, word, reason } = self;
        write!(f, "line {line}, word {word}: {reason}.")
    }
}

impl fmt::Display for ReadFault {
    fn fmt<W: fmt::Write>(&self, f: &mut fmt::Formatter<W>) -> fmt::Result {
        match self {
            ReadFault::Text(fault) => write!(f, "{fault}"),
            ReadFault::Memory => write!(f, "there is not enough memory for so many requests."),
        }
    }
}

impl Error for Reason {}

impl Error for TextFault {}

impl Error for ReadFault {}
