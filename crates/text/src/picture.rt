use bay::slot::Slot;
use bay::work::WorkBay;
use std::fmt;

// A bay drawn as its stacks side by side, the highest tier first; a crate is its number, with ':' and its call if it has one.
#[derive(Drop)]
pub struct Picture<'a> {
    pub bay: &'a WorkBay,
}

// What stands at one tier of one stack.
fn write_slot<W: fmt::Write>(f: &mut fmt::Formatter<W>, slot: Option<&Slot>) -> fmt::Result {
    match slot {
        None => write!(f, "{:18}|", ""),
        Some(Slot { number, call }) if call.number == 0 => write!(f, " {number:>10}       |"),
        Some(Slot { number, call }) => write!(f, " {number:>10}:{call:<5} |"),
    }
}

impl Picture<'_> {
    // The number of crates in the highest stack.
    fn highest(&self) -> usize {
        self.bay
            .stacks()
            .iter()
            .map(|stack| stack.slots().len())
            .max()
            .unwrap_or(0)
    }

    // The crates that have so many below them.
    fn write_tier<W: fmt::Write>(&self, f: &mut fmt::Formatter<W>, below: usize) -> fmt::Result {
        write!(f, "  tier {} |", below.saturating_add(1))?;
        for stack in self.bay.stacks() {
            write_slot(f, stack.slots().get(below))?;
        }
        writeln!(f)
    }

    // The line under the stacks: their numbers and clearances.
    fn write_floor<W: fmt::Write>(&self, f: &mut fmt::Formatter<W>) -> fmt::Result {
        if self.bay.stacks().is_empty() {
            return writeln!(f, "  (no stacks)");
        }
        write!(f, "         ")?;
        for (number, stack) in (1u8..).zip(self.bay.stacks()) {
            write!(f, "  stack {number:<2} clear {}", stack.clearance())?;
        }
        writeln!(f)
    }
}

impl fmt::Display for Picture<'_> {
    fn fmt<W: fmt::Write>(&self, f: &mut fmt::Formatter<W>) -> fmt::Result {
        for below in (0..self.highest()).rev() {
            self.write_tier(f, below)?;
        }
        self.write_floor(f)
    }
}
