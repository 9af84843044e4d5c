ghost use Rattle.std.specs.Prelude.{◌≡◌, ◌<◌, IfSome, vec_len};

use std::alloc::AllocError;

// How high a stack may be filled, and the calls of its crates, bottom first; an uncalled crate has none.
#[derive(Drop)]
pub struct Stack {
    pub clearance: u8,
    pub calls: Vec<Option<u8>>,
}

// A bay as a list of stacks, written for this comparison alone: every rule is looked up crate by crate.
#[derive(Drop)]
pub struct Small {
    pub stacks: Vec<Stack>,
}

// A called crate as it waits to leave: its call, the number of crates above it, and its stack, counted from 0. The least
// one leaves next.
#[derive(Clone, Copy, Debug, PartialEq, Eq, PartialOrd, Ord)]
pub struct Target {
    pub call: u8,
    pub above: usize,
    pub stack: usize,
}

impl Stack {
    // The earliest call of the stack, and the number of crates above the crate that has it.
    fn earliest(&self) -> Option<(u8, usize)> {
        self.calls
            .iter()
            .rev()
            .enumerate()
            .filter_map(|(above, call)| call.map(|call| (call, above)))
            .min()
    }

    pub(crate) fn has_space(&self) -> bool {
        self.calls.len() < usize::from(self.clearance)
    }
}

impl Small {
    pub(crate) fn target(&self) -> Option<Target>
        ensures { IfSome result (λ target. target.stack < vec_len self.now.stacks) }
    {
        self.stacks
            .iter()
            .enumerate()
            .filter_map(|(stack, s)| {
                s.earliest()
                    .map(|(call, above)| Target { call, above, stack })
            })
            .min()
    }

    // Takes the top crate of one stack to another.
    pub(crate) fn carry(&mut self, from: usize, to: usize) -> Result<(), AllocError>
        requires leaves { from < vec_len self.old.stacks }
        requires enters { to < vec_len self.old.stacks }
        ensures { vec_len self.new.stacks ≡ vec_len self.old.stacks }
    {
        if let Some(call) = self.stacks[from].calls.pop() {
            self.stacks[to].calls.push(call)?;
        }
        Ok(())
    }
}
