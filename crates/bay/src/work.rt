ghost use Rattle.std.specs.Prelude.{◌≡◌, ◌≤◌, length};
ghost use Rattle.bay.specs.Stacks.{bay_of, CratesOnce, CallsApart, InRange};

use crate::stack::Stack;

mod ask;
mod build;
mod change;
mod find;
mod moves;

// The bay that a search works on: flat, with no memory of its own elsewhere, so that a copy is one block.
// Every value is a sound bay. It is seen through `shown`: a struct that is copied has a model only if that forgets nothing,
// and what lies above a stack's height is forgotten.
#[derive(Clone, Copy)]
pub struct WorkBay {
    count: u8,
    stacks: [Stack; 12],
    ghost few: { count ≤ 12 },
    ghost whole: { length stacks ≡ 12 },
    ghost once: { CratesOnce (bay_of count stacks) },
    ghost apart: { CallsApart (bay_of count stacks) },
    ghost ranged: { InRange (bay_of count stacks) },
}
