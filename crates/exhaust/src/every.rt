ghost use Rattle.std.specs.Prelude.{◌≡◌, vec_len};

use crate::small::Small;
use std::alloc::{AllocError, Global};

// A walk through the legal handlings of a bay: the bay as it is now, the destinations, numbered from 1, of the
// relocations that led there, and the first of the shortest handlings that were met.
#[derive(Drop)]
struct Walk {
    bay: Small,
    made: Vec<usize>,
    best: Option<Vec<usize>>,
}

impl Walk {
    // Keeps the handling that was just made if none as short was met.
    fn keep(&mut self) -> Result<(), AllocError>
        ensures { self.new.bay ≡ self.old.bay }
    {
        let made = self.made.len();
        if self.best.as_ref().is_none_or(|best| made < best.len()) {
            self.best = Some(self.made.clone()?);
        }
        Ok(())
    }

    // Goes on with every legal move, destinations rising, and takes each back.
    fn go_on(&mut self, fuel: u8) -> Result<(), AllocError>
        ensures { vec_len self.new.bay.stacks ≡ vec_len self.old.bay.stacks }
    {
        let Some(target) = self.bay.target() else {
            return self.keep();
        };
        if fuel == 0 {
            return Ok(());
        }
        if target.above == 0 {
            self.bay.stacks[target.stack].calls.pop();
            self.go_on(fuel - 1)?;
            self.bay.stacks[target.stack].calls.push(Some(target.call))?;
            return Ok(());
        }
        // By place: the bay changes on the way.
        for to in 0..self.bay.stacks.len() {
            if to != target.stack && self.bay.stacks[to].has_space() {
                self.bay.carry(target.stack, to)?;
                self.made.push(to + 1)?;
                self.go_on(fuel - 1)?;
                self.made.pop();
                self.bay.carry(to, target.stack)?;
            }
        }
        Ok(())
    }
}

// The destinations of the first of the shortest legal handlings of a bay, of those with at most `fuel` moves.
pub(crate) fn shortest_handling(
    alloc: Global,
    bay: Small,
    fuel: u8,
) -> Result<Option<Vec<usize>>, AllocError> {
    let mut walk = Walk {
        bay,
        made: Vec::new(alloc),
        best: None,
    };
    walk.go_on(fuel)?;
    Ok(walk.best)
}
