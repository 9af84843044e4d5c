ghost use Rattle.std.specs.Prelude.{IfOk};
ghost use Rattle.bay.specs.Shown.{shown};
ghost use Rattle.model.specs.Carrying.{CarriedOut};
ghost use Rattle.search.specs.Steps.{steps_told};

use crate::moves::Move;
use bay::work::WorkBay;
use std::alloc::{AllocError, Global};

// The moves that carry out a list of destinations, from the bay as it is: crates are handed out as long as the target is
// on top, else the next destination is taken, until none is left or it is not legal.
pub fn moves(alloc: Global, bay: &WorkBay, destinations: &[u8]) -> Result<Vec<Move>, AllocError>
    ensures { IfOk result (λ v. CarriedOut (shown bay.now) destinations.now (steps_told v.items)) }
{
    let mut here = *bay;
    let mut made = Vec::new(alloc);
    let mut rest = destinations.iter();
    loop {
        if let Some((crate_number, stack)) = here.retrieve() {
            made.push(Move::Retrieve {
                crate_number,
                stack,
            })?;
            continue;
        }
        let Some(to) = rest.next() else {
            return Ok(made);
        };
        let Some((crate_number, from)) = here.relocate(*to) else {
            return Ok(made);
        };
        made.push(Move::Relocate {
            crate_number,
            from,
            to: *to,
        })?;
    }
}
