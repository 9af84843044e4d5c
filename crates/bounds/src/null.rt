ghost use Rattle.model.specs.Bounds.{null};
ghost use Rattle.model.proofs.LookAhead.{null_honest};

use crate::bound::LowerBound;
use bay::work::WorkBay;

// The bound that knows nothing: 0 for every bay.
#[derive(Clone, Copy)]
pub struct NullBound;

impl LowerBound for NullBound {
    ghost value = { λ _. null };

    ghost honest = { λ bound. null_honest };

    fn estimate(&self, bay: &WorkBay) -> u16 {
        0
    }
}
