ghost use Rattle.std.specs.Prelude.{◌≡◌, ℕ};
ghost use Rattle.bay.specs.Shown.{shown};
ghost use Rattle.model.specs.Bays.{Bay};
ghost use Rattle.model.specs.Claims.{Honest};

use bay::work::WorkBay;

// A lower bound on the relocations that a bay needs. It means a number for each bay, and its law is honesty:
// no legal handling of a sound bay has fewer relocations, and the number is at most 672.
pub trait LowerBound: Sized {
    ghost value: { Self → Bay → ℕ };

    fn estimate(&self, bay: &WorkBay) -> u16
        ensures { result ≡ value self.now (shown bay.now) };

    ghost honest: { (bound : Self) → Honest (value bound) };
}
