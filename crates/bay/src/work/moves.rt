ghost use Rattle.std.specs.Prelude.{◌≡◌, if◌then◌else◌};
ghost use Rattle.model.specs.Bays.{relocated};
ghost use Rattle.model.specs.Targets.{target};
ghost use Rattle.model.specs.Moves.{settle, retrieve as retrieving, relocate as relocating};
ghost use Rattle.bay.specs.Ask.{carries};
ghost use Rattle.bay.specs.Move.{MoveTold};
ghost use Rattle.bay.specs.Shown.{shown};

use crate::work::WorkBay;
use model::numbers::CrateNumber;

impl WorkBay {
    // Carries the top crate of one stack to another that has space; false, and nothing changed, where it cannot be.
    pub fn carry(&mut self, from: u8, to: u8) -> bool
        ensures says { result ≡ carries (shown self.old) from to }
        ensures after { shown self.new ≡ (if result then relocated (shown self.old) from to else shown self.old) }
    {
        if self.height(from) == 0 || !self.is_open(from, to) {
            return false;
        }
        let slot = self.top(from);
        self.take_off(from, 1);
        self.put(to, slot);
        true
    }

    // Hands out the target if it is on top, and tells its number and its stack.
    pub fn retrieve(&mut self) -> Option<(CrateNumber, u8)>
        ensures { MoveTold (shown self.old) retrieving (shown self.new) result }
    {
        let (s, above) = self.target()?;
        if above > 0 {
            return None;
        }
        let slot = self.top(s);
        self.take_off(s, 1);
        Some((slot.number, s))
    }

    // Carries the top crate of the target's stack to another if that is legal, and tells its number and the stack it left.
    pub fn relocate(&mut self, to: u8) -> Option<(CrateNumber, u8)>
        ensures { MoveTold (shown self.old) (relocating to) (shown self.new) result }
    {
        let (s, above) = self.target()?;
        if above == 0 {
            return None;
        }
        let slot = self.top(s);
        self.carry(s, to).then_some((slot.number, s))
    }

    // Hands out targets while the target is on top, and tells the target that is left, as the target finder does.
    pub fn settle(&mut self) -> Option<(u8, u8)>
        ensures after { shown self.new ≡ settle (shown self.old) }
        ensures value { result ≡ target (shown self.new) }
    {
        while let Some((source, above)) = self.target() {
            if above > 0 {
                return Some((source, above));
            }
            self.take_off(source, 1);
        }
        None
    }
}
