ghost use Rattle.model.specs.Worked.{Worked};

// Outcomes, destinations and tries of the worked bays, as theorems about the definitions that the contracts of the
// search and of the bounds use. Answers how many bays there are.
pub fn worked_bays() -> u8
    ensures { Worked }
{
    8
}
