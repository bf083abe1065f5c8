// The phases of a batch.
ghost use Rattle.std.specs.Prelude.{◌≡◌};
ghost use Rattle.plant_questions.specs.Phases.{phases_in};

use crate::question::MeasuredLine;
use plant_recipe::is_phase;

/// How many phases a control recipe has.
pub fn phases_in(lines: &[MeasuredLine]) -> usize
    ensures { result ≡ phases_in lines.now }
{
    lines.iter().filter(|l| is_phase(l.line.line)).count()
}
