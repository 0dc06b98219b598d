// Where the first blank of a table within its limits is.
ghost use Rattle.table.specs.Fields.{Within};
ghost use Rattle.simulation.specs.Blanks.{BlankAt};

use table::{Delay, Table};

// The lowest rule with an unknown delay.
pub fn blank(t: Table) -> Option<usize>
    requires { Within t }
    ensures { BlankAt t result }
{
    for r in 0..t.m {
        let delay = t.rules[r].delay;
        if let Delay::Unknown = delay {
            return Some(r);
        }
    }
    None
}
