// The timing simulation of a table: the rules grouped by target, an order of the transitions found once, and one pull along it for each occurrence.
#![tactic(auto)]

mod group;
mod known;
mod order;
mod rows;
mod times;

ghost use Rattle.refusals.specs.Number.{told};
ghost use Rattle.simulation.specs.Simulation.{SimulationOf};
ghost use Rattle.simulation.specs.Refusals.{Judgement};

use refusals::{Refusal, Why};
use table::Table;

// Why a table is not simulated for so many occurrences into a buffer of `len` places: refused RANGE, SPAN, UNKNOWN, ROOM or LOOP, in this order.
fn refusal(t: Table, occurrences: usize, len: usize) -> Result<(), Refusal>
    ensures { Judgement t occurrences len result }
{
    table::check(t)?;
    if occurrences < Table::MIN_OCCURRENCES || Table::MAX_OCCURRENCES < occurrences {
        return Err(Why::Span.at(0));
    }
    if let Some(rule) = known::blank(t) {
        return Err(Why::Unknown.at(rule));
    }
    let needed = t.n * occurrences;
    if len < needed {
        return Err(Why::Room.at(needed));
    }
    engine::turns(t)
}

// The times of the first occurrences of every transition, row by row in the lowest places of `times`; or why not, and `times` stays as it was.
pub fn simulate(t: Table, occurrences: usize, times: &mut [u64]) -> Result<(), Refusal>
    ensures { SimulationOf t occurrences times.old (told result) times.new }
{
    refusal(t, occurrences, times.len())?;
    let c = columns::lay(t);
    times::written(&c.low(), occurrences, times); // no delay is unknown
    Ok(())
}
