// The two ends alone, of all rules or of those gathered: neither loops nor a schedule are wanted.
ghost use Rattle.model.specs.Loop.{Live};
ghost use Rattle.columns.specs.Views.{of_columns, of_filled, delays_of};
ghost use Rattle.engine.specs.Lap.{ranges_in};
ghost use Rattle.rates.specs.Rate.{Paced, MetRate, RatedIn, told_rate};

use crate::{Range, Ratio};
use columns::{Columns, Filled};
use refusals::{Refusal, Why};
use search::Top;

// The period with these delays, where there is a loop. Where the climb found no closed walk, the ratio is 0, and a loop is looked for.
// (That every loop turns is a clause at six calls between `zero_loop`, which finds it, and `climb`, which needs it. A type that keeps it would be one more
// beside `Columns` and one beside `Filled`.)
fn one_end(rules: &Filled<'_>) -> Option<Ratio>
    requires { Live (of_filled rules.now) }
    ensures { Paced (of_filled rules.now) (delays_of rules.now) result }
{
    let Top { found, p, q, x } = search::climb(rules);
    if !found {
        loops::tight_loop(rules, p, q, &x)?;
    }
    Some(Ratio { p, q })
}

fn met(low: Ratio, high: Ratio) -> Range
    ensures { MetRate low.p low.q high.p high.q (told_rate (Ok result)) }
{
    Range {
        exact: low == high,
        low,
        high,
    }
}

// The two ends of rules all of whose loops turn; refused FLAT where there is no loop.
pub fn ends(c: &Columns) -> Result<Range, Refusal>
    requires { Live (of_columns c.now) }
    ensures { RatedIn (of_columns c.now) (ranges_in c.now.least c.now.greatest) (told_rate result) }
{
    let flat = Why::Flat.at(0);
    let low = one_end(&c.low()).ok_or(flat)?;
    if !c.blank {
        return Ok(met(low, low));
    }
    let high = one_end(&c.high()).ok_or(flat)?;
    Ok(met(low, high))
}
