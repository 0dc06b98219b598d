// The rate of a transition of a table: the two ends of the period of the loops that reach it.
#![tactic(auto)]

mod ends;
mod reach;

ghost use Rattle.rates.specs.Rate.{told_rate, RateOf};

pub use engine::{Range, Ratio};
use refusals::{Refusal, Why};
use table::Table;

// The rate of transition v: its two ends; or refused RANGE, NAME, LOOP or FLAT, in this order.
pub fn rate(t: Table, v: usize) -> Result<Range, Refusal>
    ensures { RateOf t v (told_rate result) }
{
    table::check(t)?;
    if t.n <= v {
        return Err(Why::Name.at(t.n));
    }
    let c = columns::lay(t);
    if let Some(zero) = loops::zero_loop(&c.rules()) {
        return Err(Why::Loop.at(zero.at));
    }
    reach::ends_to(&c, v)
}
