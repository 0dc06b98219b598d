// The loops that reach a transition v: they are the loops of the rules whose targets reach v, taken by themselves.
ghost use Rattle.std.specs.Prelude.{◌≡◌, ◌<◌, get_or};
ghost use Rattle.model.specs.Loop.{Live};
ghost use Rattle.columns.specs.Views.{of_columns};
ghost use Rattle.peel.specs.Plain.{plain};
ghost use Rattle.distances.specs.Queue.{Sought};
ghost use Rattle.engine.specs.Lap.{ranges_in};
ghost use Rattle.rates.specs.Rate.{RatedTo, told_rate};
ghost use Rattle.rates.specs.Reach.{Counts, Taken};

use crate::{Range, ends};
use columns::{Columns, Row};
use distances::Distances;
use refusals::Refusal;

// 1 where a rule into t is one of them, else 0: t reaches v where it is v itself, or some number of rules from it.
fn counts(t: usize, v: usize, dist: u16) -> usize
    ensures { Counts t v dist result }
{
    usize::from(t == v || usize::from(dist) < distances::FAR)
}

// Rule r, as the columns hold it.
fn row(c: &Columns, r: usize) -> Row
    requires { r < c.now.m }
    ensures ends { (result.source ≡ get_or c.now.source r 0) × (result.target ≡ get_or c.now.target r 0) × (result.offset ≡ get_or c.now.offset r 0) }
    ensures delays { (result.least ≡ get_or c.now.least r 0) × (result.greatest ≡ get_or c.now.greatest r 0) }
{
    Row {
        source: c.source[r],
        target: c.target[r],
        offset: c.offset[r],
        least: c.least[r],
        greatest: c.greatest[r],
    }
}

// The rules whose targets reach v. Each rule is put, and counts or not: a branch round it would often be guessed wrongly.
fn gather(c: &Columns, v: usize, dist: &[u16; 256]) -> Columns
    ensures { Taken c.now.source c.now.target c.now.offset c.now.least c.now.greatest v dist.now c.now.m result.source result.target result.offset result.least result.greatest result.m }
{
    let mut kept = Columns::none(c.n);
    for r in 0..c.m {
        let t = usize::from(c.target[r]);
        kept.put(row(c, r), counts(t, v, dist[t]));
    }
    kept
}

// The two ends of the rules that reach v, by the distances to it: a function of its own, so that where every rule reaches v no room is cleared for them.
fn ends_gathered(c: &Columns, v: usize, far: &Distances) -> Result<Range, Refusal>
    requires { Live (of_columns c.now) × Sought (plain c.now.source c.now.target c.now.m) c.now.n v far.now.dist far.now.count }
    ensures { RatedTo (of_columns c.now) (ranges_in c.now.least c.now.greatest) v (told_rate result) }
{
    ends::ends(&gather(c, v, &far.dist))
}

// The two ends of the rate of v, of rules all of whose loops turn; refused FLAT where no loop reaches v.
pub fn ends_to(c: &Columns, v: usize) -> Result<Range, Refusal>
    requires { Live (of_columns c.now) × (v < c.now.n) }
    ensures { RatedTo (of_columns c.now) (ranges_in c.now.least c.now.greatest) v (told_rate result) }
{
    let far = distances::distances_to(&c.rules().arcs(), v);
    if c.n <= far.count {
        return ends::ends(c); // every loop reaches v
    }
    ends_gathered(c, v, &far)
}
