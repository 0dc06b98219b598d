// The period library: the analysis of a table into lent buffers, and the rate of one transition.
#![tactic(auto)]

ghost use Rattle.std.specs.Prelude.{◌≡◌, ◌++◌, ◌≤◌, length, take, drop};
ghost use Rattle.period.specs.Promise.{end_of, outcome, told_analysis, AnalysisOf};
// The two ends of a transition's rate: the call of `rates` as it is.
pub use rates::rate;
use refusals::{Refusal, Why};
use table::Table;

// One end: its ratio in lowest terms, and the length of its loop.
#[derive(Clone, Copy)]
pub struct End {
    pub p: u64,
    pub q: u64,
    pub len: usize,
}

impl From<&engine::End> for End {
    ghost from_gives = { λ x end. end ≡ end_of x.now.p x.now.q x.now.len };

    fn from(end: &engine::End) -> End {
        End {
            p: end.p,
            q: end.q,
            len: end.len,
        }
    }
}

// The two ends, and whether they meet.
#[derive(Clone, Copy)]
pub struct Analysis {
    pub exact: bool,
    pub low: End,
    pub high: End,
}

// The two ends, the schedule at the high end and the two loops; or refused RANGE, ROOM, LOOP or FLAT, in this order, and no buffer written.
pub fn analyse(
    t: Table,
    schedule: &mut [u64],
    low: &mut [u32],
    high: &mut [u32],
) -> Result<Analysis, Refusal>
    ensures { AnalysisOf t schedule.old low.old high.old (outcome (told_analysis result) schedule.new low.new high.new) }
{
    let n = t.n;
    let lap = match engine::measure(t) {
        Err(e) if e.why == Why::Range => return Err(e),
        lap => lap,
    };
    if schedule.len() < n || low.len() < n || high.len() < n {
        return Err(Why::Room.at(n));
    }
    let lap = lap?;
    schedule[..n].copy_from_slice(&lap.schedule[..n]);
    low[..lap.low.len].copy_from_slice(&lap.low.rules[..lap.low.len]);
    high[..lap.high.len].copy_from_slice(&lap.high.rules[..lap.high.len]);
    Ok(Analysis {
        exact: lap.exact,
        low: End::from(&lap.low),
        high: End::from(&lap.high),
    })
}
