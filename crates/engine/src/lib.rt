// The engine: the lap of a table, and whether a loop of it has no turn. What works on columns is in the crates `columns`, `search`, `peel` and `loops`.
#![tactic(auto)]

mod laps;

ghost use Rattle.refusals.specs.Number.{told};
ghost use Rattle.engine.specs.Lap.{told_lap, LapOf};
ghost use Rattle.engine.specs.Turn.{TurnOf};

pub use laps::meet;
use refusals::{Refusal, Why};
use table::Table;

// A ratio in lowest terms.
#[derive(Clone, Copy, PartialEq, Eq, Debug)]
pub struct Ratio {
    pub p: u64,
    pub q: u64,
}

// Two ends, and whether they meet: of a transition's rate, or of a bid.
#[derive(Clone, Copy, Debug)]
pub struct Range {
    pub exact: bool,
    pub low: Ratio,
    pub high: Ratio,
}

// One end: its ratio in lowest terms, and its loop, the first `len` places of `rules` (fixed memory); the others hold 0.
#[derive(Clone, Copy)]
pub struct End {
    pub p: u64,
    pub q: u64,
    pub len: usize,
    pub rules: [u32; 256],
}

// Both ends, whether they meet, and the schedule; past the last transition it holds 0.
#[derive(Clone, Copy)]
pub struct Lap {
    pub exact: bool,
    pub low: End,
    pub high: End,
    pub schedule: [u64; 256],
}

// The lap of a table: its two ends, their loops and the schedule at the high end; or refused RANGE, LOOP or FLAT, in this order.
pub fn measure(t: Table) -> Result<Lap, Refusal>
    ensures { LapOf t (told_lap result) }
{
    table::check(t)?;
    laps::laps(&columns::lay(t))
}

// Whether every loop of a table turns: refused RANGE at a field outside its limits, or LOOP at the lowest transition on a loop without a turn.
pub fn turns(t: Table) -> Result<(), Refusal>
    ensures { TurnOf t (told result) }
{
    table::check(t)?;
    let c = columns::lay(t);
    if let Some(zero) = loops::zero_loop(&c.rules()) {
        return Err(Why::Loop.at(zero.at));
    }
    Ok(())
}
