// Each call on what was handed in, and its answer in the form that C gets.
ghost use Rattle.std.specs.Prelude.{◌≡◌};
ghost use Rattle.refusals.specs.Number.{told};
ghost use Rattle.rates.specs.Rate.{told_rate};
ghost use Rattle.period.specs.Promise.{told_analysis};
ghost use Rattle.rulefile.specs.File.{told_written};
ghost use Rattle.handed.specs.Columns.{told_handed};
ghost use Rattle.cperiod.specs.Promise.{flat_analysis_of, AnalysisFrom, flat_rate_of, RateFrom, flat_count, WritingFrom, flat_status, SimulationFrom, ReportFrom, number_in};
ghost use Rattle.cperiod.specs.Bids.{BidsFrom};

use crate::{PeriodAnalysis, PeriodBids, PeriodCount, PeriodNumber, PeriodRate, PeriodStatus};
use period::Analysis;
use rates::Range;
use refusals::{Refusal, Why};
use table::Table;

// C has no `Result`: it gets number 0 and place 0 beside an answer, or those of a refusal, and all else 0.
impl From<Result<Analysis, Refusal>> for PeriodAnalysis {
    ghost from_gives = { λ x r. r ≡ flat_analysis_of (told_analysis x) };

    fn from(x: Result<Analysis, Refusal>) -> PeriodAnalysis {
        match x {
            Ok(a) => PeriodAnalysis {
                refusal: 0,
                exact: u32::from(a.exact),
                place: 0,
                lowp: a.low.p,
                lowq: a.low.q,
                lowlen: a.low.len,
                highp: a.high.p,
                highq: a.high.q,
                highlen: a.high.len,
            },
            Err(e) => PeriodAnalysis {
                refusal: e.why.number(),
                place: e.place,
                ..PeriodAnalysis::default()
            },
        }
    }
}

impl From<Result<Range, Refusal>> for PeriodRate {
    ghost from_gives = { λ x r. r ≡ flat_rate_of (told_rate x) };

    fn from(x: Result<Range, Refusal>) -> PeriodRate {
        match x {
            Ok(a) => PeriodRate {
                refusal: 0,
                exact: u32::from(a.exact),
                place: 0,
                lowp: a.low.p,
                lowq: a.low.q,
                highp: a.high.p,
                highq: a.high.q,
            },
            Err(e) => PeriodRate {
                refusal: e.why.number(),
                place: e.place,
                ..PeriodRate::default()
            },
        }
    }
}

impl From<Result<usize, Refusal>> for PeriodCount {
    ghost from_gives = { λ x r. r ≡ flat_count (told_written x) };

    fn from(x: Result<usize, Refusal>) -> PeriodCount {
        match x {
            Ok(count) => PeriodCount {
                refusal: 0,
                place: 0,
                count,
            },
            Err(e) => PeriodCount {
                refusal: e.why.number(),
                place: e.place,
                count: 0,
            },
        }
    }
}

impl From<Result<(), Refusal>> for PeriodStatus {
    ghost from_gives = { λ x r. r ≡ flat_status (told x) };

    fn from(x: Result<(), Refusal>) -> PeriodStatus {
        match x {
            Ok(()) => PeriodStatus {
                refusal: 0,
                place: 0,
            },
            Err(e) => PeriodStatus {
                refusal: e.why.number(),
                place: e.place,
            },
        }
    }
}

// The analysis of what was handed in.
pub fn analysed(
    handed: Result<Table, Refusal>,
    schedule: &mut [u64],
    low: &mut [u32],
    high: &mut [u32],
) -> Result<Analysis, Refusal>
    ensures { AnalysisFrom (told_handed handed) schedule.old low.old high.old (flat_analysis_of (told_analysis result)) schedule.new low.new high.new }
{
    period::analyse(handed?, schedule, low, high)
}

// The rate of transition v of what was handed in. A `match`, and no `?`, with which the columns laid from the table, 28 KB, are copied once more.
pub fn rated(handed: Result<Table, Refusal>, v: usize) -> Result<Range, Refusal>
    ensures { RateFrom (told_handed handed) v (flat_rate_of (told_rate result)) }
{
    match handed {
        Ok(t) => period::rate(t, v),
        Err(e) => Err(e),
    }
}

// The rule file of what was handed in.
pub fn written(handed: Result<Table, Refusal>, out: &mut [u8]) -> Result<usize, Refusal>
    ensures { WritingFrom (told_handed handed) out.old (flat_count (told_written result)) out.new }
{
    rulefile::write(handed?, out)
}

// The timing simulation of what was handed in.
pub fn simulated(
    handed: Result<Table, Refusal>,
    occurrences: usize,
    times: &mut [u64],
) -> Result<(), Refusal>
    ensures { SimulationFrom (told_handed handed) occurrences times.old (flat_status (told result)) times.new }
{
    simulation::simulate(handed?, occurrences, times)
}

// The text for a file into a lent buffer.
pub fn reported(bytes: &[u8], out: &mut [u8]) -> Result<usize, Refusal>
    ensures { ReportFrom bytes.now out.old (flat_count (told_written result)) out.new }
{
    let report = text::report(bytes);
    if out.len() < report.len {
        return Err(Why::Room.at(report.len));
    }
    out[..report.len].copy_from_slice(&report.bytes[..report.len]);
    Ok(report.len)
}

// The number at the front of some bytes; a part cannot be handed to C, so its length is.
#[tactic(auto, unfolding(crate::specs::Promise::number_in))]
pub fn number(bytes: &[u8], low: u32, high: u32) -> PeriodNumber
    ensures { result ≡ number_in bytes.now low high }
{
    match sevens::number(bytes, low, high) {
        (Ok(value), rest) => PeriodNumber {
            refusal: 0,
            value,
            place: 0,
            rest: rest.len(),
        },
        (Err(e), rest) => PeriodNumber {
            refusal: e.why.number(),
            value: 0,
            place: e.place,
            rest: rest.len(),
        },
    }
}

// The better of two files; a part cannot be handed to C, so which file it starts and its length are.
pub fn chosen(first: &[u8], second: &[u8]) -> PeriodBids
    ensures { BidsFrom first.entry second.entry result }
{
    let mut which = 0;
    let mut refusal = 0;
    let mut place = 0;
    let part = bids::better(first, second, &mut which, &mut refusal, &mut place);
    PeriodBids {
        refusal,
        which: u32::from(which),
        place,
        length: part.len(),
    }
}
