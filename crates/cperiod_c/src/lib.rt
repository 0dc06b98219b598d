// The library as C links it: the calls of `cperiod` under their own names, with the same clauses. include/period.h declares them.
#![tactic(auto)]

ghost use Rattle.std.specs.Prelude.{◌≡◌};
ghost use Rattle.handed.specs.Columns.{columns, columns_of_table, bytes_of, read_into, read_as};
ghost use Rattle.cperiod.specs.Promise.{AnalysisFrom, RateFrom, WritingFrom, SimulationFrom, ReportFrom, number_in};
ghost use Rattle.cperiod.specs.Bids.{BidsFrom};

use cperiod::{PeriodAnalysis, PeriodBids, PeriodCount, PeriodNumber, PeriodRate, PeriodStatus};
use handed::PeriodTable;

#[unsafe(no_mangle)]
pub extern "C" fn period_analyse(
    n: usize,
    source: &[u16],
    target: &[u16],
    offset: &[u16],
    delay: &[u32],
    known: &[u8],
    schedule: &mut [u64],
    low: &mut [u32],
    high: &mut [u32],
) -> PeriodAnalysis
    ensures { AnalysisFrom (columns_of_table n (columns source.now target.now offset.now delay.now known.now)) schedule.old low.old high.old result schedule.new low.new high.new }
{
    cperiod::period_analyse(n, source, target, offset, delay, known, schedule, low, high)
}

#[unsafe(no_mangle)]
pub extern "C" fn period_rate(
    n: usize,
    source: &[u16],
    target: &[u16],
    offset: &[u16],
    delay: &[u32],
    known: &[u8],
    v: usize,
) -> PeriodRate
    ensures { RateFrom (columns_of_table n (columns source.now target.now offset.now delay.now known.now)) v result }
{
    cperiod::period_rate(n, source, target, offset, delay, known, v)
}

#[unsafe(no_mangle)]
pub extern "C" fn period_write(
    n: usize,
    source: &[u16],
    target: &[u16],
    offset: &[u16],
    delay: &[u32],
    known: &[u8],
    out: &mut [u8],
) -> PeriodCount
    ensures { WritingFrom (columns_of_table n (columns source.now target.now offset.now delay.now known.now)) out.old result out.new }
{
    cperiod::period_write(n, source, target, offset, delay, known, out)
}

#[unsafe(no_mangle)]
pub extern "C" fn period_simulate(
    n: usize,
    source: &[u16],
    target: &[u16],
    offset: &[u16],
    delay: &[u32],
    known: &[u8],
    occurrences: usize,
    times: &mut [u64],
) -> PeriodStatus
    ensures { SimulationFrom (columns_of_table n (columns source.now target.now offset.now delay.now known.now)) occurrences times.old result times.new }
{
    cperiod::period_simulate(n, source, target, offset, delay, known, occurrences, times)
}

#[unsafe(no_mangle)]
pub extern "C" fn period_read(
    bytes: &[u8],
    source: &mut [u16],
    target: &mut [u16],
    offset: &mut [u16],
    delay: &mut [u32],
    known: &mut [u8],
) -> PeriodTable
    ensures { read_into (bytes_of bytes.now) (columns source.old target.old offset.old delay.old known.old) ≡ read_as result (columns source.new target.new offset.new delay.new known.new) }
{
    cperiod::period_read(bytes, source, target, offset, delay, known)
}

#[unsafe(no_mangle)]
pub extern "C" fn period_file_analyse(
    bytes: &[u8],
    schedule: &mut [u64],
    low: &mut [u32],
    high: &mut [u32],
) -> PeriodAnalysis
    ensures { AnalysisFrom (bytes_of bytes.now) schedule.old low.old high.old result schedule.new low.new high.new }
{
    cperiod::period_file_analyse(bytes, schedule, low, high)
}

#[unsafe(no_mangle)]
pub extern "C" fn period_file_rate(bytes: &[u8], v: usize) -> PeriodRate
    ensures { RateFrom (bytes_of bytes.now) v result }
{
    cperiod::period_file_rate(bytes, v)
}

#[unsafe(no_mangle)]
pub extern "C" fn period_file_simulate(
    bytes: &[u8],
    occurrences: usize,
    times: &mut [u64],
) -> PeriodStatus
    ensures { SimulationFrom (bytes_of bytes.now) occurrences times.old result times.new }
{
    cperiod::period_file_simulate(bytes, occurrences, times)
}

#[unsafe(no_mangle)]
pub extern "C" fn period_report(bytes: &[u8], out: &mut [u8]) -> PeriodCount
    ensures { ReportFrom bytes.now out.old result out.new }
{
    cperiod::period_report(bytes, out)
}

#[unsafe(no_mangle)]
pub extern "C" fn period_number(bytes: &[u8], low: u32, high: u32) -> PeriodNumber
    ensures { result ≡ number_in bytes.now low high }
{
    cperiod::period_number(bytes, low, high)
}

#[unsafe(no_mangle)]
pub extern "C" fn period_bids<'a>(first: &'a [u8], second: &'a [u8]) -> PeriodBids
    ensures { BidsFrom first.entry second.entry result }
{
    cperiod::period_bids(first, second)
}
