// The calls for C, over a table handed in as columns of numbers or as the bytes of a rule file. The crate `cperiod_c` exports them.
#![tactic(auto)]

mod calls;

ghost use Rattle.std.specs.Prelude.{◌≡◌};
ghost use Rattle.handed.specs.Columns.{columns, columns_of_table, bytes_of, read_into, read_as};
ghost use Rattle.cperiod.specs.Promise.{AnalysisFrom, RateFrom, WritingFrom, SimulationFrom, ReportFrom, number_in};
ghost use Rattle.cperiod.specs.Bids.{BidsFrom};

use handed::PeriodTable;

// Refused: number and place, and all else 0. `exact` is 0 or 1.
#[repr(C)]
#[derive(Clone, Copy, PartialEq, Eq, Debug, Default)]
pub struct PeriodAnalysis {
    pub refusal: u32,
    pub exact: u32,
    pub place: usize,
    pub lowp: u64,
    pub lowq: u64,
    pub lowlen: usize,
    pub highp: u64,
    pub highq: u64,
    pub highlen: usize,
}

// Likewise.
#[repr(C)]
#[derive(Clone, Copy, PartialEq, Eq, Debug, Default)]
pub struct PeriodRate {
    pub refusal: u32,
    pub exact: u32,
    pub place: usize,
    pub lowp: u64,
    pub lowq: u64,
    pub highp: u64,
    pub highq: u64,
}

// Refused: number and place, and 0. Else 0, 0 and how many bytes were written.
#[repr(C)]
#[derive(Clone, Copy, PartialEq, Eq, Debug)]
pub struct PeriodCount {
    pub refusal: u32,
    pub place: usize,
    pub count: usize,
}

// 0 and 0, or a number of refusal and its place.
#[repr(C)]
#[derive(Clone, Copy, PartialEq, Eq, Debug)]
pub struct PeriodStatus {
    pub refusal: u32,
    pub place: usize,
}

// Refused: number and place, and 0, 0. Else the value, and how many bytes are left after it.
#[repr(C)]
#[derive(Clone, Copy, PartialEq, Eq, Debug)]
pub struct PeriodNumber {
    pub refusal: u32,
    pub value: u32,
    pub place: usize,
    pub rest: usize,
}

// The better of two files: which of the two, 0 or 1, and how many bytes of it from its start on. Refused: the first file's number and place, and 0, 0.
#[repr(C)]
#[derive(Clone, Copy, PartialEq, Eq, Debug)]
pub struct PeriodBids {
    pub refusal: u32,
    pub which: u32,
    pub place: usize,
    pub length: usize,
}

// The analysis of a table handed in as columns.
pub fn period_analyse(
    n: usize,
    source: &[u16],
    target: &[u16],
    offset: &[u16],
    delay: &[u32],
    known: &[u8],
    schedule: &mut [u64],
    low: &mut [u32],
    high: &mut [u32],
) -> PeriodAnalysis
    ensures { AnalysisFrom (columns_of_table n (columns source.now target.now offset.now delay.now known.now)) schedule.old low.old high.old result schedule.new low.new high.new }
{
    let handed = handed::from_columns(n, source, target, offset, delay, known);
    calls::analysed(handed, schedule, low, high).into()
}

// The rate of transition v of a table handed in as columns.
pub fn period_rate(
    n: usize,
    source: &[u16],
    target: &[u16],
    offset: &[u16],
    delay: &[u32],
    known: &[u8],
    v: usize,
) -> PeriodRate
    ensures { RateFrom (columns_of_table n (columns source.now target.now offset.now delay.now known.now)) v result }
{
    let handed = handed::from_columns(n, source, target, offset, delay, known);
    calls::rated(handed, v).into()
}

// The rule file of a table handed in as columns.
pub fn period_write(
    n: usize,
    source: &[u16],
    target: &[u16],
    offset: &[u16],
    delay: &[u32],
    known: &[u8],
    out: &mut [u8],
) -> PeriodCount
    ensures { WritingFrom (columns_of_table n (columns source.now target.now offset.now delay.now known.now)) out.old result out.new }
{
    let handed = handed::from_columns(n, source, target, offset, delay, known);
    calls::written(handed, out).into()
}

// The timing simulation of a table handed in as columns.
pub fn period_simulate(
    n: usize,
    source: &[u16],
    target: &[u16],
    offset: &[u16],
    delay: &[u32],
    known: &[u8],
    occurrences: usize,
    times: &mut [u64],
) -> PeriodStatus
    ensures { SimulationFrom (columns_of_table n (columns source.now target.now offset.now delay.now known.now)) occurrences times.old result times.new }
{
    let handed = handed::from_columns(n, source, target, offset, delay, known);
    calls::simulated(handed, occurrences, times).into()
}

// The table of a rule file, as columns.
pub fn period_read(
    bytes: &[u8],
    source: &mut [u16],
    target: &mut [u16],
    offset: &mut [u16],
    delay: &mut [u32],
    known: &mut [u8],
) -> PeriodTable
    ensures { read_into (bytes_of bytes.now) (columns source.old target.old offset.old delay.old known.old) ≡ read_as result (columns source.new target.new offset.new delay.new known.new) }
{
    handed::read(bytes, source, target, offset, delay, known)
}

// The analysis of the table of a rule file.
pub fn period_file_analyse(
    bytes: &[u8],
    schedule: &mut [u64],
    low: &mut [u32],
    high: &mut [u32],
) -> PeriodAnalysis
    ensures { AnalysisFrom (bytes_of bytes.now) schedule.old low.old high.old result schedule.new low.new high.new }
{
    calls::analysed(handed::from_file(bytes), schedule, low, high).into()
}

// The rate of transition v of the table of a rule file.
pub fn period_file_rate(bytes: &[u8], v: usize) -> PeriodRate
    ensures { RateFrom (bytes_of bytes.now) v result }
{
    calls::rated(handed::from_file(bytes), v).into()
}

// The timing simulation of the table of a rule file.
pub fn period_file_simulate(bytes: &[u8], occurrences: usize, times: &mut [u64]) -> PeriodStatus
    ensures { SimulationFrom (bytes_of bytes.now) occurrences times.old result times.new }
{
    calls::simulated(handed::from_file(bytes), occurrences, times).into()
}

// What the program `report` prints for the bytes of a rule file.
pub fn period_report(bytes: &[u8], out: &mut [u8]) -> PeriodCount
    ensures { ReportFrom bytes.now out.old result out.new }
{
    calls::reported(bytes, out).into()
}

// The number at the front of some bytes, from `low` to `high`.
pub fn period_number(bytes: &[u8], low: u32, high: u32) -> PeriodNumber
    ensures { result ≡ number_in bytes.now low high }
{
    calls::number(bytes, low, high)
}

// The better of two rule files: the one with the lower high end.
pub fn period_bids<'a>(first: &'a [u8], second: &'a [u8]) -> PeriodBids
    ensures { BidsFrom first.entry second.entry result }
{
    calls::chosen(first, second)
}
