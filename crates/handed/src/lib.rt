// A table handed in as columns of numbers or as the bytes of a rule file, and handed out as columns: what the calls for C are asked about.
#![tactic(auto)]

ghost use Rattle.std.specs.Prelude.{◌≡◌, ◌≤◌, ◌<◌, length, IfOk};
ghost use Rattle.table.specs.Limits.{max_m};
ghost use Rattle.refusals.specs.Number.{number_of};
ghost use Rattle.handed.specs.Columns.{columns, rule_in, table_from, short_of, told_handed, columns_of_table, bytes_of, delay_in_of, known_in_of, columns_from, refused_columns, read_into, read_as};

use refusals::{Refusal, Why};
use table::{Delay, Rule, Table};

// Refused: number and place, and 0, 0. Else 0, 0, and the counts of transitions and rules. It is no `Result`: C gets it as it is, from `period_read`.
#[repr(C)]
#[derive(Clone, Copy, PartialEq, Eq, Debug)]
pub struct PeriodTable {
    pub refusal: u32,
    pub place: usize,
    pub n: usize,
    pub m: usize,
}

// The columns that a table is made of, where none has fewer places than that of the sources.
#[derive(Clone, Copy)]
struct Lent<'a> {
    source: &'a [u16],
    target: &'a [u16],
    offset: &'a [u16],
    delay: &'a [u32],
    known: &'a [u8],
    ghost whole: { (length source.now ≤ length target.now) × (length source.now ≤ length offset.now) × (length source.now ≤ length delay.now) × (length source.now ≤ length known.now) },
}

impl Lent<'_> {
    fn rule(&self, r: usize) -> Rule
        requires { r < length self.now.source.now }
        ensures { result ≡ rule_in (columns self.now.source.now self.now.target.now self.now.offset.now self.now.delay.now self.now.known.now) r }
    {
        Rule {
            source: self.source[r],
            target: self.target[r],
            offset: self.offset[r],
            delay: if self.known[r] == 0 {
                Delay::Unknown
            } else {
                Delay::Known(self.delay[r])
            },
        }
    }

    // The table of n transitions and the rules of the columns.
    fn table(&self, n: usize) -> Table
        ensures { result ≡ table_from n (columns self.now.source.now self.now.target.now self.now.offset.now self.now.delay.now self.now.known.now) }
    {
        let mut t = Table::empty();
        t.n = n;
        t.m = self.source.len();
        for r in 0..self.source.len().min(Table::MAX_M) {
            t.rules[r] = self.rule(r);
        }
        t
    }
}

// Whether some column has fewer than m places.
fn short(m: usize, target: usize, offset: usize, delay: usize, known: usize) -> bool
    ensures { result ≡ short_of m target offset delay known }
{
    target < m || offset < m || delay < m || known < m
}

// What is handed in by columns: a table, or why it is refused. The columns stand apart here and in `read`, as the calls for C have them.
pub fn from_columns(
    n: usize,
    source: &[u16],
    target: &[u16],
    offset: &[u16],
    delay: &[u32],
    known: &[u8],
) -> Result<Table, Refusal>
    ensures { told_handed result ≡ columns_of_table n (columns source.now target.now offset.now delay.now known.now) }
{
    if short(
        source.len(),
        target.len(),
        offset.len(),
        delay.len(),
        known.len(),
    ) {
        return Err(Why::Room.at(source.len()));
    }
    let columns = Lent {
        source,
        target,
        offset,
        delay,
        known,
    };
    Ok(columns.table(n))
}

// What is handed in by the bytes of a file; a table that is read has no more rules than places.
pub fn from_file(bytes: &[u8]) -> Result<Table, Refusal>
    ensures { (told_handed result ≡ bytes_of bytes.now) × (IfOk result (λ t. t.m ≤ max_m)) }
{
    rulefile::table(bytes)
}

fn delay_in(delay: Delay) -> u32
    ensures { result ≡ delay_in_of delay }
{
    match delay {
        Delay::Unknown => 0,
        Delay::Known(d) => d,
    }
}

fn known_in(delay: Delay) -> u8
    ensures { result ≡ known_in_of delay }
{
    match delay {
        Delay::Unknown => 0,
        Delay::Known(_) => 1,
    }
}

// The rules of a table into the lowest places of the columns; the rest of these stays.
fn put_columns(
    t: &Table,
    source: &mut [u16],
    target: &mut [u16],
    offset: &mut [u16],
    delay: &mut [u32],
    known: &mut [u8],
)
    requires { (t.now.m ≤ max_m) × (t.now.m ≤ length source.old) × (t.now.m ≤ length target.old) × (t.now.m ≤ length offset.old) × (t.now.m ≤ length delay.old) × (t.now.m ≤ length known.old) }
    ensures { columns source.new target.new offset.new delay.new known.new ≡ columns_from t.now (columns source.old target.old offset.old delay.old known.old) t.now.m }
{
    for r in 0..t.m {
        let rule = t.rules[r];
        source[r] = rule.source;
        target[r] = rule.target;
        offset[r] = rule.offset;
        delay[r] = delay_in(rule.delay);
        known[r] = known_in(rule.delay);
    }
}

fn unread(refused: Refusal) -> PeriodTable
    ensures { result ≡ refused_columns (number_of refused.why) refused.place }
{
    PeriodTable {
        refusal: refused.why.number(),
        place: refused.place,
        n: 0,
        m: 0,
    }
}

// The table of a rule file, as columns.
pub fn read(
    bytes: &[u8],
    source: &mut [u16],
    target: &mut [u16],
    offset: &mut [u16],
    delay: &mut [u32],
    known: &mut [u8],
) -> PeriodTable
    ensures { read_into (bytes_of bytes.now) (columns source.old target.old offset.old delay.old known.old) ≡ read_as result (columns source.new target.new offset.new delay.new known.new) }
{
    let t = match from_file(bytes) {
        Ok(t) => t,
        Err(refused) => return unread(refused),
    };
    if source.len() < t.m || short(t.m, target.len(), offset.len(), delay.len(), known.len()) {
        return unread(Why::Room.at(t.m));
    }
    put_columns(&t, source, target, offset, delay, known);
    PeriodTable {
        refusal: 0,
        place: 0,
        n: t.n,
        m: t.m,
    }
}
