// A table within its limits as columns of numbers, made once: the engine lends these and never the table.
#![tactic(auto)]

mod rules;

ghost use Rattle.std.specs.Prelude.{◌≡◌, ◌+◌, ◌≤◌, ◌<◌, false, replicate, set};
ghost use Rattle.model.specs.Filling.{least_of, greatest_of};
ghost use Rattle.table.specs.Limits.{min_n, max_n, max_m, max_offset, max_delay};
ghost use Rattle.table.specs.Fields.{Within};
ghost use Rattle.table.specs.Meaning.{delay_meant};
ghost use Rattle.columns.specs.Columns.{Limits, Short, Ordered};
ghost use Rattle.columns.specs.Lay.{Laid};

pub use rules::{Arcs, Filled, Rules};
use table::{Delay, Rule, Table};

// m rules of n transitions; `blank` tells whether the least and the greatest delay of any differ. What stands past m counts for nothing.
#[derive(Clone, Copy)]
pub struct Columns {
    pub source: [u16; Table::MAX_M],
    pub target: [u16; Table::MAX_M],
    pub offset: [u16; Table::MAX_M],
    pub least: [u32; Table::MAX_M],
    pub greatest: [u32; Table::MAX_M],
    pub blank: bool,
    pub m: usize,
    pub n: usize,
    ghost limits: { Limits source target offset m n },
    ghost ordered: { Ordered least greatest m blank },
}

// A rule as the columns hold it. In a function of its own a wrong row is refused at a fact, whatever shape it has (`blanks_left_out`).
#[derive(Clone, Copy)]
pub struct Row {
    pub source: u16,
    pub target: u16,
    pub offset: u16,
    pub least: u32,
    pub greatest: u32,
}

impl Columns {
    // No rule yet.
    pub fn none(n: usize) -> Columns
        requires { (min_n ≤ n) × (n ≤ max_n) }
        ensures columns { (result.source ≡ replicate 2048 0) × (result.target ≡ replicate 2048 0) × (result.offset ≡ replicate 2048 0) × (result.least ≡ replicate 2048 0) × (result.greatest ≡ replicate 2048 0) }
        ensures sized { (result.blank ≡ false) × (result.m ≡ 0) × (result.n ≡ n) }
    {
        Columns {
            source: [0; Table::MAX_M],
            target: [0; Table::MAX_M],
            offset: [0; Table::MAX_M],
            least: [0; Table::MAX_M],
            greatest: [0; Table::MAX_M],
            blank: false,
            m: 0,
            n,
        }
    }

    // The next rule, where `one` is 1. Where it is 0, the rule is written and does not count: a branch round it would often be guessed wrongly.
    pub fn put(&mut self, row: Row, one: usize)
        requires room { self.old.m < max_m }
        requires one { one ≤ 1 }
        requires fits { (row.source < self.old.n) × (row.target < self.old.n) × (row.offset ≤ max_offset) × (row.least ≤ row.greatest) × (row.greatest ≤ max_delay) }
        ensures ends { (self.new.source ≡ set self.old.source self.old.m row.source) × (self.new.target ≡ set self.old.target self.old.m row.target) × (self.new.offset ≡ set self.old.offset self.old.m row.offset) }
        ensures delays { (self.new.least ≡ set self.old.least self.old.m row.least) × (self.new.greatest ≡ set self.old.greatest self.old.m row.greatest) }
        ensures sized { (self.new.m ≡ self.old.m + one) × (self.new.n ≡ self.old.n) }
        ensures no_blank { self.new.blank ≡ false → (self.old.blank ≡ false) × (row.least ≡ row.greatest) }
    {
        let m = self.m;
        self.source[m] = row.source;
        self.target[m] = row.target;
        self.offset[m] = row.offset;
        self.least[m] = row.least;
        self.greatest[m] = row.greatest;
        self.blank = self.blank || row.least < row.greatest;
        self.m = m + one;
    }

    pub fn rules(&self) -> Rules<'_>
        ensures columns { (result.source.now ≡ self.now.source) × (result.target.now ≡ self.now.target) × (result.offset.now ≡ self.now.offset) }
        ensures sized { (result.m ≡ self.now.m) × (result.n ≡ self.now.n) }
    {
        self.low().rules()
    }

    // Every blank at its least.
    pub fn low(&self) -> Filled<'_>
        ensures columns { (result.source.now ≡ self.now.source) × (result.target.now ≡ self.now.target) × (result.offset.now ≡ self.now.offset) }
        ensures delay { result.delay.now ≡ self.now.least }
        ensures sized { (result.m ≡ self.now.m) × (result.n ≡ self.now.n) }
    {
        self.filled(&self.least)
    }

    // Every blank at its greatest.
    pub fn high(&self) -> Filled<'_>
        ensures columns { (result.source.now ≡ self.now.source) × (result.target.now ≡ self.now.target) × (result.offset.now ≡ self.now.offset) }
        ensures delay { result.delay.now ≡ self.now.greatest }
        ensures sized { (result.m ≡ self.now.m) × (result.n ≡ self.now.n) }
    {
        self.filled(&self.greatest)
    }

    fn filled<'a>(&'a self, delay: &'a [u32; Table::MAX_M]) -> Filled<'a>
        requires { Short delay.now self.now.m }
        ensures columns { (result.source.now ≡ self.now.source) × (result.target.now ≡ self.now.target) × (result.offset.now ≡ self.now.offset) }
        ensures delay { result.delay.now ≡ delay.now }
        ensures sized { (result.m ≡ self.now.m) × (result.n ≡ self.now.n) }
    {
        Filled {
            source: &self.source,
            target: &self.target,
            offset: &self.offset,
            delay,
            m: self.m,
            n: self.n,
        }
    }
}

fn laid(rule: Rule) -> Row
    ensures ends { (result.source ≡ rule.source) × (result.target ≡ rule.target) × (result.offset ≡ rule.offset) }
    ensures delays { (result.least ≡ least_of (delay_meant rule.delay)) × (result.greatest ≡ greatest_of max_delay (delay_meant rule.delay)) }
{
    let delay = rule.delay;
    let (least, greatest) = match delay {
        Delay::Unknown => (0, Table::MAX_DELAY),
        Delay::Known(d) => (d, d),
    };
    Row {
        source: rule.source,
        target: rule.target,
        offset: rule.offset,
        least,
        greatest,
    }
}

pub fn lay(t: Table) -> Columns
    requires { Within t }
    ensures laid { Laid t t.m result.source result.target result.offset result.least result.greatest result.blank }
    ensures sized { (result.m ≡ t.m) × (result.n ≡ t.n) }
{
    let mut c = Columns::none(t.n);
    for r in 0..t.m {
        c.put(laid(t.rules[r]), 1);
    }
    c
}
