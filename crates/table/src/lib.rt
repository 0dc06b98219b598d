// A table of transitions and rules, its limits, and the check of a table handed in.
#![tactic(auto)]

ghost use Rattle.std.specs.Prelude.{◌≡◌, MatchOption};
ghost use Rattle.table.specs.Limits.{min_n, max_n, max_m, max_offset, max_delay, min_occurrences, max_occurrences};
ghost use Rattle.table.specs.Form.{empty_table};
ghost use Rattle.table.specs.Fields.{RuleWithin, FirstIn, Judged};
ghost use Rattle.refusals.specs.Number.{told};

use refusals::{Refusal, Why};

// A delay is known, with its value, or unknown. (No Option: that an unknown is no number is the rule of the whole project, and so has a type of its own.)
// Unknown stands first: then the value that the checker takes for a missing rule is the unused rule.
#[derive(Clone, Copy, PartialEq, Eq, Debug)]
pub enum Delay {
    Unknown,
    Known(u32),
}

#[derive(Clone, Copy, PartialEq, Eq, Debug)]
pub struct Rule {
    pub source: u16,
    pub target: u16,
    pub offset: u16,
    pub delay: Delay,
}

// The first m places hold the rules; what lies in the others is never looked at, so a table has no derived `==`.
#[derive(Clone, Copy)]
pub struct Table {
    pub n: usize,
    pub m: usize,
    pub rules: [Rule; Table::MAX_M],
}

impl Table {
    pub const MIN_N: usize = 1;

    pub const MAX_N: usize = 256;

    pub const MAX_M: usize = 2048;

    pub const MAX_OFFSET: u16 = 15;

    pub const MAX_DELAY: u32 = 1000000;

    pub const MIN_OCCURRENCES: usize = 1;

    pub const MAX_OCCURRENCES: usize = 1024;

    // No transition and no rule, every place in its unused form.
    pub fn empty() -> Table
        ensures { result ≡ empty_table }
    {
        let unused = Rule {
            source: 0,
            target: 0,
            offset: 0,
            delay: Delay::Unknown,
        };
        Table {
            n: 0,
            m: 0,
            rules: [unused; Table::MAX_M],
        }
    }
}

// Does nothing: its promise ties each constant of the table to the name that the definitions quote.
fn limits()
    ensures counts { (Table.MIN_N ≡ min_n) × (Table.MAX_N ≡ max_n) × (Table.MAX_M ≡ max_m) }
    ensures fields { (Table.MAX_OFFSET ≡ max_offset) × (Table.MAX_DELAY ≡ max_delay) }
    ensures occurrences { (Table.MIN_OCCURRENCES ≡ min_occurrences) × (Table.MAX_OCCURRENCES ≡ max_occurrences) }
{}

// The first field of a rule outside its limits, counted from its source.
fn first_in(n: usize, rule: Rule) -> Option<usize>
    ensures { MatchOption result (RuleWithin n rule) (FirstIn n rule) }
{
    if n <= usize::from(rule.source) {
        return Some(0);
    }
    if n <= usize::from(rule.target) {
        return Some(1);
    }
    if Table::MAX_OFFSET < rule.offset {
        return Some(2);
    }
    let delay = rule.delay;
    match delay {
        Delay::Known(d) if Table::MAX_DELAY < d => Some(3),
        _ => None,
    }
}

// Refused RANGE at the first field outside its limits, counted in file order.
pub fn check(t: Table) -> Result<(), Refusal>
    ensures { Judged t (told result) }
{
    if t.n < Table::MIN_N || Table::MAX_N < t.n {
        return Err(Why::Range.at(0));
    }
    if Table::MAX_M < t.m {
        return Err(Why::Range.at(1));
    }
    for r in 0..t.m {
        if let Some(field) = first_in(t.n, t.rules[r]) {
            return Err(Why::Range.at(2 + 4 * r + field));
        }
    }
    Ok(())
}
