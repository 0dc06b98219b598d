// The whole analysis on columns: both ends, their loops and the schedule, or why there are none.
ghost use Rattle.std.specs.Prelude.{◌≡◌, ◌++◌, ℕ, ◌-◌, ◌≤◌, ◌<◌, IfSome, IfNone, length, get_or, take, replicate};
ghost use Rattle.model.specs.Loop.{Live, NoLoop};
ghost use Rattle.model.specs.Ends.{Exact};
ghost use Rattle.columns.specs.Views.{of_columns, of_filled, delays_of};
ghost use Rattle.engine.specs.Lap.{told_lap, end_of, answered_lap, Sided, answer_of, ranges_in, LapIn};

use crate::{End, Lap};
use columns::{Columns, Filled};
use loops::Found;
use refusals::{Refusal, Why};
use search::Top;

// The first len rule numbers, and zeros.
fn numbers(rules: &[u16; 256], len: usize) -> [u32; 256]
    requires { len ≤ 256 }
    ensures { result ≡ take len rules.now ++ replicate (256 - len) 0 }
{
    let mut numbers = [0; 256];
    for i in 0..len {
        numbers[i] = u32::from(rules[i]);
    }
    numbers
}

// One side as the search leaves it: its ratio, its loop (the first len of rules) and the values x.
#[derive(Clone, Copy)]
struct Side {
    p: u64,
    q: u64,
    len: usize,
    rules: [u16; 256],
    x: [u64; 256],
}

// The period with these delays, its reported loop and its least schedule; none where there is no loop.
fn measured(rules: &Filled<'_>) -> Option<Side>
    requires { Live (of_filled rules.now) }
    ensures found { IfSome result (λ s. (0 < s.len) × Sided (of_filled rules.now) (delays_of rules.now) rules.now.n s.p s.q s.len s.rules s.x) }
    ensures none { IfNone result (NoLoop (of_filled rules.now)) }
{
    let Top { p, q, x, .. } = search::climb(rules);
    let Some(tight) = loops::tight_loop(rules, p, q, &x) else {
        return None;
    };
    let Found { len, rules, .. } = tight;
    Some(Side {
        p,
        q,
        len,
        rules,
        x,
    })
}

// Whether p/q and r/s, both in lowest terms, are equal.
pub fn meet(p: u64, q: u64, r: u64, s: u64) -> bool
    ensures { Exact p q r s result }
{
    p == r && q == s
}

fn end(side: &Side) -> End
    requires { side.now.len ≤ 256 }
    ensures { result ≡ end_of side.now.p side.now.q (take side.now.len side.now.rules) }
{
    End {
        p: side.p,
        q: side.q,
        len: side.len,
        rules: numbers(&side.rules, side.len),
    }
}

// The answer that two sides make.
fn answered(n: usize, low: &Side, high: &Side) -> Lap
    requires { (n ≤ 256) × (low.now.len ≤ 256) × (high.now.len ≤ 256) × ((v : ℕ) → n ≤ v → get_or high.now.x v 0 ≡ 0) × (length high.now.x ≡ 256) }
    ensures { (Exact low.now.p low.now.q high.now.p high.now.q result.exact) × (told_lap (Ok result) ≡ answered_lap (answer_of n low.now.p low.now.q low.now.len low.now.rules high.now.p high.now.q high.now.len high.now.rules high.now.x result.exact)) }
{
    Lap {
        exact: meet(low.p, low.q, high.p, high.q),
        low: end(low),
        high: end(high),
        schedule: high.x,
    }
}

// The lap of rules that may have blanks.
pub fn laps(c: &Columns) -> Result<Lap, Refusal>
    ensures { LapIn (of_columns c.now) (ranges_in c.now.least c.now.greatest) c.now.n (told_lap result) }
{
    if let Some(zero) = loops::zero_loop(&c.rules()) {
        return Err(Why::Loop.at(zero.at));
    }
    let Some(low) = measured(&c.low()) else {
        return Err(Why::Flat.at(0));
    };
    if !c.blank {
        return Ok(answered(c.n, &low, &low));
    }
    let Some(high) = measured(&c.high()) else {
        unreachable!() // the loop at the low end is one with any delays
    };
    Ok(answered(c.n, &low, &high))
}
