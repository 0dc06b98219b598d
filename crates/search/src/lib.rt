// The climb from ratio to ratio: passes over the rules until nothing rises, or a closed walk above the ratio is found.
// x holds the values of the transitions; par 1 more than the number of the rule that last raised each, and 0 for none: two bytes for each, in fixed memory.
#![tactic(auto)]

mod above;
mod order;
mod scan;

ghost use Rattle.std.specs.Prelude.{◌≡◌, true, ◌*◌, ◌≤◌, ◌<◌, length, get_or};
ghost use Rattle.model.specs.Loop.{SomeLoop, Live};
ghost use Rattle.theory.specs.Ratio.{IsGcd};
ghost use Rattle.columns.specs.Views.{of_filled, delays_of};
ghost use Rattle.search.specs.Search.{Settled, Reached};
ghost use Rattle.search.specs.Climbing.{Asks, Risen, Query, Ready, Ended, Carried, Quotient};

use columns::Filled;
use scan::Walk;

// Rule i raises its target to what it asks at the ratio, and is then its parent.
fn raise(rules: &Filled<'_>, i: usize, at: Ratio, x: &mut [u64; 256], par: &mut [u16; 256]) -> bool
    requires below { i < rules.now.m }
    requires asks { Asks i (get_or rules.now.source.now i 0) (get_or rules.now.target.now i 0) (at.q * get_or rules.now.delay.now i 0) (at.p * get_or rules.now.offset.now i 0) x.old }
    ensures { Risen i (get_or rules.now.source.now i 0) (get_or rules.now.target.now i 0) (at.q * get_or rules.now.delay.now i 0) (at.p * get_or rules.now.offset.now i 0) x.old par.old x.new par.new result }
{
    let from = usize::from(rules.source[i]);
    let to = usize::from(rules.target[i]);
    let asked = x[from] + at.q * u64::from(rules.delay[i]);
    let less = at.p * u64::from(rules.offset[i]);
    if asked <= x[to] + less {
        return false;
    }
    x[to] = asked - less;
    par[to] = (i + 1) as u16;
    true
}

// Every rule once, in the file's order. Tells whether something rose.
fn pass(rules: &Filled<'_>, at: Ratio, x: &mut [u64; 256], par: &mut [u16; 256]) -> bool
    requires { Ready (of_filled rules.now) (delays_of rules.now) at.p at.q x.old par.old }
    ensures { Ended (of_filled rules.now) (delays_of rules.now) at.p at.q x.old par.old x.new par.new result }
{
    let mut changed = false;
    for i in 0..rules.m {
        if raise(rules, i, at, x, par) {
            changed = true;
        }
    }
    changed
}

// The rules of a list. Values may rise in any order: what it names twice, or leaves out, does no harm.
fn carry(rules: &Filled<'_>, list: &[u16], at: Ratio, x: &mut [u64; 256], par: &mut [u16; 256])
    requires { (length list.now ≤ 2048) × Ready (of_filled rules.now) (delays_of rules.now) at.p at.q x.old par.old }
    ensures { Carried (of_filled rules.now) (delays_of rules.now) at.p at.q x.old par.old x.new par.new }
{
    for &rule in list {
        let i = usize::from(rule);
        if i < rules.m {
            raise(rules, i, at, x, par);
        }
    }
}

// The rules that are parents, from their roots on.
fn follow(
    rules: &Filled<'_>,
    parents: &[u16; 256],
    at: Ratio,
    x: &mut [u64; 256],
    par: &mut [u16; 256],
)
    requires { Ready (of_filled rules.now) (delays_of rules.now) at.p at.q x.old par.old }
    ensures { Carried (of_filled rules.now) (delays_of rules.now) at.p at.q x.old par.old x.new par.new }
{
    let list = order::roots_first(&rules.rules(), parents);
    carry(rules, &list.rules[..list.len], at, x, par);
}

// Passes from zeros at p/q, in the order given and then in the file's, until one raises nothing or the parents come round. The n-th does one or the other.
// Before the first the parents given in par raise what they can, and between two those that there are.
// Ends with the least values that keep every rule, in x, or with a closed walk above the ratio, of parents.
fn settle(
    rules: &Filled<'_>,
    order: &[u16; 2048],
    at: Ratio,
    x: &mut [u64; 256],
    par: &mut [u16; 256],
) -> Option<Walk>
    requires { Query (of_filled rules.now) (delays_of rules.now) rules.now.n at.p at.q }
    ensures { Settled (of_filled rules.now) (delays_of rules.now) at.p at.q rules.now.n x.new result }
{
    let parents = *par;
    *x = [0u64; 256];
    *par = [0u16; 256];
    follow(rules, &parents, at, x, par);
    let mut k = 0usize; // passes done: less than n, so the loop ends
    loop {
        carry(rules, &order[..rules.m], at, x, par);
        if !pass(rules, at, x, par) {
            return None;
        }
        if let Some(walk) = scan::scan(rules, par) {
            return Some(walk);
        }
        let raised = *par;
        follow(rules, &raised, at, x, par);
        k += 1;
    }
}

// The greatest common divisor, by Euclid's algorithm.
fn gcd(a: u64, b: u64) -> u64
    ensures { IsGcd a b result }
{
    let mut x = a;
    let mut y = b;
    // y falls, though not by one
    while 0 < y {
        let z = x % y;
        x = y;
        y = z;
    }
    x
}

// A ratio. (`engine` has its like for what it hands out: were it this one, all that speak of a rate or a bid would stand on the search.)
#[derive(Clone, Copy, PartialEq, Eq, Debug)]
struct Ratio {
    p: u64,
    q: u64,
}

// a/e in lowest terms.
fn quotient(a: u64, e: u64) -> Ratio
    requires { 0 < e }
    ensures { Quotient a e result.p result.q }
{
    let d = gcd(a, e);
    Ratio { p: a / d, q: e / d }
}

// The ratio at which the climb ended, in lowest terms, whether it is a closed walk's that was found, and the least values that keep every rule there.
// (A flag and no Option: the ratio and the values are there in any case, 0/1 where no closed walk was found.)
#[derive(Clone, Copy)]
pub struct Top {
    pub found: bool,
    pub p: u64,
    pub q: u64,
    pub x: [u64; 256],
}

// From the first ratio to that of a closed walk above, and again, until no closed walk is above.
pub fn climb(rules: &Filled<'_>) -> Top
    requires { Live (of_filled rules.now) }
    ensures reached { Reached (of_filled rules.now) (delays_of rules.now) result.p result.q result.x }
    ensures some_loop { result.found ≡ true → SomeLoop (of_filled rules.now) }
{
    let order = order::order(&rules.rules());
    let first = above::start(rules, &order);
    let mut par = first.par;
    let mut found = first.met.is_some();
    let mut ratio = match first.met {
        Some(walk) => quotient(walk.delays, walk.offsets),
        None => Ratio { p: 0, q: 1 },
    };
    let mut x = [0; 256];
    while let Some(walk) = settle(rules, &order, ratio, &mut x, &mut par) {
        ratio = quotient(walk.delays, walk.offsets);
        found = true;
    }
    Top {
        found,
        p: ratio.p,
        q: ratio.q,
        x,
    }
}
