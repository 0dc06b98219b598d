// The first loop of a kind of rule: through the lowest transition on any of them, of fewest rules, then first in the order of rule numbers.
#![tactic(auto)]

mod first;

ghost use Rattle.std.specs.Prelude.{◌≡◌, true, false, [], ℕ, ◌+◌, ◌*◌, ◌^◌, ◌≤◌, ◌<◌, length, get_or, take};
ghost use Rattle.theory.specs.Schedule.{TightRule};
ghost use Rattle.columns.specs.Views.{of_arcs, of_rules, of_filled, delays_of};
ghost use Rattle.peel.specs.Peel.{Stays};
ghost use Rattle.distances.specs.Near.{away_from};
ghost use Rattle.loops.specs.Listed.{Sifted, Gathered, WithinListed};
ghost use Rattle.loops.specs.Ways.{Ways, followed};
ghost use Rattle.loops.specs.Found.{numbers, Ready, FoundIn, FoundListed, FoundFirst};
ghost use Rattle.loops.specs.Told.{len_of, at_of, rules_of};

use columns::{Arcs, Filled, Rules};
pub use first::Found;

// The rules of a kind, by number, lowest first: the first `len` places (no heap: there is room for every rule).
#[derive(Clone, Copy)]
struct Kind {
    rules: [u16; 2048],
    len: usize,
}

// The rules below m that pass the test.
fn kept<F: Fn(usize) -> bool>(m: usize, keep: F) -> Kind
    requires few { m ≤ 2048 }
    requires may { (r : ℕ) → r < m → F.pre keep r }
    ensures { Sifted (λ r. F.post keep r true) (λ r. F.post keep r false) result.rules result.len m }
{
    let mut rules = [0; 2048];
    let mut len = 0;
    for r in 0..m {
        rules[len] = r as u16; // written in any case: a branch round it would often be guessed wrongly
        if keep(r) {
            len += 1;
        }
    }
    Kind { rules, len }
}

// A rule from a transition scheduled at xs to one at xt is kept with nothing to spare.
fn tight(xs: u64, xt: u64, offset: u16, delay: u32, p: u64, q: u64) -> bool
    requires { (xs ≤ 2 ^ 62) × (xt ≤ 2 ^ 62) × (offset ≤ 15) × (delay ≤ 1000000) × (p ≤ 256000000) × (q ≤ 3840) }
    ensures { (result ≡ true → xs + q * delay ≡ xt + p * offset) × (result ≡ false → xs + q * delay ≡ xt + p * offset → ⊥) }
{
    xs + q * u64::from(delay) == xt + p * u64::from(offset)
}

// A column's entries for the listed rules only: rule j of the list stands at place j.
fn gather(column: &[u16; 2048], list: &[u16]) -> [u16; 2048]
    requires few { length list.now ≤ 2048 }
    requires by_index { (j : ℕ) → j < length list.now → get_or list.now j 0 < 2048 }
    ensures { Gathered column.now list.now (length list.now) result }
{
    let mut picked = [0; 2048];
    for (j, &r) in list.iter().enumerate() {
        picked[j] = column[usize::from(r)];
    }
    picked
}

// How far t is from v, where d is the least number of rules, 1 or more, from t to v.
fn away(t: usize, v: usize, d: u16) -> usize
    ensures { result ≡ away_from v t d }
{
    if t == v { 0 } else { usize::from(d) }
}

// At each transition the lowest rule that comes one nearer to v: the last found, from the last rule down.
fn ways(arcs: &Arcs<'_>, v: usize, dist: &[u16; 256]) -> [u16; 256]
    requires { (x : ℕ) → get_or dist.now x 0 ≤ 512 }
    ensures { Ways (of_arcs arcs.now) v dist.now 0 result }
{
    let mut next = [0; 256];
    for j in (0..arcs.m).rev() {
        let s = usize::from(arcs.source[j]);
        let t = usize::from(arcs.target[j]);
        if away(t, v, dist[t]) + 1 == usize::from(dist[s]) {
            next[s] = j as u16;
        }
    }
    next
}

// The k rules of the first way from v to v, by their numbers.
fn route(target: &[u16; 2048], list: &[u16], v: usize, k: usize, next: &[u16; 256]) -> [u16; 256]
    requires ready { Ready target.now next.now v k }
    requires named { (u : ℕ) → get_or next.now u 0 < length list.now }
    ensures { take k result ≡ numbers list.now (followed target.now next.now v k) }
{
    let mut rules = [0; 256];
    let mut u = v;
    for i in 0..k {
        let j = usize::from(next[u]);
        rules[i] = list[j];
        u = usize::from(target[j]);
    }
    rules
}

// The first loop of the rules; rule j goes by the number list[j]. It is read from the lowest transition truly on one: a transition may remain though it is
// on none, between two loops.
fn seek_loop(arcs: &Arcs<'_>, list: &[u16], alive: &[u8; 256]) -> Option<Found>
    requires named { length list.now ≡ arcs.now.m }
    requires stays { Stays (of_arcs arcs.now) alive.now }
    ensures { FoundIn (of_arcs arcs.now) list.now arcs.now.n (len_of result) (at_of result) (rules_of result) }
{
    let mut head = [0; 256];
    let mut links = [0; 2048];
    distances::link_back(arcs.source, arcs.target, arcs.m, &mut head, &mut links);
    for at in 0..arcs.n {
        if alive[at] == 1 {
            let back = distances::near(arcs, &head, &links, at);
            let k = usize::from(back.dist[at]);
            if k < distances::FAR {
                let next = ways(arcs, at, &back.dist);
                let rules = route(arcs.target, list, at, k, &next);
                return Some(Found { len: k, at, rules });
            }
        }
    }
    None
}

// The first loop of those rules. There is one exactly when peeling leaves a remnant; only then is its place sought.
fn first_loop(arcs: &Arcs<'_>, list: &[u16]) -> Option<Found>
    requires { length list.now ≡ arcs.now.m }
    ensures { FoundIn (of_arcs arcs.now) list.now arcs.now.n (len_of result) (at_of result) (rules_of result) }
{
    let peeled = peel::peel(arcs);
    if peeled.count < arcs.n {
        return seek_loop(arcs, list, &peeled.alive);
    }
    None
}

// The first loop of the listed rules, by their numbers.
fn first_listed(source: &[u16; 2048], target: &[u16; 2048], list: &[u16], n: usize) -> Option<Found>
    requires { WithinListed source.now target.now list.now n }
    ensures { FoundListed source.now target.now list.now n (len_of result) (at_of result) (rules_of result) }
{
    let arcs = Arcs {
        source: &gather(source, list),
        target: &gather(target, list),
        m: list.len(),
        n,
    };
    first_loop(&arcs, list)
}

// The first loop of rules of offset 0.
pub fn zero_loop(rules: &Rules<'_>) -> Option<Found>
    ensures { FoundFirst (of_rules rules.now) (λ i. get_or rules.now.offset.now i 0 ≡ 0) rules.now.n (len_of result) (at_of result) (rules_of result) }
{
    let kind = kept(rules.m, |r| rules.offset[r] == 0);
    first_listed(rules.source, rules.target, &kind.rules[..kind.len], rules.n)
}

// The first loop of rules that are tight at the schedule x.
pub fn tight_loop(rules: &Filled<'_>, p: u64, q: u64, x: &[u64; 256]) -> Option<Found>
    requires { (p ≤ 256000000) × (q ≤ 3840) × ((v : ℕ) → get_or x.now v 0 ≤ 2 ^ 62) }
    ensures { FoundFirst (of_filled rules.now) (TightRule (of_filled rules.now) (delays_of rules.now) p q x.now) rules.now.n (len_of result) (at_of result) (rules_of result) }
{
    let kind = kept(rules.m, |r| {
        let xs = x[usize::from(rules.source[r])];
        let xt = x[usize::from(rules.target[r])];
        tight(xs, xt, rules.offset[r], rules.delay[r], p, q)
    });
    first_listed(rules.source, rules.target, &kind.rules[..kind.len], rules.n)
}
