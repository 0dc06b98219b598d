// Peeling: strike out any transition that no remaining rule enters, or none leaves, until nothing more can be struck. A remnant means that there is a loop.
// Those that none enters are struck first, then those that none leaves: the order does not matter for what remains.
#![tactic(auto)]

ghost use Rattle.std.specs.Prelude.{◌≡◌, ◌↔◌, IsTrue, ℕ, ◌≤◌, ◌<◌, get_or, replicate};
ghost use Rattle.columns.specs.Views.{of_arcs};
ghost use Rattle.peel.specs.Linked.{Linked, NoneAlike, Row};
ghost use Rattle.peel.specs.Peeling.{Tallied, Waiting, Lessened, Spread, StruckNext, Stripped, Peeled};

use columns::Arcs;

// The transitions that remain (1) and those struck (0), and how many were struck. (Numbers, as the laws of `Stays` and `Remnant` have them.)
#[derive(Clone, Copy)]
pub struct Remnant {
    pub alive: [u8; 256],
    pub count: usize,
}

// The rules at each transition, by one of their ends: head[v] is 1 more than the last rule at v, next[r] than the one before r, and 0 where there is none.
// (0 and no Option, which takes twice the memory: a walk along the links reads little else. `distances::link_back` is its like, and says why there are two.)
fn link(column: &[u16; 2048], len: usize, head: &mut [u16; 256], next: &mut [u16; 2048])
    requires { (len ≤ 2048) × ((r : ℕ) → r < len → get_or column.now r 0 < 256) × (head.old ≡ replicate 256 0) × (next.old ≡ replicate 2048 0) }
    ensures { Linked NoneAlike column.now len head.new next.new }
{
    for r in 0..len {
        let v = usize::from(column[r]);
        next[r] = head[v];
        head[v] = (r + 1) as u16;
    }
}

// A rule from u to w remains while both its ends do.
fn remains(alive: &[u8; 256], u: usize, w: usize) -> bool
    requires { (u < 256) × (w < 256) }
    ensures { IsTrue result ↔ ((get_or alive.now u 0 ≡ 1) × (get_or alive.now w 0 ≡ 1)) }
{
    alive[u] == 1 && alive[w] == 1
}

// How many remaining rules enter each transition.
fn count_entering(arcs: &Arcs<'_>, alive: &[u8; 256]) -> [u16; 256]
    ensures { Tallied (of_arcs arcs.now) alive.now 0 0 arcs.now.m result }
{
    let mut entering = [0u16; 256];
    for r in 0..arcs.m {
        let u = usize::from(arcs.source[r]);
        let w = usize::from(arcs.target[r]);
        if remains(alive, u, w) {
            entering[w] += 1;
        }
    }
    entering
}

// A transition that remains, and that no remaining rule enters.
fn unentered(alive: u8, entering: u16) -> bool
    ensures { IsTrue result ↔ ((alive ≡ 1) × (entering ≡ 0)) }
{
    alive == 1 && entering == 0
}

// Lists the transitions that no remaining rule enters. Gives their number.
fn list_unentered(
    n: usize,
    alive: &[u8; 256],
    entering: &[u16; 256],
    order: &mut [u16; 256],
) -> usize
    requires n_bound { n ≤ 256 }
    requires row { Row n order.old }
    ensures { (Waiting n alive.now entering.now order.new 0 result) × (Row n order.new) }
{
    let mut count = 0;
    for v in 0..n {
        if unentered(alive[v], entering[v]) {
            order[count] = v as u16;
            count += 1;
        }
    }
    count
}

// One rule less enters w. If that was the last, w is to be struck: it joins those that wait.
fn one_less(w: usize, count: usize, entering: &mut [u16; 256], order: &mut [u16; 256]) -> usize
    requires { (w < 256) × (0 < get_or entering.old w 0) × (get_or entering.old w 0 ≡ 1 → count < 256) }
    ensures { Lessened w entering.old entering.new order.old order.new count result }
{
    entering[w] -= 1;
    if entering[w] == 0 {
        order[count] = w as u16;
        count + 1
    } else {
        count
    }
}

// Strikes out the transition at place `done` of those that wait. The rules that leave it no longer remain.
fn strike_next(
    arcs: &Arcs<'_>,
    head: &[u16; 256],
    next: &[u16; 2048],
    done: usize,
    count: usize,
    alive: &mut [u8; 256],
    entering: &mut [u16; 256],
    order: &mut [u16; 256],
) -> usize
    requires linked { Linked NoneAlike arcs.now.source.now arcs.now.m head.now next.now }
    requires waits { done < count }
    requires spread { Spread (of_arcs arcs.now) arcs.now.n 0 0 alive.old entering.old order.old done count }
    ensures { StruckNext (of_arcs arcs.now) arcs.now.n alive.old order.old done alive.new entering.new order.new result }
{
    let v = usize::from(order[done]);
    alive[v] = 0;
    let mut waiting = count;
    let mut left = usize::from(head[v]);
    // follows the links
    while 0 < left {
        let r = left - 1;
        let w = usize::from(arcs.target[r]);
        if alive[w] == 1 {
            waiting = one_less(w, waiting, entering, order);
        }
        left = usize::from(next[r]);
    }
    waiting
}

// Strikes out the transitions that no remaining rule enters, one after the other, until there is none. Gives their number.
fn strike_unentered(arcs: &Arcs<'_>, alive: &mut [u8; 256], order: &mut [u16; 256]) -> usize
    requires { Row arcs.now.n order.old }
    ensures { Stripped (of_arcs arcs.now) arcs.now.n alive.old alive.new order.new result }
{
    let mut head = [0u16; 256];
    let mut next = [0u16; 2048];
    link(arcs.source, arcs.m, &mut head, &mut next);
    let mut entering = count_entering(arcs, alive);
    let mut count = list_unentered(arcs.n, alive, &entering, order);
    let mut done = 0;
    // those that wait grow more while they are struck
    while done < count {
        count = strike_next(arcs, &head, &next, done, count, alive, &mut entering, order);
        done += 1;
    }
    done
}

// Peels the rules. What none leaves is what none enters when they are turned round.
pub fn peel(arcs: &Arcs<'_>) -> Remnant
    ensures { Peeled (of_arcs arcs.now) arcs.now.n result.alive result.count }
{
    let mut alive = [1u8; 256];
    let mut order = [0u16; 256];
    let first = strike_unentered(arcs, &mut alive, &mut order);
    if arcs.n <= first {
        return Remnant {
            alive,
            count: first,
        };
    }
    let mut others = [0u16; 256];
    let second = strike_unentered(&arcs.back(), &mut alive, &mut others);
    Remnant {
        alive,
        count: first + second,
    }
}
