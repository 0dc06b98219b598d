// How far each transition is from one of them: the least number of rules, 1 or more, that lead there. Found breadth first, over the rules linked by their targets.
#![tactic(auto)]

ghost use Rattle.std.specs.Prelude.{◌≡◌, [], ℕ, ◌≤◌, ◌<◌, get_or, replicate};
ghost use Rattle.columns.specs.Views.{of_arcs};
ghost use Rattle.peel.specs.Linked.{Linked};
ghost use Rattle.distances.specs.Links.{SameSource, Before};
ghost use Rattle.distances.specs.Queue.{Noted, Searching, Looking, Sought};

use columns::Arcs;

// How far each transition is from one of them, and how many were found; the others are FAR.
#[derive(Clone, Copy)]
pub struct Distances {
    pub dist: [u16; 256],
    pub count: usize,
}

// No transition is as far as this. (A number and no Option: `near` promises it to `loops` and `rates`, and `note` chooses by it without a branch.)
pub const FAR: usize = 512;

// What stands before rule r in its list, where `last` says the last rule into its target that was linked: that one; or, where it is rule r - 1 and comes from the same
// transition, what stands before that one. `last` is compared first, and alone: most tables pay for nothing else.
fn before_rule(source: &[u16; 2048], next: &[u16; 2048], r: usize, last: u16) -> u16
    requires { r < 2048 }
    ensures { Before source.now next.now r last result }
{
    if usize::from(last) == r && 0 < r && source[r] == source[r - 1] {
        next[r - 1]
    } else {
        last
    }
}

// The rules into each transition, the last first: head[v] is 1 more than the last rule into v, next[r] than the one before r, and 0 where there is none. Of those that
// stand one after the other and come from the same transition only the last is in the list: for distances they say the same.
// (`peel` has its like. What goes into next[r] differs, and with it the relation that is promised: one for both, with a trait for that, is longer than the two.)
pub fn link_back(
    source: &[u16; 2048],
    target: &[u16; 2048],
    len: usize,
    head: &mut [u16; 256],
    next: &mut [u16; 2048],
)
    requires { (len ≤ 2048) × ((r : ℕ) → r < len → get_or target.now r 0 < 256) × (head.old ≡ replicate 256 0) × (next.old ≡ replicate 2048 0) }
    ensures { Linked (SameSource source.now) target.now len head.new next.new }
{
    for r in 0..len {
        let v = usize::from(target[r]);
        next[r] = before_rule(source, next, r, head[v]);
        head[v] = (r + 1) as u16;
    }
}

// The distance found before, `had`, else d. This and the next are chosen without a branch, which the machine would often guess wrongly.
fn earlier(had: u16, d: u16) -> u16
    ensures { (had < 512 → result ≡ had) × (had ≡ 512 → result ≡ d) }
{
    if usize::from(had) < FAR { had } else { d }
}

// 0 where it was found before, else 1.
fn fresh(had: u16) -> usize
    ensures { (result ≤ 1) × (had < 512 → result ≡ 0) × (had ≡ 512 → result ≡ 1) }
{
    if usize::from(had) < FAR { 0 } else { 1 }
}

// Transition s is d away, unless its distance was found before; it is written at the end of the queue, which moves on past a new one.
fn note(s: usize, d: usize, count: usize, dist: &mut [u16; 256], order: &mut [u16; 256]) -> usize
    requires { (s < 256) × (d < 512) × (count < 256) }
    ensures { Noted s d dist.old dist.new order.old order.new count result }
{
    let had = dist[s];
    dist[s] = earlier(had, d as u16);
    order[count] = s as u16;
    count + fresh(had)
}

// The source of each rule into t is d away, unless its distance was found before. With all n found it stops, so that there is room for each that is written.
// The rules are linked by their targets. (v is there for the contract alone.)
fn look_back(
    arcs: &Arcs<'_>,
    head: &[u16; 256],
    next: &[u16; 2048],
    v: usize,
    t: usize,
    d: usize,
    count: usize,
    dist: &mut [u16; 256],
    order: &mut [u16; 256],
) -> usize
    requires linked { (Linked (SameSource arcs.now.source.now) arcs.now.target.now arcs.now.m head.now next.now) × (t < 256) }
    requires searching { Searching (of_arcs arcs.now) arcs.now.n v t d dist.old order.old count }
    ensures { Looking (of_arcs arcs.now) arcs.now.n v t d dist.old order.old count dist.new order.new result 0 }
{
    let mut found = count;
    let mut left = usize::from(head[t]);
    // follows the links
    while 0 < left && found < arcs.n {
        let r = left - 1;
        found = note(usize::from(arcs.source[r]), d, found, dist, order);
        left = usize::from(next[r]);
    }
    found
}

// The least number of rules, 1 or more, from each transition to v: breadth first, so that each rule is looked at once at most, and none when all n were found.
pub fn near(arcs: &Arcs<'_>, head: &[u16; 256], next: &[u16; 2048], v: usize) -> Distances
    requires { (Linked (SameSource arcs.now.source.now) arcs.now.target.now arcs.now.m head.now next.now) × (v < arcs.now.n) }
    ensures { Sought (of_arcs arcs.now) arcs.now.n v result.dist result.count }
{
    let mut dist = [512u16; 256];
    let mut order = [0u16; 256];
    let mut count = look_back(arcs, head, next, v, v, 1, 0, &mut dist, &mut order);
    let mut done = 0;
    // the queue grows while it is worked off
    while done < count && count < arcs.n {
        let t = usize::from(order[done]);
        let d = usize::from(dist[t]) + 1;
        count = look_back(arcs, head, next, v, t, d, count, &mut dist, &mut order);
        done += 1;
    }
    Distances { dist, count }
}

// The same of rules that are not linked yet.
pub fn distances_to(arcs: &Arcs<'_>, v: usize) -> Distances
    requires { v < arcs.now.n }
    ensures { Sought (of_arcs arcs.now) arcs.now.n v result.dist result.count }
{
    let mut head = [0u16; 256];
    let mut next = [0u16; 2048];
    link_back(arcs.source, arcs.target, arcs.m, &mut head, &mut next);
    near(arcs, &head, &next, v)
}
