// Orders in which to raise values: the rules of offset 0 source first, and the parents from their roots on. A pass in such an order carries a value along
// many rules at once. They are hints: passes in any order come to the same end, so nothing is promised of them.
ghost use Rattle.std.specs.Prelude.{◌≡◌, ℕ, ◌≤◌, ◌<◌, get_or};
ghost use Rattle.search.specs.Order.{Most, Queued};

use columns::Rules;

// The rules that leave each transition, linked: `first` and `next` hold 1 more than a rule's number, and 0 for none
// (no Option, which takes twice the memory). `waits` counts the rules of offset 0 that enter each.
#[derive(Clone, Copy)]
struct Links {
    first: [u16; 256],
    next: [u16; 2048],
    waits: [u16; 256],
}

// The transitions that wait for nothing, in the order in which they came to it: the first `end` places of `list`.
// What stands past those counts for nothing (fixed memory).
#[derive(Clone, Copy)]
struct Queue {
    list: [u16; 256],
    end: usize,
}

// How many rules are listed, and where the queue ends.
#[derive(Clone, Copy)]
struct Counts {
    len: usize,
    end: usize,
}

// 1 where x is less than y, else 0. It is added where a branch would do: the machine would often guess wrongly which way that goes,
// and lose more time than the rest of the turn takes.
fn less(x: u16, y: u16) -> u16
    ensures { result ≤ 1 }
{
    u16::from(x < y)
}

// The links of the rules below m: from the last one back, so that the rules of a transition are met in the file's order.
fn link(rules: &Rules<'_>) -> Links
    ensures { Most result.first rules.now.m × Most result.next rules.now.m }
{
    let mut first = [0u16; 256];
    let mut next = [0u16; 2048];
    let mut waits = [0u16; 256];
    for r in (0..rules.m).rev() {
        let s = usize::from(rules.source[r]);
        let t = usize::from(rules.target[r]);
        next[r] = first[s];
        first[s] = (r + 1) as u16;
        waits[t] += less(rules.offset[r], 1); // 1 for offset 0
    }
    Links { first, next, waits }
}

// The queue at first. Each transition is written at its end, which moves on past those that wait for nothing.
fn ready(waits: &[u16; 256], n: usize) -> Queue
    requires { n ≤ 256 }
    ensures { Queued result.list result.end }
{
    let mut list = [0u16; 256];
    let mut end = 0;
    for v in 0..n {
        list[end] = v as u16;
        end += usize::from(less(waits[v], 1));
    }
    Queue { list, end }
}

// A rule into transition v is listed: v waits for `one` fewer (1 or 0), and joins the queue in the same way where that was the last.
// Hands back where the queue ends.
// (It never waits for less, and none joins a full queue: the guards spare proofs that a hint does not need.)
fn release(v: usize, one: u16, waits: &mut [u16; 256], list: &mut [u16; 256], end: usize) -> usize
    requires { (v < 256) × Queued list.old end }
    ensures { Queued list.new result }
{
    let before = waits[v];
    if before < one {
        return end;
    }
    let left = before - one;
    waits[v] = left;
    if end < 256 {
        list[end] = v as u16;
        end + usize::from(less(left, one))
    } else {
        end
    }
}

// Lists the rules that leave a transition: `from` is its first link.
// (Never more than m in all: the guard spares a proof that a hint does not need, and with it the loop is seen to end.)
fn leave(
    rules: &Rules<'_>,
    next: &[u16; 2048],
    from: usize,
    waits: &mut [u16; 256],
    list: &mut [u16; 256],
    order: &mut [u16; 2048],
    counts: Counts,
) -> Counts
    requires { Most next.now rules.now.m × (from ≤ rules.now.m) × Queued list.old counts.end }
    ensures { Queued list.new result.end }
{
    let mut len = counts.len;
    let mut end = counts.end;
    let mut at = from;
    // follows the links
    while len < rules.m && at != 0 {
        let r = at - 1;
        at = usize::from(next[r]); // read first: the next turn waits for it, and for nothing else
        order[len] = r as u16;
        len += 1;
        end = release(
            usize::from(rules.target[r]),
            less(rules.offset[r], 1),
            waits,
            list,
            end,
        );
    }
    Counts { len, end }
}

// The rules below m in that order. Those that a loop of offset 0 keeps back are left out, and zeros stand past the last.
pub fn order(rules: &Rules<'_>) -> [u16; 2048] {
    let links = &mut link(rules); // lent field by field, and so not copied
    let mut queue = ready(&links.waits, rules.n);
    let mut order = [0u16; 2048];
    let mut counts = Counts {
        len: 0,
        end: queue.end,
    };
    let mut at = 0;
    // the queue grows while it is worked off
    while at < counts.end {
        let u = usize::from(queue.list[at]);
        counts = leave(
            rules,
            &links.next,
            usize::from(links.first[u]),
            &mut links.waits,
            &mut queue.list,
            &mut order,
            counts,
        );
        at += 1;
    }
    order
}

// Rules by number: the first `len` places of `rules` (fixed memory).
#[derive(Clone, Copy)]
pub struct List {
    pub rules: [u16; 2048],
    pub len: usize,
}

// Follows parents back from one transition to one that was seen, or that has none. `way` then holds the rules that were followed. Hands back their number.
// (Never more than there are transitions: that spares a proof that a hint does not need.)
fn trace(
    rules: &Rules<'_>,
    par: &[u16; 256],
    from: usize,
    seen: &mut [bool; 256],
    way: &mut [u16; 256],
) -> usize
    requires { from < 256 }
    ensures { result ≤ 256 }
{
    let mut v = from;
    for k in 0..256 {
        if seen[v] {
            return k;
        }
        seen[v] = true;
        let code = usize::from(par[v]);
        if code == 0 || rules.m < code {
            return k;
        }
        let r = code - 1;
        way[k] = r as u16;
        v = usize::from(rules.source[r]);
    }
    256
}

// Lists the rules of a way, the last first. Hands back how many are listed.
fn append(way: &[u16], rules: &mut [u16; 2048], len: usize) -> usize
    requires { len ≤ 2048 }
    ensures { result ≤ 2048 }
{
    let mut end = len;
    for &rule in way.iter().rev() {
        if end == 2048 {
            break;
        }
        rules[end] = rule;
        end += 1;
    }
    end
}

// The parents, each after that of its source.
pub fn roots_first(rules: &Rules<'_>, par: &[u16; 256]) -> List
    ensures { result.len ≤ 2048 }
{
    let mut list = List {
        rules: [0; 2048],
        len: 0,
    };
    let mut seen = [false; 256];
    let mut way = [0u16; 256];
    for v in 0..rules.n {
        let k = trace(rules, par, v, &mut seen, &mut way);
        list.len = append(&way[..k], &mut list.rules, list.len);
    }
    list
}
