// An order of the transitions in which the source of a rule of offset 0 comes before its target.
ghost use Rattle.std.specs.Prelude.{◌≡◌, true, false, ℕ, ◌+◌, ◌≤◌, ◌<◌, get_or, set};
ghost use Rattle.simulation.specs.Groups.{Within, Bounded};
ghost use Rattle.simulation.specs.Order.{Ready, Found, Ranked, Complete};

use crate::group::Groups;

// Whether each rule of offset 0 into v has a source that is done.
fn ready(groups: &Groups, v: usize, done: &[bool; 256]) -> bool
    requires { (v < 256) × (get_or groups.now.first (v + 1) 0 ≤ 2048) × ((j : ℕ) → Within groups.now.first v j → get_or groups.now.sources j 0 < 256) }
    ensures { Ready groups.now v done.now result }
{
    for j in usize::from(groups.first[v])..usize::from(groups.first[v + 1]) {
        if groups.offsets[j] == 0 && !done[usize::from(groups.sources[j])] {
            return false;
        }
    }
    true
}

// The lowest transition that can come next.
fn next(groups: &Groups, n: usize, done: &[bool; 256]) -> Option<usize>
    requires { Bounded groups.now n }
    ensures { Found groups.now n done.now result }
{
    for v in 0..n {
        if !done[v] && ready(groups, v, done) {
            return Some(v);
        }
    }
    None
}

// Transition v takes place k and is done.
fn place(k: usize, v: usize, order: &mut [u16; 256], done: &mut [bool; 256])
    requires { (k < 256) × (v < 256) }
    ensures { (order.new ≡ set order.old k v) × (done.new ≡ set done.old v true) }
{
    order[k] = v as u16;
    done[v] = true;
}

// All n transitions in order: one that can come next is found for each place.
pub fn order(groups: &Groups, n: usize) -> [u16; 256]
    requires bounded { Bounded groups.now n }
    requires ranked { Ranked groups.now n }
    ensures { Complete groups.now n result }
{
    let mut order = [0; 256];
    let mut done = [false; 256];
    for k in 0..n {
        let v = next(groups, n, &done).unwrap(); // place k is free, so a transition is left for it
        place(k, v, &mut order, &mut done);
    }
    order
}
