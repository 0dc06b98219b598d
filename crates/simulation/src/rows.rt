// The rows of times: each in one sweep along the order.
ghost use Rattle.std.specs.Prelude.{◌+◌, ◌-◌, ◌*◌, ◌≤◌, ◌<◌, length, get_or};
ghost use Rattle.simulation.specs.Rows.{Asks, Larger, AsksAll, Pulled, Plan, Done, Row, Rows};

use crate::group::Groups;

// The larger of `best` and the time that a rule from s with offset e and delay a asks for, if it acts.
fn larger(best: u64, i: usize, n: usize, s: u16, e: u16, a: u32, times: &[u64]) -> u64
    requires { Asks i n s e times.now }
    ensures { Larger best i n s e a times.now result }
{
    let back = usize::from(e);
    if back <= i {
        let asked = times[(i - back) * n + usize::from(s)] + u64::from(a);
        best.max(asked)
    } else {
        best
    }
}

// The largest time that the rules into v ask for, and 0 if none acts.
fn pull(groups: &Groups, v: usize, n: usize, i: usize, times: &[u64]) -> u64
    requires { AsksAll groups.now v n i times.now }
    ensures { Pulled groups.now (get_or groups.now.first v 0) (get_or groups.now.first (v + 1) 0) n i times.now result }
{
    let mut best = 0;
    for j in usize::from(groups.first[v])..usize::from(groups.first[v + 1]) {
        best = larger(
            best,
            i,
            n,
            groups.sources[j],
            groups.offsets[j],
            groups.delays[j],
            times,
        );
    }
    best
}

// Occurrence i of every transition.
fn row(groups: &Groups, order: &[u16; 256], n: usize, i: usize, times: &mut [u64])
    requires plan { Plan groups.now order.now n }
    requires done { Done groups.now order.now n i 0 times.old }
    requires i_bound { (i < 1024) × (i * n + n ≤ length times.old) }
    ensures { Row groups.now order.now n i times.old times.new }
{
    for k in 0..n {
        let v = usize::from(order[k]);
        let best = pull(groups, v, n, i, times);
        times[i * n + v] = best;
    }
}

// The first `count` occurrences of every transition.
pub fn rows(groups: &Groups, order: &[u16; 256], n: usize, count: usize, times: &mut [u64])
    requires plan { Plan groups.now order.now n }
    requires count_bound { (count ≤ 1024) × (count * n ≤ length times.old) }
    ensures { Rows groups.now order.now n count times.old times.new }
{
    for i in 0..count {
        row(groups, order, n, i, times);
    }
}
