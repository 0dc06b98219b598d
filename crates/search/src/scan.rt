// Follows parents back from each transition: to one without a parent, to one that was passed before, or round.
ghost use Rattle.std.specs.Prelude.{◌≡◌, ◌⊎◌};
ghost use Rattle.columns.specs.Views.{of_filled, delays_of};
ghost use Rattle.search.specs.Search.{Valid, Scanned};
ghost use Rattle.search.specs.Scan.{Fresh, Walked, Low};

use columns::Filled;

// A closed walk of parents by its sums.
#[derive(Clone, Copy, PartialEq, Eq, Debug)]
pub struct Walk {
    pub delays: u64,
    pub offsets: u64,
}

// Follows parents back from one transition, and leaves its number and the sums so far at each that it passes.
// The sums are no wider than they get: 256 delays of 1,000,000 and 256 offsets of 15.
fn walk_back(
    rules: &Filled<'_>,
    par: &[u16; 256],
    from: usize,
    number: u16,
    stamp: &mut [u16; 256],
    delays: &mut [u32; 256],
    offsets: &mut [u16; 256],
) -> Option<Walk>
    requires valid { Valid (of_filled rules.now) par.now }
    requires fresh { Fresh rules.now.n from number stamp.old delays.old offsets.old }
    ensures { Walked (of_filled rules.now) (delays_of rules.now) rules.now.n par.now from number stamp.old stamp.new delays.new offsets.new result }
{
    let mut v = from;
    let mut a = 0;
    let mut e = 0;
    // follows parents
    while stamp[v] == 0 {
        let code = usize::from(par[v]);
        if code == 0 {
            return None;
        }
        stamp[v] = number;
        delays[v] = a;
        offsets[v] = e;
        let r = code - 1;
        a += rules.delay[r];
        e += rules.offset[r];
        v = usize::from(rules.source[r]);
    }
    if stamp[v] != number {
        return None;
    }
    Some(Walk {
        delays: u64::from(a - delays[v]),
        offsets: u64::from(e - offsets[v]),
    })
}

// The walk of the larger quotient of the two.
fn better(x: Walk, y: Walk) -> Walk
    requires low { Low x.delays x.offsets }
    requires low_2 { Low y.delays y.offsets }
    ensures { (result ≡ x) ⊎ (result ≡ y) }
{
    if y.delays * x.offsets <= x.delays * y.offsets {
        x
    } else {
        y
    }
}

// Walks back from every transition, numbered from 1, and keeps the closed walk of the largest quotient that it comes to.
pub fn scan(rules: &Filled<'_>, par: &[u16; 256]) -> Option<Walk>
    requires { Valid (of_filled rules.now) par.now }
    ensures { Scanned (of_filled rules.now) (delays_of rules.now) rules.now.n par.now result }
{
    let mut stamp = [0u16; 256];
    let mut delays = [0u32; 256];
    let mut offsets = [0u16; 256];
    let mut best: Option<Walk> = None;
    for from in 0..rules.n {
        let met = walk_back(
            rules,
            par,
            from,
            from as u16 + 1,
            &mut stamp,
            &mut delays,
            &mut offsets,
        );
        if let Some(walk) = met {
            best = match best {
                Some(kept) => Some(better(kept, walk)),
                None => met,
            };
        }
    }
    best
}
