// The ratio to start from. At a ratio that no loop is above, each transition takes the rule that asks most of it; where the parents so chosen come round
// they have one of the best quotients, and most often the best.
ghost use Rattle.std.specs.Prelude.{◌≡◌, ◌⊎◌};
ghost use Rattle.columns.specs.Views.{of_filled, delays_of};
ghost use Rattle.search.specs.Search.{Started};
ghost use Rattle.search.specs.Above.{Bids, Bid};

use crate::scan::{self, Walk};
use columns::Filled;

// The ratio tried, for 1 turn: 256 delays of 1,000,000.
const TURN: u64 = 256000000;

// Values are kept 15 turns higher than they are, so that none is below 0.
const LIFT: u64 = 3840000000;

// The larger of two values. This and the next are chosen without a branch, which the machine would often guess wrongly.
// Not `x.max(y)`: with it the next is compiled to a branch, and the climb is slower.
fn larger(x: u64, y: u64) -> u64
    ensures { (result ≡ x) ⊎ (result ≡ y) }
{
    if x < y { y } else { x }
}

// The new parent where y is more than x, else the old one.
fn parent(x: u64, y: u64, old: u16, new: u16) -> u16
    ensures { (result ≡ old) ⊎ (result ≡ new) }
{
    if x < y { new } else { old }
}

// Rule i, from s to t with offset e and delay a, is t's parent if it asks for more than the others did.
fn bid(i: usize, s: u16, t: u16, e: u16, a: u32, most: &mut [u64; 256], par: &mut [u16; 256])
    requires { Bids i s t e a most.old }
    ensures { Bid i s t most.old par.old most.new par.new }
{
    let from = usize::from(s);
    let to = usize::from(t);
    let asked = most[from].max(LIFT) + u64::from(a) + 1 - TURN * u64::from(e);
    let had = most[to];
    most[to] = larger(had, asked);
    par[to] = parent(had, asked, par[to], (i + 1) as u16);
}

// The parents so chosen, and a closed walk of them, where there is one.
#[derive(Clone, Copy)]
pub struct Parents {
    pub met: Option<Walk>,
    pub par: [u16; 256],
}

pub fn start(rules: &Filled<'_>, order: &[u16; 2048]) -> Parents
    ensures { Started (of_filled rules.now) (delays_of rules.now) rules.now.n result.met }
{
    let mut most = [0; 256];
    let mut par = [0; 256];
    for &rule in &order[..rules.m] {
        let i = usize::from(rule);
        if i < rules.m {
            bid(
                i,
                rules.source[i],
                rules.target[i],
                rules.offset[i],
                rules.delay[i],
                &mut most,
                &mut par,
            );
        }
    }
    let met = scan::scan(rules, &par);
    Parents { met, par }
}
