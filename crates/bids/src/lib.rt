// Two rule files for the same socket, and the better of the two: the one with the lower high end.
#![tactic(auto)]

ghost use Rattle.std.specs.Prelude.{◌≡◌, ◌*◌, ltb, IfOk};
ghost use Rattle.bids.specs.Promise.{told_bid, told_laid, choice_of, BidOf, LaidOf, BetterOf};
ghost use Rattle.bids.specs.Steps.{Small};

pub use engine::{Range, Ratio};
use refusals::Refusal;

// The better of two bids; neither, where neither can be analysed.
#[derive(Clone, Copy, Debug, PartialEq, Eq)]
pub enum Choice {
    Neither,
    First,
    Second,
}

// Two bids side by side, the ends of each or why it is refused, and the better one.
#[derive(Clone, Copy, Debug)]
pub struct Laid {
    pub first: Result<Range, Refusal>,
    pub second: Result<Range, Refusal>,
    pub choice: Choice,
}

// The ends of one bid, from the bytes of its file; or refused in reading, or LOOP or FLAT, in this order. No buffer is lent, and none is needed.
pub fn ends(bytes: &[u8]) -> Result<Range, Refusal>
    ensures { BidOf bytes.now (told_bid result) }
{
    let lap = engine::measure(rulefile::table(bytes)?)?;
    Ok(Range {
        exact: lap.exact,
        low: Ratio {
            p: lap.low.p,
            q: lap.low.q,
        },
        high: Ratio {
            p: lap.high.p,
            q: lap.high.q,
        },
    })
}

// Whether a is below b: exactly, by cross products.
fn below(a: Ratio, b: Ratio) -> bool
    requires { (Small a) × (Small b) }
    ensures { result ≡ ltb (a.p * b.q) (b.p * a.q) }
{
    a.p * b.q < b.p * a.q
}

// The better of two bids; at equal high ends the first.
fn chosen(a: Result<Range, Refusal>, b: Result<Range, Refusal>) -> Choice
    requires { (IfOk a (λ x. Small x.high)) × (IfOk b (λ x. Small x.high)) }
    ensures { result ≡ choice_of (told_bid a) (told_bid b) }
{
    match (a, b) {
        (Err(_), Err(_)) => Choice::Neither,
        (Err(_), Ok(_)) => Choice::Second,
        (Ok(a), Ok(b)) if below(b.high, a.high) => Choice::Second,
        (Ok(_), _) => Choice::First,
    }
}

// Both bids, each read and measured once, and the better one.
pub fn side_by_side(first: &[u8], second: &[u8]) -> Laid
    ensures { LaidOf first.now second.now (told_laid result) }
{
    let first = ends(first);
    let second = ends(second);
    Laid {
        first,
        second,
        choice: chosen(first, second),
    }
}

// The file with the lower high end, as it was lent, and which it is; at equal ends the first. One that cannot be analysed is passed over.
// Where neither can, the first file's refusal and the empty part at its start. The two have one lifetime, since either may come back.
// It is no `Result`: a refused call too hands back a part and a number, of which better_refused and the edits empty_part_elsewhere and which_1_on_refusal speak.
pub fn better<'a>(
    first: &'a [u8],
    second: &'a [u8],
    which: &mut u8,
    refusal: &mut u32,
    place: &mut usize,
) -> &'a [u8]
    ensures { BetterOf first.entry second.entry result which.new refusal.new place.new }
{
    let laid = side_by_side(first, second);
    *which = 0;
    *refusal = 0;
    *place = 0;
    match laid.choice {
        Choice::Neither => {
            if let Err(e) = laid.first {
                *refusal = e.why.number();
                *place = e.place;
            }
            &first[..0]
        }
        Choice::First => first,
        Choice::Second => {
            *which = 1;
            second
        }
    }
}
