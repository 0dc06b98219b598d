// The text that the program `bids` prints for the bytes of two rule files: what is known of each, one under the other, and which is the better.
#![tactic(auto)]

ghost use Rattle.std.specs.Prelude.{◌+◌, ◌≤◌, length};
ghost use Rattle.words.specs.Puts.{Puts};
ghost use Rattle.bids.specs.Promise.{told_bid, told_laid};
ghost use Rattle.bids_text.specs.Pair.{bid_line_of, better_line_of, pair_text, PairOf};

use bids::{Choice, Laid};
use engine::Range;
use refusals::Refusal;
use words::Text;

// A name, then the bid's ends or its refusal.
fn bid_line(name: &[u8], bid: Result<Range, Refusal>, out: &mut [u8], at: usize) -> usize
    ensures { Puts (bid_line_of name.now (told_bid bid)) out.old at out.new result × (result ≤ at + length name.now + 99) }
{
    let a = words::word(name, out, at);
    match bid {
        Err(e) => words::refused_line(e.why.number(), e.place, out, a),
        Ok(b) if b.exact => words::exact_line(b.high.p, b.high.q, out, a),
        Ok(b) => words::range_line(b.low.p, b.low.q, b.high.p, b.high.q, out, a),
    }
}

fn better_line(choice: Choice, out: &mut [u8], at: usize) -> usize
    ensures { Puts (better_line_of choice) out.old at out.new result × (result ≤ at + 15) }
{
    match choice {
        Choice::Neither => words::word(b"better neither\n", out, at),
        Choice::First => words::word(b"better first\n", out, at),
        Choice::Second => words::word(b"better second\n", out, at),
    }
}

// The three lines.
fn lines(laid: Laid, out: &mut [u8], at: usize) -> usize
    ensures { Puts (pair_text (told_laid laid)) out.old at out.new result × (result ≤ at + 226) }
{
    let a = bid_line(b"first ", laid.first, out, at);
    let b = bid_line(b"second ", laid.second, out, a);
    better_line(laid.choice, out, b)
}

// The whole text for two files: the ends or the refusal of each, and which is the better.
pub fn side_by_side(first: &[u8], second: &[u8]) -> Text
    ensures { PairOf first.now second.now result }
{
    let laid = bids::side_by_side(first, second);
    let mut bytes = [0u8; Text::ROOM];
    let len = lines(laid, &mut bytes, 0);
    Text { len, bytes }
}
