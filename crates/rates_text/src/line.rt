// What a line is made of: the words for a rate, and the transitions that share one.
ghost use Rattle.std.specs.Prelude.{◌≡◌, ◌+◌, ◌*◌, ◌≤◌, ◌<◌};
ghost use Rattle.std.specs.List.{list_any};
ghost use Rattle.words.specs.Decimal.{numbers};
ghost use Rattle.words.specs.Puts.{Puts};
ghost use Rattle.rates_text.specs.Rates.{flat, exact_words_of, range_words_of, rate_words_of, alike_rates, earlier_than, member_if, members_to, told_rates};

use crate::Rated;
use rates::Ratio;

// (`words::exact_line` and `range_line` have other words and end a line. Three calls each: one function that takes the words, with a bound of its own, is no shorter.)
fn exact_words(x: Ratio, out: &mut [u8], at: usize) -> usize
    ensures { Puts (exact_words_of x.p x.q) out.old at out.new result × (result ≤ at + 96) }
{
    let a = words::word(b"rate ", out, at);
    let b = words::ratio(x.p, x.q, out, a);
    words::word(b" exact", out, b)
}

fn range_words(low: Ratio, high: Ratio, out: &mut [u8], at: usize) -> usize
    ensures { Puts (range_words_of low.p low.q high.p high.q) out.old at out.new result × (result ≤ at + 96) }
{
    let a = words::word(b"rate from ", out, at);
    let b = words::ratio(low.p, low.q, out, a);
    let c = words::word(b" to ", out, b);
    words::ratio(high.p, high.q, out, c)
}

pub fn rate_words(rate: &Rated, out: &mut [u8], at: usize) -> usize
    ensures { Puts (rate_words_of (flat rate.now)) out.old at out.new result × (result ≤ at + 96) }
{
    if 0 < rate.refusal {
        words::refused_words(rate.refusal, rate.place, out, at)
    } else if rate.exact {
        exact_words(rate.high, out, at)
    } else {
        range_words(rate.low, rate.high, out, at)
    }
}

// Whether two transitions share a rate: the same ends, or the same refusal.
fn alike(x: &Rated, y: &Rated) -> bool
    ensures { result ≡ alike_rates (flat x.now) (flat y.now) }
{
    x.refusal == y.refusal && x.low == y.low && x.high == y.high
}

fn any_alike(rates: &[Rated], mine: &Rated) -> bool
    ensures { result ≡ list_any (λ x. alike_rates (flat x) (flat mine.now)) rates.now }
{
    rates.iter().any(|x| alike(x, mine))
}

// Whether a lower transition shares the rate of v.
pub fn earlier(rates: &[Rated; 256], v: usize) -> bool
    requires { v < 256 }
    ensures { result ≡ earlier_than (told_rates rates.now) v v }
{
    any_alike(&rates[..v], &rates[v])
}

// Transition k by its number, where it is one of n and shares a rate.
fn member(k: usize, n: usize, other: &Rated, mine: &Rated, out: &mut [u8], at: usize) -> usize
    ensures { Puts (numbers (member_if k n (flat other.now) (flat mine.now))) out.old at out.new result × (result ≤ at + 21) }
{
    if k < n && alike(other, mine) {
        return words::number(k as u64, out, at);
    }
    at
}

// The transitions that share the rate of v.
pub fn members(rates: &[Rated; 256], n: usize, v: usize, out: &mut [u8], at: usize) -> usize
    requires { v < 256 }
    ensures { Puts (numbers (members_to (told_rates rates.now) n v 256)) out.old at out.new result × (result ≤ at + 21 * 256) }
{
    let mut next = at;
    for (k, other) in rates.iter().enumerate() {
        next = member(k, n, other, &rates[v], out, next);
    }
    next
}
