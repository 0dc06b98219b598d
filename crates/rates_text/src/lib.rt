// The texts that the program `rate` prints for the bytes of a rule file: of one transition, and of all that share a rate.
#![tactic(auto)]

mod line;

ghost use Rattle.std.specs.Prelude.{◌≡◌, [], ℕ, ◌≤◌, ◌<◌, length, get_or};
ghost use Rattle.rates.specs.Rate.{RateOf, told_rate};
ghost use Rattle.words.specs.Held.{Holds};
ghost use Rattle.rates_text.specs.Rates.{flat, told_rates, told_group, group_line_of, FileRate, RateReport, no_rate, ListingOf, GroupOf, more_told, told};

use rates::{Range, Ratio};
use refusals::Refusal;
use table::Table;
use words::Text;

// A rate as a listing holds it: the two ends, or the number and the place of a refusal, and all else 0.
// (Flat, and no Result: `group` promises its text of any listing that it is given, and a listing may hold any numbers.)
#[derive(Clone, Copy, Debug)]
pub struct Rated {
    pub refusal: u32,
    pub place: usize,
    pub exact: bool,
    pub low: Ratio,
    pub high: Ratio,
}

impl Rated {
    const NONE: Rated = Rated {
        refusal: 0,
        place: 0,
        exact: false,
        low: Ratio { p: 0, q: 0 },
        high: Ratio { p: 0, q: 0 },
    };
}

impl From<Result<Range, Refusal>> for Rated {
    ghost from_gives = { λ x r. flat r ≡ told_rate x };

    fn from(x: Result<Range, Refusal>) -> Rated {
        match x {
            Ok(a) => Rated {
                refusal: 0,
                place: 0,
                exact: a.exact,
                low: a.low,
                high: a.high,
            },
            Err(e) => Rated {
                refusal: e.why.number(),
                place: e.place,
                ..Rated::NONE
            },
        }
    }
}

// The rate of transition v of a file, or the refusal in reading it.
fn rate_in(bytes: &[u8], v: usize) -> Result<Range, Refusal>
    ensures { FileRate bytes.now v (told_rate result) }
{
    period::rate(rulefile::table(bytes)?, v)
}

// The line for the rate of transition v of a file.
pub fn rate(bytes: &[u8], v: usize) -> Text
    ensures { RateReport bytes.now v result }
{
    let x = Rated::from(rate_in(bytes, v));
    let mut out = [0u8; Text::ROOM];
    let at = line::rate_words(&x, &mut out, 0);
    let len = words::byte(b'\n', &mut out, at);
    Text { len, bytes: out }
}

// The rates of all transitions of a file: the first n of them (fixed memory). None where reading refuses the file.
#[derive(Clone, Copy)]
pub struct Listing {
    pub n: usize,
    pub rates: [Rated; 256],
}

fn all_rates(t: Table) -> [Rated; 256]
    ensures { (length result ≡ 256) × ((v : ℕ) → v < 256 → RateOf t v (get_or (told_rates result) v no_rate)) }
{
    let mut all = [Rated::NONE; 256];
    for v in 0..256 {
        all[v] = Rated::from(period::rate(t, v));
    }
    all
}

pub fn list_rates(bytes: &[u8]) -> Listing
    ensures { ListingOf bytes.now (told_group result) }
{
    match rulefile::table(bytes) {
        Ok(t) => Listing {
            n: t.n,
            rates: all_rates(t),
        },
        Err(_) => Listing {
            n: 0,
            rates: [Rated::NONE; 256],
        },
    }
}

fn nothing() -> Text
    ensures { Holds result [] }
{
    Text {
        len: 0,
        bytes: [0u8; Text::ROOM],
    }
}

fn group_line(all: &Listing, v: usize) -> Text
    requires { v < 256 }
    ensures { Holds result (group_line_of (told_group all.now) v) }
{
    let mut out = [0u8; Text::ROOM];
    let a = line::rate_words(&all.rates[v], &mut out, 0);
    let b = words::word(b" of", &mut out, a);
    let c = line::members(&all.rates, all.n, v, &mut out, b);
    let len = words::byte(b'\n', &mut out, c);
    Text { len, bytes: out }
}

// The line of the transitions that share the rate of v, where v is the lowest of them; else nothing.
pub fn group(all: Listing, v: usize) -> Text
    ensures { GroupOf (told_group all) v result }
{
    if all.n <= v || 256 <= v || line::earlier(&all.rates, v) {
        return nothing();
    }
    group_line(&all, v)
}

// One digit more. From 1,000 on the number is that of no transition, and stays.
fn shifted(v: usize, digit: u8) -> usize
    ensures { result ≡ more_told v digit }
{
    if v < 1000 {
        v * 10 + usize::from(digit.saturating_sub(b'0'))
    } else {
        v
    }
}

// The transition that decimal digits name.
pub fn transition(digits: &[u8]) -> usize
    ensures { result ≡ told digits.now }
{
    digits.iter().fold(0, |v, &digit| shifted(v, digit))
}
