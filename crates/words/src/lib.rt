// What the programs' texts share: a text, and putting words and numbers into a lent buffer, from a place on. Each function hands back the place
// behind what it put; what has no room is left out, so that none asks anything of its caller. Where a bound is promised, it is on what was taken.
#![tactic(auto)]

ghost use Rattle.std.specs.Prelude.{◌≡◌, [], ◌∷◌, ◌+◌, ◌≤◌, ◌<◌};
ghost use Rattle.words.specs.Decimal.{numbers};
ghost use Rattle.words.specs.Decimal.{digit as Decimal·digit, decimal as Decimal·decimal};
ghost use Rattle.words.specs.Puts.{Puts};
ghost use Rattle.words.specs.Lines.{refused_words_of, refused_line_of, exact_line_of, range_line_of};
ghost use Rattle.words.specs.Lines.{ratio as Lines·ratio};

// A text: its length and its bytes, zeros after them (fixed memory). No text takes all the room.
#[derive(Clone, Copy)]
pub struct Text {
    pub len: usize,
    pub bytes: [u8; Text::ROOM],
}

impl Text {
    pub const ROOM: usize = 16384;
}

pub fn byte(b: u8, out: &mut [u8], at: usize) -> usize
    ensures { Puts (b ∷ []) out.old at out.new result }
{
    if at < out.len() {
        out[at] = b;
        at + 1
    } else {
        at
    }
}

pub fn word(s: &[u8], out: &mut [u8], at: usize) -> usize
    ensures { Puts s.now out.old at out.new result }
{
    let mut next = at;
    for &b in s {
        next = byte(b, out, next);
    }
    next
}

fn digit(d: u64) -> u8
    requires { d < 10 }
    ensures { result ≡ Decimal·digit d }
{
    b'0' + d as u8
}

// A number in decimal: its tens, then its last digit.
pub fn decimal(v: u64, out: &mut [u8], at: usize) -> usize
    ensures { Puts (Decimal·decimal v) out.old at out.new result × (result ≤ at + 20) }
{
    if v < 10 {
        return byte(digit(v), out, at);
    }
    let next = decimal(v / 10, out, at);
    byte(digit(v % 10), out, next)
}

// A number after a space.
pub fn number(v: u64, out: &mut [u8], at: usize) -> usize
    ensures { Puts (numbers (v ∷ [])) out.old at out.new result × (result ≤ at + 21) }
{
    let next = byte(b' ', out, at);
    decimal(v, out, next)
}

pub fn ratio(p: u64, q: u64, out: &mut [u8], at: usize) -> usize
    ensures { Puts (Lines·ratio p q) out.old at out.new result × (result ≤ at + 41) }
{
    let a = decimal(p, out, at);
    let b = byte(b'/', out, a);
    decimal(q, out, b)
}

// A refusal and its place.
pub fn refused_words(refusal: u32, place: usize, out: &mut [u8], at: usize) -> usize
    ensures { Puts (refused_words_of refusal place) out.old at out.new result × (result ≤ at + 52) }
{
    let a = word(b"refused ", out, at);
    let b = decimal(u64::from(refusal), out, a);
    let c = word(b" at ", out, b);
    decimal(place as u64, out, c)
}

pub fn refused_line(refusal: u32, place: usize, out: &mut [u8], at: usize) -> usize
    ensures { Puts (refused_line_of refusal place) out.old at out.new result × (result ≤ at + 53) }
{
    let next = refused_words(refusal, place, out, at);
    byte(b'\n', out, next)
}

// A period that is exact.
pub fn exact_line(p: u64, q: u64, out: &mut [u8], at: usize) -> usize
    ensures { Puts (exact_line_of p q) out.old at out.new result × (result ≤ at + 99) }
{
    let a = word(b"period ", out, at);
    let b = ratio(p, q, out, a);
    let c = word(b" exact", out, b);
    byte(b'\n', out, c)
}

// A period between two ends.
pub fn range_line(lowp: u64, lowq: u64, highp: u64, highq: u64, out: &mut [u8], at: usize) -> usize
    ensures { Puts (range_line_of lowp lowq highp highq) out.old at out.new result × (result ≤ at + 99) }
{
    let a = word(b"period from ", out, at);
    let b = ratio(lowp, lowq, out, a);
    let c = word(b" to ", out, b);
    let d = ratio(highp, highq, out, c);
    byte(b'\n', out, d)
}
