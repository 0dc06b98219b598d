// The lines of a report, each put into a lent buffer from a place on, with a bound on what it takes.
ghost use Rattle.std.specs.Prelude.{◌∷◌, ◌+◌, ◌*◌, ◌≤◌, List, ℕ, length};
ghost use Rattle.std.specs.List.{AllZip};
ghost use Rattle.words.specs.Decimal.{ascii, numbers};
ghost use Rattle.words.specs.Puts.{Puts};
ghost use Rattle.text.specs.Text.{period_line_of, list_line, answer_text};
ghost use Rattle.text.specs.Made.{ends_of, answer_of};

use period::Analysis;

// Numbers, each after a space: values, or the numbers of rules.
fn list<T: Copy + Into<u64>>(xs: &[T], out: &mut [u8], at: usize) -> usize
    ensures { (ns : List ℕ) × AllZip T.converts xs.now ns × Puts (numbers ns) out.old at out.new result × (result ≤ at + 21 * length xs.now) }
{
    let mut next = at;
    for &x in xs {
        next = words::number(x.into(), out, next);
    }
    next
}

fn period_line(a: Analysis, out: &mut [u8], at: usize) -> usize
    ensures { Puts (period_line_of (ends_of a)) out.old at out.new result × (result ≤ at + 99) }
{
    if a.exact {
        return words::exact_line(a.high.p, a.high.q, out, at);
    }
    words::range_line(a.low.p, a.low.q, a.high.p, a.high.q, out, at)
}

fn loop_line(name: &[u8], xs: &[u32], out: &mut [u8], at: usize) -> usize
    ensures { Puts (list_line name.now xs.now) out.old at out.new result × (result ≤ at + length name.now + 21 * length xs.now + 1) }
{
    let a = words::word(name, out, at);
    let b = list(xs, out, a);
    words::byte(b'\n', out, b)
}

fn schedule_line(q: u64, x: &[u64], out: &mut [u8], at: usize) -> usize
    ensures { Puts (list_line (ascii "schedule") (q ∷ x.now)) out.old at out.new result × (result ≤ at + 30 + 21 * length x.now) }
{
    let a = words::word(b"schedule", out, at);
    let b = words::number(q, out, a);
    let c = list(x, out, b);
    words::byte(b'\n', out, c)
}

pub fn answer(a: Analysis, low: &[u32], high: &[u32], x: &[u64], out: &mut [u8], at: usize) -> usize
    ensures { Puts (answer_text (answer_of a low.now high.now x.now)) out.old at out.new result × (result ≤ at + 138 + 21 * length low.now + 21 * length high.now + 21 * length x.now) }
{
    let b = period_line(a, out, at);
    let c = loop_line(b"low", low, out, b);
    let d = loop_line(b"high", high, out, c);
    schedule_line(a.high.q, x, out, d)
}
