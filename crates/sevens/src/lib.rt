// Numbers in groups of seven bits: one read off the front of lent bytes, one written into a lent buffer.
#![tactic(auto)]

ghost use Rattle.std.specs.Prelude.{◌≡◌, ◌≤◌, length, get_or, IfOk};
ghost use Rattle.refusals.specs.Number.{told};
ghost use Rattle.sevens.specs.Sevens.{raw_of, long_place_of, number_of, answer_told, value_told, Read, code_length_of, put_of};

use refusals::{Refusal, Why};

// A number has at most this many groups.
pub const GROUPS: usize = 3;

// One number as written: a byte is missing, it is not written as it should be, or its value and its size in bytes.
// It is an enum of its own and no `Result`: `raw_of` and the theorems above it, up to those of the buyer's demands, name its three variants.
#[derive(Clone, Copy, Debug, PartialEq, Eq)]
pub enum Raw {
    Cut,
    Long,
    Value(u64, usize),
}

// The number at the front, whose first byte says that another follows.
fn several(bytes: &[u8], groups: usize) -> Raw
    requires { (1 ≤ groups) × (groups ≤ 9) × (128 ≤ get_or bytes.now 0 0) × (1 ≤ length bytes.now) }
    ensures { result ≡ raw_of groups bytes.now }
{
    let mut value = u64::from(bytes[0]) - 128;
    let mut scale = 128;
    for i in 1..groups {
        if bytes.len() <= i {
            return Raw::Cut;
        }
        let b = u64::from(bytes[i]);
        if b == 0 {
            return Raw::Long;
        }
        if b < 128 {
            return Raw::Value(value + b * scale, i + 1);
        }
        value += (b - 128) * scale;
        scale *= 128;
    }
    Raw::Long
}

// The number at the front: one group is the common case.
fn written(bytes: &[u8], groups: usize) -> Raw
    requires { (1 ≤ groups) × (groups ≤ 9) }
    ensures { result ≡ raw_of groups bytes.now }
{
    match bytes {
        [] => Raw::Cut,
        [first, ..] if *first < 128 => Raw::Value(u64::from(*first), 1),
        _ => several(bytes, groups),
    }
}

// The place of refusal 2: the byte that breaks the rule, which is the last that there may be, or else the last group, which is zero.
fn long_place(bytes: &[u8], groups: usize) -> usize
    requires { 1 ≤ groups }
    ensures { result ≡ long_place_of groups bytes.now }
{
    bytes
        .iter()
        .take(groups - 1)
        .take_while(|b| 128 <= **b)
        .count()
}

// The number at the front, of at most `groups` groups, within its limits, and its size; nine groups fit 64 bits.
// Refusal 1 stands after the last byte, where the missing one would be.
fn number_in(bytes: &[u8], groups: usize, low: u64, high: u64) -> Result<(u64, usize), Refusal>
    requires { (1 ≤ groups) × (groups ≤ 9) }
    ensures answer { answer_told bytes.now result ≡ number_of groups bytes.now low high }
    ensures inside { IfOk result (λ x. x.1 ≤ length bytes.now) }
{
    match written(bytes, groups) {
        Raw::Cut => Err(Why::Cut.at(bytes.len())),
        Raw::Long => Err(Why::Long.at(long_place(bytes, groups))),
        Raw::Value(v, _) if v < low || high < v => Err(Why::Range.at(0)),
        Raw::Value(v, size) => Ok((v, size)),
    }
}

// The number at the front of `bytes`, from `low` to `high`, or why it is refused, and the rest of `bytes`; refused, the empty part at their start.
// The part stands beside the `Result`: it goes out in both cases, and the promise `Read` says where it lies in both.
pub fn number(bytes: &[u8], low: u32, high: u32) -> (Result<u32, Refusal>, &[u8])
    ensures { Read 3 bytes.now low high (value_told result.0) (told result.0).refusal (told result.0).place result.1.now bytes.entry.ref_ptr result.1.ref_ptr }
{
    match number_in(bytes, GROUPS, u64::from(low), u64::from(high)) {
        Ok((value, size)) => (Ok(value as u32), &bytes[size..]),
        Err(e) => (Err(e), &bytes[..0]),
    }
}

// How many bytes v takes, from 1 to 10. The loop takes seven bits off a number, and so has no count of turns to go by.
pub fn code_length(v: u64) -> usize
    ensures { result ≡ code_length_of v }
{
    let mut left = v;
    let mut count = 1;
    while 128 <= left {
        left /= 128;
        count += 1;
    }
    count
}

// Writes v into `out` from `at` on, and hands back how many bytes that took; without room for all of them it writes none and hands back 0.
pub fn put(v: u64, out: &mut [u8], at: usize) -> usize
    ensures { put_of v out.old at ≡ record { buffer = out.new; count = result } }
{
    let count = code_length(v);
    if out.len() < at || out.len() - at < count {
        return 0;
    }
    let mut left = v;
    let mut i = at;
    // As in `code_length`.
    while 128 <= left {
        out[i] = (left % 128 + 128) as u8;
        left /= 128;
        i += 1;
    }
    out[i] = left as u8;
    count
}
