// The rule file: reading its bytes into a table, and writing a table's bytes into a lent buffer.
#![tactic(auto)]

ghost use Rattle.std.specs.Prelude.{◌≡◌, ◌+◌, ◌≤◌, ◌<◌, length, IfOk, IfErr};
ghost use Rattle.refusals.specs.Number.{number_of};
ghost use Rattle.std.proofs.lemmas.List.Edits.{sets};
ghost use Rattle.sevens.specs.Sevens.{code_length_of};
ghost use Rattle.table.specs.Limits.{min_n, max_n, max_m};
ghost use Rattle.table.specs.Form.{empty_table, sized};
ghost use Rattle.table.specs.Fields.{Within};
ghost use Rattle.rulefile.specs.File.{delay_code, rule_bytes, rules_bytes, file_of, num_at, num_told, delay_meant, rule_at_of, rule_told, refused_read, rules_from_of, read_of, table_told, told_read, Writes, told_written};

use refusals::{Refusal, Why};
use table::{Delay, Rule, Table};

// What reading a file hands back: a refusal, its place and the empty table; or 0, 0 and the table.
// It is no `Result`: a refused read hands back the empty table too, which the edit refused_table_half_filled and the theorem refused_empty speak of.
#[derive(Clone, Copy)]
pub struct FileRead {
    pub refusal: u32,
    pub place: usize,
    pub table: Table,
}

// The number at a place of the file, from `low` to `high`, and the place after it. It is asked for by its place, so that all above it passes numbers and no parts.
fn number_at(bytes: &[u8], at: usize, low: u32, high: u32) -> Result<(u32, usize), Refusal>
    requires { at ≤ length bytes.now }
    ensures told { num_told result ≡ num_at bytes.now at low high }
    ensures inside { IfOk result (λ x. x.1 ≤ length bytes.now) }
{
    match sevens::number(&bytes[at..], low, high) {
        (Ok(value), rest) => Ok((value, bytes.len() - rest.len())),
        (Err(e), _) => Err(e.why.at(at + e.place)),
    }
}

// Code 0 is unknown, code d + 1 is the known delay d.
fn delay_of(code: u32) -> Delay
    ensures { result ≡ delay_meant code }
{
    match code {
        0 => Delay::Unknown,
        _ => Delay::Known(code - 1),
    }
}

// The rule at a place of the file, of a table with n transitions, and the place after it.
fn rule_at(bytes: &[u8], at: usize, n: u32) -> Result<(Rule, usize), Refusal>
    requires { (at ≤ length bytes.now) × (min_n ≤ n) × (n ≤ max_n) }
    ensures told { rule_told result ≡ rule_at_of bytes.now at n }
    ensures inside { IfOk result (λ x. x.1 ≤ length bytes.now) }
{
    let (source, at) = number_at(bytes, at, 0, n - 1)?;
    let (target, at) = number_at(bytes, at, 0, n - 1)?;
    let (offset, at) = number_at(bytes, at, 0, Table::MAX_OFFSET as u32)?;
    let (code, at) = number_at(bytes, at, 0, Table::MAX_DELAY + 1)?;
    let rule = Rule {
        source: source as u16,
        target: target as u16,
        offset: offset as u16,
        delay: delay_of(code),
    };
    Ok((rule, at))
}

// The rules from a place on, as many as the table has by its m, into its places.
fn rules_from(bytes: &[u8], from: usize, n: u32, table: &mut Table) -> Result<(), Refusal>
    requires { (from ≤ length bytes.now) × (min_n ≤ n) × (n ≤ max_n) × (table.old.m ≤ max_m) }
    ensures { table_told result table.new ≡ rules_from_of bytes.now n table.old from 0 table.old.m }
{
    let mut at = from;
    for r in 0..table.m {
        let (rule, next) = rule_at(bytes, at, n)?;
        table.rules[r] = rule;
        at = next;
    }
    if at < bytes.len() {
        return Err(Why::Tail.at(at));
    }
    Ok(())
}

// n and m of a rule file, and the place after them.
fn sizes(bytes: &[u8]) -> Result<(u32, u32, usize), Refusal>
    ensures refused { IfErr result (λ e. refused_read (number_of e.why) e.place ≡ read_of bytes.now) }
    ensures read { IfOk result (λ x. (x.2 ≤ length bytes.now) × (min_n ≤ x.0) × (x.0 ≤ max_n) × (x.1 ≤ max_m) × (rules_from_of bytes.now x.0 (sized x.0 x.1) x.2 0 x.1 ≡ read_of bytes.now)) }
{
    let (n, at) = number_at(bytes, 0, Table::MIN_N as u32, Table::MAX_N as u32)?;
    let (m, at) = number_at(bytes, at, 0, Table::MAX_M as u32)?;
    Ok((n, m, at))
}

// The table that a rule file holds, into an empty one; what a refusal leaves there is of no use.
fn fill(bytes: &[u8], table: &mut Table) -> Result<(), Refusal>
    requires { table.old ≡ empty_table }
    ensures { table_told result table.new ≡ read_of bytes.now }
{
    let (n, m, at) = sizes(bytes)?;
    table.n = n as usize;
    table.m = m as usize;
    rules_from(bytes, at, n, table)
}

// The table that a rule file holds; a refused read hands back the empty table.
pub fn read(bytes: &[u8]) -> FileRead
    ensures { result ≡ read_of bytes.now }
{
    let mut table = Table::empty();
    match fill(bytes, &mut table) {
        Ok(()) => FileRead {
            refusal: 0,
            place: 0,
            table,
        },
        Err(e) => FileRead {
            refusal: e.why.number(),
            place: e.place,
            table: Table::empty(),
        },
    }
}

// The table that a rule file holds, or why it is refused.
pub fn table(bytes: &[u8]) -> Result<Table, Refusal>
    ensures { told_read result ≡ read_of bytes.now }
{
    sizes(bytes)?; // what is refused here costs no room for a table
    let mut table = Table::empty();
    fill(bytes, &mut table)?;
    Ok(table)
}

// Unknown is code 0, the known delay d is code d + 1.
fn code_of(delay: Delay) -> u64
    ensures { result ≡ delay_code delay }
{
    match delay {
        Delay::Unknown => 0,
        Delay::Known(d) => u64::from(d) + 1,
    }
}

// A number's length, with a bound by which sums of a few of them are known not to wrap.
fn length_of(v: u64) -> usize
    ensures { (result ≡ code_length_of v) × (result ≤ 10) }
{
    sevens::code_length(v)
}

// How many bytes a rule takes.
fn rule_length(rule: Rule) -> usize
    ensures { result ≡ length (rule_bytes rule) }
{
    length_of(u64::from(rule.source))
        + length_of(u64::from(rule.target))
        + length_of(u64::from(rule.offset))
        + length_of(code_of(rule.delay))
}

// How many bytes the file of a table takes.
fn file_length(t: &Table) -> usize
    requires { Within t.now }
    ensures { result ≡ length (file_of t.now) }
{
    let mut count = length_of(t.n as u64) + length_of(t.m as u64);
    for r in 0..t.m {
        count += rule_length(t.rules[r]);
    }
    count
}

// Writes a rule from a place on, and hands back the place after it.
fn put_rule(rule: Rule, out: &mut [u8], at: usize) -> usize
    requires { at + length (rule_bytes rule) ≤ length out.old }
    ensures { (out.new ≡ sets out.old at (rule_bytes rule)) × (result ≡ at + length (rule_bytes rule)) }
{
    let at = at + sevens::put(u64::from(rule.source), out, at);
    let at = at + sevens::put(u64::from(rule.target), out, at);
    let at = at + sevens::put(u64::from(rule.offset), out, at);
    at + sevens::put(code_of(rule.delay), out, at)
}

// Writes the rules of a table from a place on.
fn put_rules(t: &Table, out: &mut [u8], from: usize)
    requires { (t.now.m ≤ max_m) × (from + length (rules_bytes t.now 0 t.now.m) ≤ length out.old) }
    ensures { out.new ≡ sets out.old from (rules_bytes t.now 0 t.now.m) }
{
    let mut at = from;
    for r in 0..t.m {
        at = put_rule(t.rules[r], out, at);
    }
}

// Writes the file of a table into the front of a buffer that has room for it.
fn put_file(t: &Table, out: &mut [u8])
    requires { (t.now.m ≤ max_m) × (length (file_of t.now) ≤ length out.old) }
    ensures { out.new ≡ sets out.old 0 (file_of t.now) }
{
    let at = sevens::put(t.n as u64, out, 0);
    let at = at + sevens::put(t.m as u64, out, at);
    put_rules(t, out, at);
}

// The file of a table, into the front of a lent buffer: how many bytes that took, or why nothing is written.
pub fn write(t: Table, out: &mut [u8]) -> Result<usize, Refusal>
    ensures { Writes t out.old (told_written result) out.new }
{
    table::check(t)?;
    let count = file_length(&t);
    if out.len() < count {
        return Err(Why::Room.at(count));
    }
    put_file(&t, out);
    Ok(count)
}
