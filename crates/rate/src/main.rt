// Reads a rule file on standard input and prints the rate of the transition named as the program's argument; with no argument the rates of all,
// a line for those that share one. As in `report` the first 16,389 bytes decide.
#![tactic(auto)]

use std::env::Env;
use std::io::{self, Print};
use words::Text;

fn show(rt: &impl Print, line: Text) -> io::Result<()> {
    if line.len <= line.bytes.len() {
        rt.write_all(&line.bytes[..line.len])?;
    }
    Ok(())
}

fn show_one(rt: &impl Print, file: &[u8], digits: &[u8]) -> io::Result<()> {
    let v = rates_text::transition(digits);
    show(rt, rates_text::rate(file, v))
}

// A file that reading refuses has no transition; its refusal is then that of any rate.
fn show_all(rt: &impl Print, file: &[u8]) -> io::Result<()> {
    let all = rates_text::list_rates(file);
    if all.n == 0 {
        show(rt, rates_text::rate(file, 0))?;
    }
    for v in 0..256 {
        show(rt, rates_text::group(all, v))?;
    }
    Ok(())
}

// No transition is named where there is no argument, or where it is empty or longer than 32 bytes.
fn main(rt: HostRuntime) -> io::Result<()> {
    let mut file = [0u8; 16389];
    let n = input::read_full(&mut rt.reader(), &mut file)?;
    let mut digits = [0u8; 32];
    match rt.arg(1, &mut digits) {
        Ok(k) if 0 < k => show_one(&rt, &file[..n], &digits[..k]),
        _ => show_all(&rt, &file[..n]),
    }
}
