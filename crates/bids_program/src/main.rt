// Reads the two rule files that its arguments name and prints what is known of each, and which is the better. No valid file is longer than 16,388
// bytes, so that the first 16,389 of each decide (pair_first).
#![tactic(auto)]

use std::env::{Env, FillError};
use std::fs::{self, File};
use std::io::{self, Print};

// Opens the file that argument i names; where it cannot, it says why on standard error and hands back None.
fn opened(rt: &HostRuntime, i: usize) -> io::Result<Option<File>> {
    let mut bytes = [0u8; 4096];
    let n = match rt.arg(i, &mut bytes) {
        Ok(n) => n,
        Err(FillError::NotPresent) => {
            eprintln!(rt; "bids: Invalid argument")?;
            return Ok(None);
        }
        Err(FillError::TooLong) => {
            eprintln!(rt; "bids: File name too long")?;
            return Ok(None);
        }
    };
    let Ok(path) = str::from_utf8(&bytes[..n]) else {
        eprintln!(rt; "bids: File name is not UTF-8")?;
        return Ok(None);
    };
    match fs::open(rt, path) {
        Ok(file) => Ok(Some(file)),
        Err(error) => {
            eprintln!(rt; "{path}: {error}")?;
            Ok(None)
        }
    }
}

fn main(rt: HostRuntime) -> io::Result<()> {
    let Some(mut one) = opened(&rt, 1)? else {
        return Ok(());
    };
    let Some(mut two) = opened(&rt, 2)? else {
        return Ok(());
    };
    let mut first = [0u8; 16389];
    let mut second = [0u8; 16389];
    let a = input::read_full(&mut one, &mut first)?;
    let b = input::read_full(&mut two, &mut second)?;
    let text = bids_text::side_by_side(&first[..a], &second[..b]);
    rt.write_all(&text.bytes[..text.len])
}
