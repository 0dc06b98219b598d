// Reads a rule file on standard input and prints its report. No valid file is longer than 16,388 bytes, so that its first 16,389 decide (report_first).
#![tactic(auto)]

use std::io;

fn main(rt: HostRuntime) -> io::Result<()> {
    let mut file = [0u8; 16389];
    let n = input::read_full(&mut rt.reader(), &mut file)?;
    let text = text::report(&file[..n]);
    rt.write_all(&text.bytes[..text.len])
}
