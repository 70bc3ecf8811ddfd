// Lines to standard output.
use console::refused;
use refusal::Refusal;
use std::io;
use std::io::{Stdout, Write};

// A line as it came in.
pub fn line(to: &mut Stdout, text: &[u8]) -> io::Result<()> {
    to.write_all(text)?;
    writeln!(to)
}

// What there is, and how much; or the refusal.
pub fn sized(to: &mut Stdout, what: &str, answer: Result<usize, Refusal>) -> io::Result<()> {
    match answer {
        Ok(size) => writeln!(to, "{what}\t{size}"),
        Err(r) => refused(to, r),
    }
}

// The line of a packet's bytes, or of a value's. Each byte is one write: by `{byte:02X}` one with a zero in front was two, and a line of such bytes
// took twice as long.
pub fn hexadecimal(to: &mut Stdout, bytes: &[u8]) -> io::Result<()> {
    for byte in bytes {
        let mut digits = [0; 2];
        spelling::put_hex(&mut digits, 0, &[*byte]);
        to.write_all(&digits)?;
    }
    writeln!(to)
}
