// The conversions: tag, code, value in house units and the code that the value gives back; or tag, value and code; or a refusal. A code has two
// digits a byte, which tell its length.
use crate::Case;
use console::refused;
use std::io;
use std::io::{Stdout, Write};

// A code in at least so many digits, as far as a word has them.
fn hexadecimal(to: &mut Stdout, code: u64, digits: usize) -> io::Result<()> {
    let digits = digits.min(16);
    write!(to, "{code:0digits$x}")
}

// A value, and its code in so many digits.
fn value(to: &mut Stdout, tag: u64, v: i64, digits: usize) -> io::Result<()> {
    write!(to, "{v}\t")?;
    match scale::to_code(tag, digits / 2, v) {
        Ok(c) => {
            hexadecimal(to, c.code, digits)?;
            writeln!(to)
        }
        Err(r) => refused(to, r),
    }
}

fn code(to: &mut Stdout, tag: u64, code: u64, digits: usize) -> io::Result<()> {
    hexadecimal(to, code, digits)?;
    write!(to, "\t")?;
    match scale::to_house(tag, digits / 2, code) {
        Ok(h) => value(to, tag, h.value, digits),
        Err(r) => refused(to, r),
    }
}

pub fn run(to: &mut Stdout, case: &Case) -> io::Result<()> {
    let [tag, word, digits, ..] = *case.words;
    let digits = digits as usize;
    write!(to, "{tag}\t")?;
    if case.kind == b'<' {
        return value(to, tag, word.cast_signed(), digits);
    }
    code(to, tag, word, digits)
}
