// The leaves: tags and lengths, checksums, the catalogue's shapes, knowing sets.
use crate::Case;
use catalogue::Shape;
use std::io;
use std::io::{Stdout, Write};

// A number and how many bytes it took, or that it is broken.
fn show(to: &mut Stdout, field: Option<ber::Field>) -> io::Result<()> {
    match field {
        Some(ber::Field { value, size }) => writeln!(to, "{value} in {size}"),
        None => writeln!(to, "broken"),
    }
}

// The bytes of a tag or of a length: the first of a room of eight.
fn put(to: &mut Stdout, kind: u8, value: u64) -> io::Result<()> {
    let mut out = [0u8; 8];
    let n = if kind == b'T' {
        ber::put_tag(&mut out, 0, value)
    } else {
        ber::put_length(&mut out, 0, value)
    };
    for byte in out.iter().take(n) {
        write!(to, "{byte:02x}")?;
    }
    writeln!(to)
}

fn number_of(to: &mut Stdout, least: usize, most: usize, marked: bool) -> io::Result<()> {
    write!(to, " number of {least}")?;
    if least < most {
        write!(to, " to {most}")?;
    }
    if marked {
        write!(to, " with a mark")?;
    }
    Ok(())
}

fn shape(to: &mut Stdout, tag: u64) -> io::Result<()> {
    let column = catalogue::shapes();
    write!(to, "{tag}")?;
    match catalogue::shape_at(&column.column, tag) {
        Shape::Text => write!(to, " text")?,
        Shape::Number {
            least,
            most,
            marked,
        } => number_of(to, least, most, marked)?,
        Shape::Absent => write!(to, " carried")?,
    }
    writeln!(to)
}

fn answer(to: &mut Stdout, yes: bool) -> io::Result<()> {
    let answer = if yes { "yes" } else { "no" };
    writeln!(to, "{answer}")
}

pub fn run(to: &mut Stdout, case: &Case) -> io::Result<()> {
    let first = case.words[0];
    match case.kind {
        b't' => show(to, ber::tag_at(case.bytes, first as usize)),
        b'l' => show(to, ber::length_at(case.bytes, first as usize)),
        b'T' | b'L' => put(to, case.kind, first),
        b's' => writeln!(to, "{}", checksum::checksum(case.bytes)),
        b'i' => shape(to, first),
        b'k' => answer(to, knowing::is_good(case.known())),
        _ => answer(to, tagset::has(case.known(), case.words[2])),
    }
}
