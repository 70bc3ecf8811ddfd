// Heights and corners, and the walker.
use crate::Case;
use crate::text::hexadecimal;
use console::refused;
use ground::{Corner, Height};
use refusal::Refusal;
use std::io;
use std::io::{Stdout, Write};

fn height(to: &mut Stdout, answer: Result<Height, Refusal>) -> io::Result<()> {
    match answer {
        Ok(Height::OverEllipsoid(over)) => writeln!(to, "ellipsoid\t{}", over.0),
        Ok(Height::OverSeaLevel(above)) => writeln!(to, "sea level\t{}", above.0),
        Ok(Height::Missing) => writeln!(to, "missing"),
        Err(r) => refused(to, r),
    }
}

fn heights(to: &mut Stdout, case: &Case) -> io::Result<()> {
    write!(to, "sensor height\t")?;
    height(to, ground::sensor_height(case.bytes, case.known()))?;
    write!(to, "frame centre height\t")?;
    height(to, ground::frame_centre_height(case.bytes, case.known()))
}

fn corner(to: &mut Stdout, case: &Case, k: u64) -> io::Result<()> {
    write!(to, "corner\t{k}\t")?;
    match ground::corner_at(case.bytes, case.known(), k) {
        Ok(Corner::At(point)) => writeln!(to, "{}\t{}", point.latitude, point.longitude),
        Ok(Corner::OffTheEarth) => writeln!(to, "off the Earth"),
        Ok(Corner::Missing) => writeln!(to, "missing"),
        Err(r) => refused(to, r),
    }
}

fn corners(to: &mut Stdout, case: &Case) -> io::Result<()> {
    for k in 0..6 {
        corner(to, case, k)?;
    }
    corner(to, case, u64::MAX)
}

// The value of each step of a walk.
pub fn walk(to: &mut Stdout, case: &Case) -> io::Result<()> {
    for step in 0..case.words[2] as usize {
        hexadecimal(to, walker::value_number(case.bytes, case.known(), step))?;
    }
    Ok(())
}

pub fn run(to: &mut Stdout, case: &Case) -> io::Result<()> {
    heights(to, case)?;
    corners(to, case)
}
