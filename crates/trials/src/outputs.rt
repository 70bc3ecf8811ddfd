// What is written to a lent output: packets of rows and of records, and listings. The whole output is shown.
ghost use Rattle.std.specs.Prelude.{◌≤◌};

use crate::Case;
use crate::text::{hexadecimal, sized};
use refusal::Refusal;
use rows::{Part, Row};
use std::io;
use std::io::Stdout;
use writer::Written;

// The part of an output that a case asks for. A case that asks for more than there is gets it all.
fn room(out: &mut [u8], size: u64) -> &mut [u8] {
    let end = out.len().min(size as usize);
    &mut out[..end]
}

fn size_of(case: &Case) -> u64 {
    if case.kind == b'%' {
        return case.words[0];
    }
    case.words[2]
}

fn packed(to: &mut Stdout, answer: Result<Written, Refusal>) -> io::Result<()> {
    sized(to, "packet", answer.map(|packet| packet.size))
}

// The record that four words are: tag, kind, and a code or a place with a length.
fn record_of(words: &[u64; 16], at: usize) -> Row
    requires { at ≤ 12 }
{
    let code = words[at + 2];
    let part = Part {
        place: code as usize,
        length: words[at + 3] as usize,
    };
    Row {
        tag: words[at],
        content: rows::content_of(words[at + 1], code, part),
    }
}

fn recorded(to: &mut Stdout, case: &Case, out: &mut [u8]) -> io::Result<()> {
    let three = [
        record_of(case.words, 3),
        record_of(case.words, 7),
        record_of(case.words, 11),
    ];
    let written = records::write_three(case.known(), three, case.bytes, out);
    packed(to, written)
}

fn put(to: &mut Stdout, case: &Case, out: &mut [u8]) -> io::Result<()> {
    match case.kind {
        b'#' => {
            let count = case.words[3] as usize;
            let written = writer::write(case.known(), count, case.list, case.bytes, out);
            packed(to, written)
        }
        b'$' => recorded(to, case, out),
        _ => sized(to, "listing", listing::list(case.bytes, out)),
    }
}

pub fn run(to: &mut Stdout, case: &Case) -> io::Result<()> {
    let mut whole: [u8; 8200] = crate::filled(0xEE);
    let out = room(&mut whole, size_of(case));
    put(to, case, out)?;
    hexadecimal(to, out)
}
