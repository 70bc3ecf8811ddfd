// Runs the library on the cases from standard input, and writes what it answers. A case begins a line, and its first byte says what is
// run; then it has words in hexadecimal, parted by blanks or ends of lines. Lists are lent as their number and then their entries.
// =: a heading. The rest of the line is written.
// /: a note. Nothing is written.
// Of these the first line is a title, which is written, and the words begin on the next:
// #: the writer. The two words of the knowing set, the size of the output, the row count, the table's words, the buffer's bytes. After the
//    answer the whole output is written, which was filled with EE, so that a byte that stays is seen.
// @: heights and corners. The two words of the knowing set, the packet's bytes. Corners are asked for k from 0 to 5 and 2^64 - 1.
// %: the listing. The size of the output, the packet's bytes. The whole output is written as for the writer.
// $: the writer over three records. The two words of the knowing set, the size of the output, for each record its tag, its kind and two
//    words (a code and a length; or a place and a length), the buffer's bytes. The whole output is written as for the writer.
// &: the walker. The two words of the knowing set, a number of steps, the packet's bytes. The value of each step is written.
// Of these the words begin at once:
// t, l: the tag and the length at a place. The place, the bytes.
// T, L: the bytes of a tag and of a length. Its value.
// s: the checksum. The bytes.
// i: the shape of an item in the catalogue. Its tag.
// k: whether a knowing set is good. Its two words.
// h: whether a set has a tag. Its two words, the tag.
// >: a code in house units, and the code that the value gives back. The tag, the code, how many digits codes are written with.
// <: the code of a value. The tag, the value in two's complement, how many digits.
// ?: check and read. The two words of the knowing set, the packet's bytes. After the answers the words of each row are written.
// r: read into the table that is kept: 520 words, 7 each at first. The two words of the knowing set, how many words are lent, the packet's
//    bytes.
// w: words of that table. A list of their places.
// y: a row taken out of that table. The two words of the knowing set, the row count, the row's number, the buffer's bytes.
// z: a row taken out of a table. The same, with the table's words before the bytes.
// The input has at most 131,072 bytes, a list at most 8,200 entries.
#![tactic(auto)]

ghost use Rattle.std.specs.Prelude.{◌≡◌, length};

mod conversions;
mod grounds;
mod leaves;
mod outputs;
mod readings;
mod text;

use console::word_of;
use std::io;
use std::io::{Stdout, Write};
use std::ops::RangeInclusive;
use tagset::TagSet;

// What is left of the input.
#[derive(Drop)]
struct Input<'a> {
    rest: &'a [u8],
}

impl<'a> Input<'a> {
    // What stands before the next byte of this range, or before the end.
    fn before(&mut self, range: RangeInclusive<u8>) -> &'a [u8] {
        let found = self.rest.iter().position(|byte| range.contains(byte));
        let (passed, rest) = self.rest.split_at(found.unwrap_or(self.rest.len()));
        self.rest = rest;
        passed
    }

    fn line(&mut self) -> &'a [u8] {
        self.before(b'\n'..=b'\n')
    }

    // The kind of the next case.
    fn next_case(&mut self) -> Option<u8> {
        self.before(b'!'..=255);
        let (kind, rest) = self.rest.split_first()?;
        self.rest = rest;
        Some(*kind)
    }

    // What is no word counts as 0.
    fn word(&mut self) -> u64 {
        self.before(b'!'..=255);
        word_of(self.before(0..=b' ')).unwrap_or(0)
    }

    // So many words, as far as there is room, each as an entry of a list.
    fn words_to<'b, T: Copy, F: Fn(u64) -> T>(
        &mut self,
        most: u64,
        list: &'b mut [T],
        entry_of: F,
    ) -> &'b [T]
        requires { F.IsAlwaysCallable entry_of }
    {
        let count = list.len().min(most as usize);
        let lent = &mut list[..count];
        for entry in lent.iter_mut() {
            *entry = entry_of(self.word());
        }
        lent
    }

    // A number, and then so many words, where the case has such a list.
    fn list<'b, T: Copy, F: Fn(u64) -> T>(
        &mut self,
        has: bool,
        list: &'b mut [T],
        entry_of: F,
    ) -> &'b [T]
        requires { F.IsAlwaysCallable entry_of }
    {
        let most = if has { self.word() } else { 0 };
        self.words_to(most, list, entry_of)
    }
}

// So many entries of one value. That its length alone is known keeps the check short.
pub fn filled<T: Copy, const N: usize>(value: T) -> [T; N]
    ensures { N ≡ length result }
{
    [value; N]
}

// How many words a case has before its lists, and whether it has a list of words and one of bytes. A kind is the byte of the input that is
// described above: as an enum each would be named twice more, and told no better.
#[derive(Clone, Copy)]
struct Form {
    words: u64,
    has_list: bool,
    has_bytes: bool,
}

fn form_of(kind: u8) -> Form {
    let (words, has_list, has_bytes) = match kind {
        b'=' | b'/' => (0, false, false),
        b'T' | b'L' | b'i' => (1, false, false),
        b'k' => (2, false, false),
        b'h' | b'<' | b'>' => (3, false, false),
        b'w' => (0, true, false),
        b's' => (0, false, true),
        b't' | b'l' | b'%' => (1, false, true),
        b'?' | b'@' => (2, false, true),
        b'r' | b'&' => (3, false, true),
        b'y' => (4, false, true),
        b'$' => (15, false, true),
        _ => (4, true, true),
    };
    Form {
        words,
        has_list,
        has_bytes,
    }
}

// What the input says of a case.
#[derive(Clone, Copy)]
pub struct Case<'a> {
    pub kind: u8,
    pub words: &'a [u64; 16],
    pub list: &'a [u64],
    pub bytes: &'a [u8],
}

impl Case<'_> {
    // The knowing set of a case that has one.
    pub fn known(&self) -> TagSet {
        TagSet {
            low: self.words[0],
            high: self.words[1],
        }
    }
}

// Reads into the beginning of the table that is kept.
fn read_into(to: &mut Stdout, case: &Case, table: &mut [u64]) -> io::Result<()> {
    if let Some(lent) = table.get_mut(..case.words[2] as usize) {
        readings::answered(to, reader::read(case.bytes, case.known(), lent))?;
    }
    Ok(())
}

// Runs a case, with the table that is kept.
fn run(to: &mut Stdout, case: &Case, table: &mut [u64]) -> io::Result<()> {
    match case.kind {
        b'=' | b'/' => Ok(()),
        b'#'..=b'%' => outputs::run(to, case),
        b'&' => grounds::walk(to, case),
        b'@' => grounds::run(to, case),
        b'<' | b'>' => conversions::run(to, case),
        b'r' => read_into(to, case, table),
        b'?' | b'w' | b'y' | b'z' => readings::run(to, case, table),
        _ => leaves::run(to, case),
    }
}

// Takes the words and lists of a case, and runs it.
fn given(to: &mut Stdout, kind: u8, input: &mut Input, table: &mut [u64]) -> io::Result<()> {
    let form = form_of(kind);
    let mut words = [0; 16];
    input.words_to(form.words, &mut words, |word| word);
    let mut list: [u64; 8200] = filled(0);
    let list = input.list(form.has_list, &mut list, |word| word);
    let mut bytes: [u8; 8200] = filled(0);
    let bytes = input.list(form.has_bytes, &mut bytes, |word| (word % 256) as u8);
    let case = Case {
        kind,
        words: &words,
        list,
        bytes,
    };
    run(to, &case, table)
}

// Writes the title of a case that has one.
fn titled(to: &mut Stdout, kind: u8, input: &mut Input) -> io::Result<()> {
    match kind {
        b'/' => {
            input.line();
            Ok(())
        }
        b'=' => text::line(to, input.line()),
        b'#'..=b'&' | b'@' => {
            to.write_all(&[kind])?;
            text::line(to, input.line())
        }
        _ => Ok(()),
    }
}

fn cases(to: &mut Stdout, bytes: &[u8]) -> io::Result<()> {
    let mut input = Input { rest: bytes };
    // Sevens, so that a word that stays is seen.
    let mut table: [u64; 520] = filled(7);
    // A case has a byte at least, so there are no more of them than bytes.
    for _ in 0..bytes.len() {
        let Some(kind) = input.next_case() else {
            break;
        };
        titled(to, kind, &mut input)?;
        given(to, kind, &mut input, &mut table)?;
    }
    Ok(())
}

fn main(rt: HostRuntime) -> io::Result<()> {
    let mut input: [u8; 131072] = filled(0);
    let n = console::read_full(&mut rt.stdin(), &mut input)?;
    cases(&mut rt.stdout(), &input[..n])
}
