// The reader: of check and of read the row count or a refusal, then each row's four words; of a row taken out singly what it holds.
ghost use Rattle.std.specs.Prelude.{◌≡◌, IfOk};
ghost use Rattle.refusal.specs.Answer.{or_else, answer_said};

use crate::Case;
use crate::text::sized;
use console::refused;
use refusal::Refusal;
use rows::{Content, Filled, Part};
use std::io;
use std::io::{Stdout, Write};

// Writes what a reading came to, and answers how many rows there are to write: none after a refusal.
pub fn answered(to: &mut Stdout, answer: Result<Filled, Refusal>) -> io::Result<usize>
    ensures { IfOk result (λ n. n ≡ or_else 0 (λ f. f.count) (answer_said answer)) }
{
    write!(to, "read\t")?;
    let count = answer.map(|filled| filled.count);
    sized(to, "accepted", count)?;
    Ok(count.unwrap_or(0))
}

fn check(to: &mut Stdout, case: &Case) -> io::Result<()> {
    write!(to, "check\t")?;
    let checked = packet::check(case.bytes, case.known());
    sized(to, "accepted", checked.map(|of| of.count))
}

fn rows_of(to: &mut Stdout, table: &[u64; 520], count: usize) -> io::Result<()> {
    let (rows, _) = table.as_chunks::<4>();
    for [tag, kind, first, second] in rows.iter().take(count) {
        writeln!(to, "{tag}\t{kind}\t{first}\t{second}")?;
    }
    Ok(())
}

fn reading(to: &mut Stdout, case: &Case) -> io::Result<()> {
    check(to, case)?;
    // Sevens, so that a word that stays is seen.
    let mut table: [u64; 520] = crate::filled(7);
    let count = answered(to, reader::read(case.bytes, case.known(), &mut table))?;
    rows_of(to, &table, count)
}

fn table_words(to: &mut Stdout, table: &[u64], places: &[u64]) -> io::Result<()> {
    write!(to, "table")?;
    for place in places {
        if let Some(word) = table.get(*place as usize) {
            write!(to, "\t{word}")?;
        }
    }
    writeln!(to)
}

fn held(to: &mut Stdout, tag: u64, content: Content) -> io::Result<()> {
    match content {
        Content::Reading { code, length } => writeln!(to, "reading\t{tag}\t{code}\t{length}"),
        Content::Mark => writeln!(to, "mark\t{tag}"),
        Content::Text(Part { place, length }) => writeln!(to, "text\t{tag}\t{place}\t{length}"),
        Content::Carried(Part { place, length }) => {
            writeln!(to, "carried\t{tag}\t{place}\t{length}")
        }
        Content::Withdrawn => writeln!(to, "withdrawn\t{tag}"),
    }
}

fn taken(to: &mut Stdout, rows: &[u64], case: &Case) -> io::Result<()> {
    let (count, number) = (case.words[2] as usize, case.words[3] as usize);
    match rows::take_row(rows, count, number, case.known(), case.bytes) {
        Ok(row) => held(to, row.tag, row.content),
        Err(r) => refused(to, r),
    }
}

// The table is the one that is kept.
pub fn run(to: &mut Stdout, case: &Case, table: &[u64]) -> io::Result<()> {
    match case.kind {
        b'?' => reading(to, case),
        b'w' => table_words(to, table, case.list),
        b'y' => taken(to, table, case),
        _ => taken(to, case.list, case),
    }
}
