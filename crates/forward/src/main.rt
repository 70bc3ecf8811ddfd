// Reads one packet from standard input and sends it on to standard output. Without arguments it knows items 1, 2 and 65; two
// words in hexadecimal, the low one first, are another knowing set. A refusal writes nothing to standard output, since that would
// travel on as a packet, and one line to standard error.
#![tactic(auto)]

use console::{refused, word_of};
use std::env::FillError;
use std::io;
use std::io::Write;
use std::rt::Env;
use tagset::TagSet;

// One byte more than a packet may have, so that a longer one is seen to be too long.
fn send(rt: &HostRuntime, known: TagSet) -> io::Result<()> {
    let mut packet = [0u8; 8193];
    let mut out = [0u8; 8192];
    let n = console::read_full(&mut rt.stdin(), &mut packet)?;
    match relay::forward(known, &packet[..n], &mut out) {
        Err(r) => refused(&mut rt.stderr(), r)?,
        Ok(sent) => {
            let size = sent.size;
            if size <= 8192 {
                rt.stdout().write_all(&out[..size])?;
            }
        }
    }
    Ok(())
}

// Whether there is an argument of this number, however long.
fn has_argument(rt: &impl Env, n: usize) -> bool {
    let mut text = [0u8; 1];
    !matches!(rt.arg(n, &mut text), Err(FillError::NotPresent))
}

// An argument of at most 16 digits: a longer one does not fit, and is none.
fn argument(rt: &impl Env, n: usize) -> Option<u64> {
    let mut text = [0u8; 16];
    let length = rt.arg(n, &mut text).ok()?;
    word_of(&text[..length])
}

// The knowing set that the arguments give: items 1, 2 and 65 where there are none. Arguments that are not two words give none.
fn known(rt: &impl Env) -> Option<TagSet> {
    if !has_argument(rt, 1) {
        return Some(TagSet { low: 6, high: 2 });
    }
    if has_argument(rt, 3) {
        return None;
    }
    let low = argument(rt, 1)?;
    let high = argument(rt, 2)?;
    Some(TagSet { low, high })
}

fn main(rt: HostRuntime) -> io::Result<()> {
    match known(&rt) {
        Some(known) => send(&rt, known),
        None => eprintln!(rt;
            "forward: the arguments are none, or two words in hexadecimal of at most 16 digits"
        ),
    }
}
