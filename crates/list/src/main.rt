// Lists the packet on standard input for a person: place, tag, kind and value of each item, or the refusal.
#![tactic(auto)]

use listing::LARGEST;
use std::io;
use std::io::Write;

// One byte more than a packet may have, so that a longer one is seen to be too long.
fn main(rt: HostRuntime) -> io::Result<()> {
    let mut packet = [0u8; 8193];
    let mut out = [0u8; LARGEST];
    let n = console::read_full(&mut rt.stdin(), &mut packet)?;
    match listing::list(&packet[..n], &mut out) {
        Err(refusal) => console::refused(&mut rt.stderr(), refusal)?,
        Ok(size) => {
            if size <= LARGEST {
                rt.stdout().write_all(&out[..size])?;
            }
        }
    }
    Ok(())
}
