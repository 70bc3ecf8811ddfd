// What the programs share: input read whole, the line of a refusal written, and a word of hexadecimal digits read.
// The functions that read and write have no contract beyond safety and what fits: none can say what comes or is written.
#![tactic(auto)]

ghost use Rattle.std.specs.Prelude.{◌≡◌, ◌≤◌, length, IfOk};
ghost use Rattle.console.specs.Word.{digit_of, word_of};

use refusal::Refusal;
use std::io::{Read, Result, Write};

// Reads until the buffer is full or the input ends, and answers how many bytes stand at its front: by as much as each read gives, so it counts.
pub fn read_full<R: Read>(from: &mut R, buffer: &mut [u8]) -> Result<usize>
    ensures { IfOk result (λ n. n ≤ length buffer.new) }
{
    let mut done = 0;
    while done < buffer.len() {
        let n = from.read(&mut buffer[done..])?;
        if n == 0 {
            return Ok(done);
        }
        done += n;
    }
    Ok(done)
}

// The line of a refusal: its number, place and tag.
pub fn refused<W: Write>(to: &mut W, r: Refusal) -> Result<()> {
    writeln!(to, "refused\t{r}")
}

// What a hexadecimal digit stands for, and none of any other byte.
pub fn digit(byte: u8) -> Option<u64>
    ensures { result ≡ digit_of byte }
{
    char::from(byte).to_digit(16).map(u64::from)
}

// The word that the text is, of 1 to 16 digits.
pub fn word_of(text: &[u8]) -> Option<u64>
    ensures { result ≡ word_of text.now }
{
    let too_long = 16 < text.len();
    if text.is_empty() || too_long {
        return None;
    }
    let mut value = 0;
    for byte in text {
        value = value * 16 + digit(*byte)?;
    }
    Some(value)
}
