// Numbers stored highest byte first: the value of the bytes in a lent slice, and a slice filled with a value's bytes.
// What is put is read back, and every slice gets an answer.
#![tactic(auto)]

ghost use Rattle.std.specs.Prelude.{◌≡◌, ◌%◌, ◌^◌, length};
ghost use Rattle.number.specs.Stored.{value_of, bytes_of};

// Any number of bytes, one after another.
fn of_any_length(s: &[u8]) -> u64
    ensures { result ≡ value_of s.now % 2 ^ 64 }
{
    let mut v: u64 = 0;
    for b in s {
        v = v % 0x0100_0000_0000_0000 * 256 + u64::from(*b);
    }
    v
}

// The number that the bytes say, at once for the widths that the catalogue has. Of more than eight bytes the last eight count.
pub fn value(s: &[u8]) -> u64
    ensures { result ≡ value_of s.now % 2 ^ 64 }
{
    match s {
        [a, b] => u64::from(u16::from_be_bytes([*a, *b])),
        [a, b, c, d] => u64::from(u32::from_be_bytes([*a, *b, *c, *d])),
        [a] => u64::from(*a),
        [a, b, c, d, e, f, g, h] => u64::from_be_bytes([*a, *b, *c, *d, *e, *f, *g, *h]),
        _ => of_any_length(s),
    }
}

// Fills a slice of any length, from its end.
fn put_any_length(out: &mut [u8], x: u64)
    ensures { out.new ≡ bytes_of (length out.old) x }
{
    let mut left = x;
    for i in (0..out.len()).rev() {
        out[i] = (left % 256) as u8;
        left /= 256;
    }
}

// Fills the slice with the lowest bytes of a number, at once for the widths that the catalogue has.
pub fn put(out: &mut [u8], x: u64)
    ensures { out.new ≡ bytes_of (length out.old) x }
{
    match out.len() {
        2 => out.copy_from_slice(&((x % 0x1_0000) as u16).to_be_bytes()),
        4 => out.copy_from_slice(&((x % 0x1_0000_0000) as u32).to_be_bytes()),
        1 => out.copy_from_slice(&[(x % 0x100) as u8]),
        _ => put_any_length(out, x),
    }
}
