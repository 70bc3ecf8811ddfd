// The checksum: the sixteen-bit running sum of the bytes, which drops its carries.
// It is document 01's sum modulo 65,536, of any bytes.
#![tactic(auto)]

ghost use Rattle.std.specs.Prelude.{◌≡◌, ◌%◌};
ghost use Rattle.checksum.specs.Sum.{checksum_of, weighed};

// The checksum of all the bytes lent: the first one by itself, the rest from place 1 on.
pub fn checksum(s: &[u8]) -> u16
    ensures { result ≡ checksum_of s.now }
{
    match s {
        [] => 0,
        [first, rest @ ..] => (u16::from(*first) * 256).wrapping_add(from_odd(rest)),
    }
}

// The sum of bytes of which the first stands at an odd place: pairs, low byte first, and the byte left over.
fn from_odd(s: &[u8]) -> u16
    ensures { result ≡ weighed 1 s.now % 65536 }
{
    let (pairs, over) = s.as_chunks::<2>();
    let mut sum: u16 = 0;
    for pair in pairs {
        sum = sum.wrapping_add(u16::from_le_bytes(*pair));
    }
    match over {
        [last] => sum.wrapping_add(u16::from(*last)),
        _ => sum,
    }
}
