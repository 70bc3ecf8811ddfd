// Tags and lengths as they stand before each value (SMPTE ST 336 as document 01 has it): read at a place, sized, and put at a place.
// Every slice and every place gets an answer; a tag has one form, a length is put in its shortest, and what was put reads back.
#![tactic(auto)]

ghost use Rattle.std.specs.Prelude.{◌≡◌, ◌+◌, ◌<◌, ◌≤◌, [], ◌∷◌, length, take, drop};
ghost use Rattle.number.specs.Stored.{value_of, bytes_of};
ghost use Rattle.ber.specs.Read.{read_tag, tag_second, tag_third, read_length};
ghost use Rattle.base.specs.Putting.{Puts};
ghost use Rattle.ber.specs.Written.{tag_bytes, length_bytes};
ghost use Rattle.ber.specs.Seen.{seen};

// A number that stands at a place, and how many bytes it takes. Where what stands there is cut or forbidden, there is none.
#[derive(Clone, Copy, Debug, PartialEq, Eq)]
pub struct Field {
    pub value: u64,
    pub size: usize,
}

pub fn tag_at(s: &[u8], at: usize) -> Option<Field>
    ensures { seen result ≡ read_tag (drop at s.now) }
{
    if s.len() <= at {
        return None;
    }
    let a = u64::from(s[at]);
    if a < 128 {
        let some = 0 < a;
        if some {
            return Some(Field { value: a, size: 1 });
        }
        return None;
    }
    if a <= 128 {
        return None;
    }
    tag_second_at(s, at + 1, a - 128)
}

// The second byte, where the first says high.
fn tag_second_at(s: &[u8], at: usize, high: u64) -> Option<Field>
    requires { high < 128 }
    ensures { seen result ≡ tag_second high (drop at s.now) }
{
    if s.len() <= at {
        return None;
    }
    let b = u64::from(s[at]);
    if b < 128 {
        return Some(Field {
            value: high * 128 + b,
            size: 2,
        });
    }
    tag_third_at(s, at + 1, high * 128 + (b - 128))
}

// The third byte, which must be the last, where the two before say high. It and the second differ in what follows, so one function for both would
// ask which it is.
fn tag_third_at(s: &[u8], at: usize, high: u64) -> Option<Field>
    requires { high < 16384 }
    ensures { seen result ≡ tag_third high (drop at s.now) }
{
    if s.len() <= at {
        return None;
    }
    let c = u64::from(s[at]);
    if c < 128 {
        return Some(Field {
            value: high * 128 + c,
            size: 3,
        });
    }
    None
}

// The number that one to four bytes at a place say, one after another: a length has so few, and a loop takes longer (docs/SPEED.md).
fn few_at(s: &[u8], at: usize, count: usize) -> u64
    requires { (0 < count) × (count ≤ 4) × (at + count ≤ length s.now) }
    ensures { result ≡ value_of (take count (drop at s.now)) }
{
    let one = u64::from(s[at]);
    if count == 1 {
        return one;
    }
    let two = one * 256 + u64::from(s[at + 1]);
    if count == 2 {
        return two;
    }
    let three = two * 256 + u64::from(s[at + 2]);
    if count == 3 {
        return three;
    }
    three * 256 + u64::from(s[at + 3])
}

pub fn length_at(s: &[u8], at: usize) -> Option<Field>
    ensures { seen result ≡ read_length (drop at s.now) }
{
    if s.len() <= at {
        return None;
    }
    let a = u64::from(s[at]);
    if a < 128 {
        return Some(Field { value: a, size: 1 });
    }
    if a <= 128 {
        return None;
    }
    if 132 < a {
        return None;
    }
    let from = at + 1;
    let count = (a - 128) as usize;
    if s.len() - from < count {
        return None;
    }
    Some(Field {
        value: few_at(s, from, count),
        size: count + 1,
    })
}

// The bytes of a tag or a length as one number, and how many they are: none for what has no form. No `Option`: what has no form has a size too, 0
// bytes of it are put, and both who ask for the size and who put would make that 0 of a `None`.
#[derive(Clone, Copy)]
struct Form {
    size: usize,
    code: u64,
}

fn tag_form(tag: u64) -> Form
    ensures { bytes_of result.size result.code ≡ tag_bytes tag }
{
    if tag == 0 {
        return Form { size: 0, code: 0 };
    }
    if tag < 128 {
        return Form { size: 1, code: tag };
    }
    let last = tag % 128;
    if tag < 16384 {
        let first = 128 + tag / 128;
        return Form {
            size: 2,
            code: first * 256 + last,
        };
    }
    if tag < 2097152 {
        let first = 128 + tag / 16384;
        let second = 128 + tag / 128 % 128;
        return Form {
            size: 3,
            code: (first * 256 + second) * 256 + last,
        };
    }
    Form { size: 0, code: 0 }
}

fn length_form(x: u64) -> Form
    ensures { bytes_of result.size result.code ≡ length_bytes x }
{
    if x < 128 {
        return Form { size: 1, code: x };
    }
    if x < 0x100 {
        return Form {
            size: 2,
            code: 0x81_00 + x,
        };
    }
    if x < 0x1_0000 {
        return Form {
            size: 3,
            code: 0x82_0000 + x,
        };
    }
    if x < 0x100_0000 {
        return Form {
            size: 4,
            code: 0x8300_0000 + x,
        };
    }
    if x < 0x1_0000_0000 {
        return Form {
            size: 5,
            code: 0x84_0000_0000 + x,
        };
    }
    Form { size: 0, code: 0 }
}

// Puts the bytes of a form at a place, and answers how many: none, and nothing is changed, where there is no room.
fn put_form(out: &mut [u8], at: usize, form: Form) -> usize
    ensures { Puts out.old at (bytes_of form.size form.code) result out.new }
{
    let size = form.size;
    let code = form.code;
    let room = out.len();
    if room < size {
        return 0;
    }
    if room - size < at {
        return 0;
    }
    let end = at + size;
    number::put(&mut out[at..end], code);
    size
}

// Puts the one byte of a short tag or length, in the same way.
fn put_short(out: &mut [u8], at: usize, x: u64) -> usize
    requires { x < 128 }
    ensures { Puts out.old at (x ∷ []) result out.new }
{
    if at < out.len() {
        out[at] = x as u8;
        return 1;
    }
    0
}

// How many bytes a tag takes: 0 where it has no form.
pub fn tag_size(tag: u64) -> usize
    ensures { result ≡ length (tag_bytes tag) }
{
    tag_form(tag).size
}

// How many bytes a length takes in its shortest form: 0 where it has no form.
pub fn length_size(x: u64) -> usize
    ensures { result ≡ length (length_bytes x) }
{
    length_form(x).size
}

// Puts a tag at a place, and answers how many bytes: none, and nothing is changed, where it has no form or there is no room.
pub fn put_tag(out: &mut [u8], at: usize, tag: u64) -> usize
    ensures { Puts out.old at (tag_bytes tag) result out.new }
{
    if 0 < tag && tag < 128 {
        return put_short(out, at, tag);
    }
    put_form(out, at, tag_form(tag))
}

// Puts a length in its shortest form, in the same way.
pub fn put_length(out: &mut [u8], at: usize, x: u64) -> usize
    ensures { Puts out.old at (length_bytes x) result out.new }
{
    if x < 128 {
        return put_short(out, at, x);
    }
    put_form(out, at, length_form(x))
}
