// Sets of tags below 128 as two words, tag t being bit t of the pair: a tag in it, a tag more, one set within another, how many tags.
// Each test is what the words mean as a set, for every tag of 64 bits.
#![tactic(auto)]

ghost use Rattle.std.specs.Prelude.{◌≡◌};
ghost use Rattle.tagset.specs.Sets.{holds, within, with_tag, size, meet, same};

// The first word is bits 0 to 63.
#[derive(Clone, Copy, Debug, PartialEq, Eq)]
pub struct TagSet {
    pub low: u64,
    pub high: u64,
}

// Whether the set holds a tag; from 128 on it holds none. By shifts and masks on each word, the form that document 01 names for sets.
pub fn has(s: TagSet, tag: u64) -> bool
    ensures { result ≡ holds s tag }
{
    if tag < 64 {
        return (s.low >> tag) & 1 == 1;
    }
    if tag < 128 {
        return (s.high >> (tag - 64)) & 1 == 1;
    }
    false
}

// The set with a tag more; from 128 on it stays as it is.
pub fn with_tag(s: TagSet, tag: u64) -> TagSet
    ensures { result ≡ with_tag s tag }
{
    if tag < 64 {
        return TagSet {
            low: s.low | (1 << tag),
            high: s.high,
        };
    }
    if tag < 128 {
        return TagSet {
            low: s.low,
            high: s.high | (1 << (tag - 64)),
        };
    }
    s
}

// Whether the second set holds all that the first holds.
pub fn is_within(s: TagSet, of: TagSet) -> bool
    ensures { result ≡ within s of }
{
    s.low & of.low == s.low && s.high & of.high == s.high
}

// How many tags the set holds: the set bits of its words.
pub fn size_of(s: TagSet) -> usize
    ensures { result ≡ size s }
{
    u64::count_ones(s.low) as usize + u64::count_ones(s.high) as usize
}

// The tags that both sets hold.
pub fn meet_of(s: TagSet, of: TagSet) -> TagSet
    ensures { result ≡ meet s of }
{
    TagSet {
        low: s.low & of.low,
        high: s.high & of.high,
    }
}

// Whether both sets are the same two words: `==`, as a function that docs/ name.
pub fn is_same(s: TagSet, of: TagSet) -> bool
    ensures { result ≡ same s of }
{
    s == of
}
