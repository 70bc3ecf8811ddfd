// Knowing sets: which catalogue tags a receiver knows.
// A set is good exactly where document 01 says so.
#![tactic(auto)]

ghost use Rattle.std.specs.Prelude.{◌≡◌};
ghost use Rattle.knowing.specs.Good.{good};

use tagset::TagSet;

// Whether a set is good: it holds 1, 2 and 65 and nothing outside the catalogue.
pub fn is_good(s: TagSet) -> bool
    ensures { result ≡ good s }
{
    let least = TagSet { low: 6, high: 2 };
    tagset::is_within(least, s) && tagset::is_within(s, catalogue::all_tags())
}
