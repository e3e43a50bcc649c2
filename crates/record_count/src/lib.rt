// How many records of a buffer there is room to answer.
#![tactic(auto)]

ghost use Rattle.std.specs.Prelude.{◌≡◌, ◌+◌, ◌/◌, min};

// How many records of so many bytes can be answered, where there are two rows of so many entries. A rest of fewer than sixteen bytes is one more
// record (H3.6).
pub fn answerable(bytes: usize, kinds: usize, numbers: usize) -> usize
    ensures { result ≡ min ((bytes + 15) / 16) (min kinds numbers) }
{
    bytes.div_ceil(16).min(kinds.min(numbers))
}
