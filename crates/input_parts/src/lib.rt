// The input, cut between records: what of a block is logged, and what is kept for the next one.
#![tactic(auto)]

ghost use Rattle.std.specs.Prelude.{◌≡◌, cond, ◌-◌, ◌≤◌, length};
ghost use Rattle.lists.specs.Over.{shifted};
ghost use Rattle.input_parts.specs.Whole.{whole_records};

// How many of the n bytes read so far are to be logged: the whole records, and at the end of the input the rest too, which is one more (H3.6).
pub fn to_log(n: usize, ended: bool) -> usize
    ensures value { result ≡ cond ended n (whole_records n) }
    ensures bound { result ≤ n }
{
    if ended {
        return n;
    }
    16 * (n / 16)
}

// Moves the bytes from index `from` to index n to the front; answers how many they are.
pub fn keep_rest(buf: &mut [u8], from: usize, n: usize) -> usize
    requires ordered { from ≤ n }
    requires inside { n ≤ length buf.old }
    ensures count { result ≡ n - from }
    ensures moved { buf.new ≡ shifted buf.old from n }
    ensures bound { result ≤ length buf.new }
{
    let rest = n - from;
    buf.copy_within(from..n, 0);
    rest
}
