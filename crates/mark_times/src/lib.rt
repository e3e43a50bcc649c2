// Flush (2) of the marks: their times, read at once behind those of the workers.
#![tactic(auto)]

ghost use Rattle.std.specs.Prelude.{◌≡◌, ◌+◌, ◌*◌, ◌≤◌, ◌<◌};
ghost use Rattle.lists.specs.Over.{over_at};

// The times of all marks go behind those of the p workers, in worker w's part of the times that were read.
pub fn read_all(times: &mut [u64; 448], w: usize, p: usize, marks: &[u64; 12])
    requires { (w < 16) × (p ≤ 16) }
    ensures { times.new ≡ over_at (28 * w + p) marks.now times.old }
{
    let at = 28 * w + p;
    times[at..at + 12].copy_from_slice(marks);
}
