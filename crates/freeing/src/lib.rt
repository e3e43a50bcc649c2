// Flush (4): a needless version is unlinked and its slot freed.
#![tactic(auto)]

ghost use Rattle.std.specs.Prelude.{◌≡◌, ◌<◌};
ghost use Rattle.versions.specs.Versions.{row_of};
ghost use Rattle.freeing.specs.Freeing.{next_to_free, freed_step, freed_row, freed_free};

// The slot that is freed, its older neighbour, and how many slots are free then.
#[derive(Clone, Copy)]
pub struct Freed {
    pub slot: u16,
    pub older: u16,
    pub free: usize,
}

// The slot of the range that is freed next, the last of m in worker w's part.
fn next_to_free(merged: &[u32; 12288], w: usize, m: u16) -> usize
    requires { (w < 16) × (0 < m) }
    ensures { result ≡ next_to_free merged.now w m }
{
    let i = 256 * w + (usize::from(m) - 1);
    if i < 4096 { merged[3 * i] as usize } else { 0 }
}

// Flush (4), with m ranges left to free and n slots free.
pub fn flush_free(
    row: &mut [[u64; 6]],
    free: &mut [u16; 2048],
    merged: &[u32; 12288],
    w: usize,
    m: u16,
    n: usize,
) -> Freed
    requires { (w < 16) × (0 < m) }
    ensures value { result ≡ freed_step (row_of row.old) merged.now w m n }
    ensures row_after { row_of row.new ≡ freed_row (row_of row.old) merged.now w m }
    ensures free_after { free.new ≡ freed_free free.old merged.now w m n }
{
    let i = next_to_free(merged, w, m);
    let v = versions::load(row, i);
    linking::unlink(row, i);
    arrays::set_short(free, n, i);
    Freed {
        slot: (i % 65536) as u16,
        older: (v.older % 65536) as u16,
        free: pools::one_more::<2048>(n),
    }
}
