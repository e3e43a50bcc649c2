// Put (3) and flush (1): functions of just what they change, in lent memory.
#![tactic(auto)]

ghost use Rattle.std.specs.Prelude.{◌≡◌, ◌<◌, length};
ghost use Rattle.lists.specs.Over.{over};
ghost use Rattle.ranges.specs.Words.{flat};
ghost use Rattle.queue.specs.State.{pools_in, taken, rest};
ghost use Rattle.versions.specs.Versions.{row_of};
ghost use Rattle.flush.specs.Flush.{handed_on, part_of, with_part};

use queue::Taking;
use values::{Answer, Window};
use worker::Doing;

// ---- put (3)

// Put (3) beside the pool's arrays: the low and the high that go there, how many ranges the pool has then, the worker's place and the answer.
#[derive(Clone, Copy)]
pub struct Handed {
    pub low: u32,
    pub high: u32,
    pub len: usize,
    pub doing: Doing,
    pub answer: Answer,
}

// Put (3), with the batch size: the covered version's range joins the n ranges of the local pool.
#[tactic(auto, unfolding(crate::specs::Flush::handed_on))]
pub fn put_hand_in(row: &[[u64; 6]], n: usize, covered: u16, size: u8) -> Handed
    ensures { result ≡ handed_on (row_of row.now) n covered size }
{
    let v = versions::load(row, usize::from(covered));
    let low = (v.low % 4294967296) as u32;
    let high = (v.high % 4294967296) as u32;
    let len = pools::one_more::<64>(n);
    let (doing, answer) = if len == usize::from(size) {
        (Doing::FlushTake, Answer::Going)
    } else {
        (Doing::Idle, Answer::Done)
    };
    Handed {
        low,
        high,
        len,
        doing,
        answer,
    }
}

// ---- flush (1)

// Flush (1): up to two pools of the queue, merged into worker w's part of the merged lists.
pub fn flush_take(
    queue: &mut [u32; 12288],
    lens: &mut [u32; 4096],
    window: Window,
    merged: &mut [u32; 12288],
    w: usize,
) -> Taking
    requires { w < 16 }
    ensures count_value { result.count ≡ length (taken (pools_in queue.old lens.old window)) }
    ensures window_after { pools_in queue.new lens.new result.window ≡ rest (pools_in queue.old lens.old window) }
    ensures merged_after { merged.new ≡ with_part merged.old w (over (flat (taken (pools_in queue.old lens.old window))) (part_of merged.old w)) }
{
    let at = 768 * w;
    queue::take(queue, lens, window, &mut merged[at..at + 768])
}
