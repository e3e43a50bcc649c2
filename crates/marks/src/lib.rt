// The marks (H13): what is asked of one, and which worker reads which.
#![tactic(auto)]

ghost use Rattle.std.specs.Prelude.{◌≡◌};
ghost use Rattle.values.specs.Refusals.{number_or_0};
ghost use Rattle.marks.specs.Marks.{shown_as, read_as, read_by, read_next, read_in, mark_in, held_in, refusal_in, time_in};

use places::Stand;
use values::Refusal;
use worker::{Announced, Doing, Purpose};

// What is asked of a mark: nothing; that it is empty, else 19; that it holds a time, else 20; that it holds a time, else 20, and that no
// read of it runs, else 21. Nothing is a case among the others, so that one match says what is asked.
#[derive(Clone, Copy)]
pub enum MarkNeed {
    Nothing,
    Empty(u16),
    Held(u16),
    Unread(u16),
}

// ---- which worker reads which mark

// A mark as a worker that reads it shows it: plus one.
fn shown_as(m: u16) -> u8
    ensures { result ≡ shown_as m }
{
    (m % 255 + 1) as u8
}

// The mark as of which a value is read; 0 where there is none.
fn read_as(x: Purpose) -> u8
    ensures { result ≡ read_as x }
{
    match x {
        Purpose::Single => 0,
        Purpose::Marked(m) => shown_as(m),
        Purpose::Totaling { .. } => 0,
    }
}

// The mark that a worker at the place d reads, plus one; 0 where it reads none. It reads one while it stands on a version.
fn read_by(d: Doing) -> u8
    ensures { result ≡ read_by d }
{
    match places::about(d).stance {
        None => 0,
        Some(Stand { goal, slot: _ }) => read_as(goal.purpose),
    }
}

// What stands for a worker among what is read after a step from one place to another, where `old` stood there: as it was, unless a read of a
// mark begins or ends with the step.
pub fn read_next(before: Doing, after: Doing, old: u8) -> u8
    ensures { result ≡ read_next before after old }
{
    let now = read_by(after);
    if read_by(before) == now {
        return old;
    }
    now
}

// Whether a worker reads mark m.
fn is_read(reading: &[u8], m: u16) -> bool
    ensures { result ≡ read_in reading.now m }
{
    reading.contains(&shown_as(m))
}

// ---- what is asked of a mark

// The time that mark m holds; 4294967296 where it is empty, and where there is no such mark.
fn mark_at(marks: &[u64; 12], m: u16) -> u64
    ensures { result ≡ mark_in marks.now m }
{
    let i = usize::from(m);
    if i < marks.len() {
        return marks[i];
    }
    4294967296
}

// Whether mark m holds a time.
fn held(marks: &[u64; 12], m: u16) -> bool
    ensures { result ≡ held_in marks.now m }
{
    mark_at(marks, m) < 4294967296
}

// Whether a need is met: 19, 20 or 21 where it is not.
#[tactic(auto, unfolding(crate::specs::Marks::refusal_in))]
pub fn check<'a>(need: MarkNeed, marks: &'a [u64; 12], reading: &'a [u8]) -> Result<(), Refusal>
    ensures { number_or_0 result ≡ refusal_in need marks.now reading.now }
{
    match need {
        MarkNeed::Nothing => Ok(()),
        MarkNeed::Empty(m) => {
            if held(marks, m) {
                return Err(Refusal::MarkInUse);
            }
            Ok(())
        }
        MarkNeed::Held(m) => {
            if held(marks, m) {
                return Ok(());
            }
            Err(Refusal::MarkEmpty)
        }
        MarkNeed::Unread(m) => {
            if !held(marks, m) {
                return Err(Refusal::MarkEmpty);
            }
            if is_read(reading, m) {
                return Err(Refusal::MarkBeingRead);
            }
            Ok(())
        }
    }
}

// The time as of which a worker with the announced time t reads: its own, or the mark's.
pub fn time_for(x: Purpose, t: Announced, marks: &[u64; 12]) -> u64
    ensures { result ≡ time_in x t marks.now }
{
    match x {
        Purpose::Single => worker::time_of(t),
        Purpose::Marked(m) => mark_at(marks, m),
        Purpose::Totaling { .. } => worker::time_of(t),
    }
}
