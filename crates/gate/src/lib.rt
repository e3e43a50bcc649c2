// The begin of an operation: for each the tests that it makes, in the order of the refusals (H7.1), and its first place (H4.1).
#![tactic(auto)]

ghost use Rattle.std.specs.Prelude.{◌≡◌, ltb};
ghost use Rattle.model.specs.Record as Model;
ghost use Rattle.values.specs.Meaning.{reading_of};
ghost use Rattle.values.specs.Refusals.{numbered};
ghost use Rattle.places.specs.About.{about_of};
ghost use Rattle.record.specs.Meaning.{operation_of};
ghost use Rattle.gate.specs.Gate.{seen_in, placed, begin_gate};

use marks::MarkNeed;
use record::Operation;
use rights::{Needed, Permission, Tables};
use values::{Reading, Refusal};
use worker::{Announced, Doing, Goal, Purpose, TimeStep};

// What is to be done with a record that is not refused.
#[derive(Clone, Copy)]
pub enum Gate {
    // a setup that is accepted
    Make { p: u8, v: u16, n: u16, clock: u32 },
    // an operation begins: the worker and its first place
    Start { worker: u8, doing: Doing },
    // the worker takes a step
    Go { worker: u8 },
}

// What is known of the hub and of the worker that a record names: what a setup fixed, the worker's place and announced time, the marks, and
// which of them each worker reads.
#[derive(Clone, Copy)]
pub struct Known<'t, 'a> {
    pub tables: Tables<'t>,
    pub doing: Doing,
    pub announced: Announced,
    pub marks: &'a [u64; 12],
    pub reading: &'a [u8],
}

// 4: there is such a register; there is such a mark.
fn is_register(register: u16, v: usize) -> bool
    ensures { result ≡ ltb register v }
{
    usize::from(register) < v
}

fn is_mark(m: u16) -> bool
    ensures { result ≡ ltb m 12 }
{
    m < 12
}

fn is_idle(d: Doing) -> bool
    ensures { result ≡ (about_of d).idle }
{
    places::about(d).idle
}

// ---- each operation: the tests, and the first place

#[tactic(auto, unfolding(model::specs::Apply::refusal, marks::specs::Marks::refusal_in, crate::specs::Gate::placed))]
fn put(known: Known, worker: u8, register: u16, reading: Reading) -> Result<Doing, Refusal>
    ensures { numbered result ≡ placed (seen_in known.entry) worker (Model.Put register (reading_of reading)) }
{
    if !is_register(register, known.tables.v) {
        return Err(Refusal::OutOfRange);
    }
    if 999999999999 < reading.count {
        return Err(Refusal::ValueTooLarge);
    }
    if 2 < reading.status {
        return Err(Refusal::UnknownStatus);
    }
    let need = Needed::On {
        permission: Permission::Put,
        register,
    };
    if !rights::is_allowed(need, known.tables, worker) {
        return Err(Refusal::NotAllowed);
    }
    if !is_idle(known.doing) {
        return Err(Refusal::Busy);
    }
    Ok(Doing::PutPublish { register, reading })
}

#[tactic(auto, unfolding(model::specs::Apply::refusal, marks::specs::Marks::refusal_in, crate::specs::Gate::placed))]
fn open(known: Known, worker: u8) -> Result<Doing, Refusal>
    ensures { numbered result ≡ placed (seen_in known.entry) worker Model.Open }
{
    if !is_idle(known.doing) {
        return Err(Refusal::Busy);
    }
    if known.announced.is_some() {
        return Err(Refusal::SnapshotOpen);
    }
    Ok(Doing::OnTime(TimeStep::OpenAnnounce))
}

#[tactic(auto, unfolding(model::specs::Apply::refusal, marks::specs::Marks::refusal_in, crate::specs::Gate::placed))]
fn read(known: Known, worker: u8, register: u16) -> Result<Doing, Refusal>
    ensures { numbered result ≡ placed (seen_in known.entry) worker (Model.Read register) }
{
    if !is_register(register, known.tables.v) {
        return Err(Refusal::OutOfRange);
    }
    let need = Needed::On {
        permission: Permission::Read,
        register,
    };
    if !rights::is_allowed(need, known.tables, worker) {
        return Err(Refusal::NotAllowed);
    }
    if !is_idle(known.doing) {
        return Err(Refusal::Busy);
    }
    if known.announced.is_none() {
        return Err(Refusal::NoSnapshot);
    }
    let goal = Goal {
        register,
        purpose: Purpose::Single,
    };
    Ok(Doing::ReadEnter { goal })
}

#[tactic(auto, unfolding(model::specs::Apply::refusal, marks::specs::Marks::refusal_in, crate::specs::Gate::placed))]
fn close(known: Known, worker: u8) -> Result<Doing, Refusal>
    ensures { numbered result ≡ placed (seen_in known.entry) worker Model.Close }
{
    if !is_idle(known.doing) {
        return Err(Refusal::Busy);
    }
    if known.announced.is_none() {
        return Err(Refusal::NoSnapshot);
    }
    Ok(Doing::OnTime(TimeStep::CloseWithdraw))
}

#[tactic(auto, unfolding(model::specs::Apply::refusal, marks::specs::Marks::refusal_in, crate::specs::Gate::placed))]
fn get(known: Known, worker: u8, register: u16) -> Result<Doing, Refusal>
    ensures { numbered result ≡ placed (seen_in known.entry) worker (Model.Get register) }
{
    if !is_register(register, known.tables.v) {
        return Err(Refusal::OutOfRange);
    }
    let need = Needed::On {
        permission: Permission::Read,
        register,
    };
    if !rights::is_allowed(need, known.tables, worker) {
        return Err(Refusal::NotAllowed);
    }
    if !is_idle(known.doing) {
        return Err(Refusal::Busy);
    }
    Ok(Doing::GetShow { register })
}

#[tactic(auto, unfolding(model::specs::Apply::refusal, marks::specs::Marks::refusal_in, crate::specs::Gate::placed))]
fn collect(known: Known, worker: u8) -> Result<Doing, Refusal>
    ensures { numbered result ≡ placed (seen_in known.entry) worker Model.Collect }
{
    let need = Needed::InAny(Permission::Collect);
    if !rights::is_allowed(need, known.tables, worker) {
        return Err(Refusal::NotAllowed);
    }
    if !is_idle(known.doing) {
        return Err(Refusal::Busy);
    }
    Ok(Doing::FlushTake)
}

// It begins with the first row of its group.
#[tactic(auto, unfolding(model::specs::Apply::refusal, marks::specs::Marks::refusal_in, crate::specs::Gate::placed))]
fn total(known: Known, worker: u8, group: u16) -> Result<Doing, Refusal>
    ensures { numbered result ≡ placed (seen_in known.entry) worker (Model.Total group) }
{
    let Some(first) = total_rows::first_of(known.tables.rows, group) else {
        return Err(Refusal::UnknownGroup);
    };
    let need = Needed::OnGroup(group);
    if !rights::is_allowed(need, known.tables, worker) {
        return Err(Refusal::NotAllowed);
    }
    if !is_idle(known.doing) {
        return Err(Refusal::Busy);
    }
    if known.announced.is_none() {
        return Err(Refusal::NoSnapshot);
    }
    let goal = total_rows::goal_at(known.tables.rows, group, first, total_sums::no_sum());
    Ok(Doing::ReadEnter { goal })
}

#[tactic(auto, unfolding(model::specs::Apply::refusal, marks::specs::Marks::refusal_in, crate::specs::Gate::placed))]
fn mark(known: Known, worker: u8, mark: u16) -> Result<Doing, Refusal>
    ensures { numbered result ≡ placed (seen_in known.entry) worker (Model.Mark mark) }
{
    if !is_mark(mark) {
        return Err(Refusal::OutOfRange);
    }
    let need = Needed::OnAll(Permission::Mark);
    if !rights::is_allowed(need, known.tables, worker) {
        return Err(Refusal::NotAllowed);
    }
    if !is_idle(known.doing) {
        return Err(Refusal::Busy);
    }
    if known.announced.is_none() {
        return Err(Refusal::NoSnapshot);
    }
    marks::check(MarkNeed::Empty(mark), known.marks, known.reading)?;
    Ok(Doing::OnTime(TimeStep::MarkKeep(mark)))
}

#[tactic(auto, unfolding(model::specs::Apply::refusal, marks::specs::Marks::refusal_in, crate::specs::Gate::placed))]
fn release(known: Known, worker: u8, mark: u16) -> Result<Doing, Refusal>
    ensures { numbered result ≡ placed (seen_in known.entry) worker (Model.Release mark) }
{
    if !is_mark(mark) {
        return Err(Refusal::OutOfRange);
    }
    let need = Needed::OnAll(Permission::Mark);
    if !rights::is_allowed(need, known.tables, worker) {
        return Err(Refusal::NotAllowed);
    }
    if !is_idle(known.doing) {
        return Err(Refusal::Busy);
    }
    marks::check(MarkNeed::Unread(mark), known.marks, known.reading)?;
    Ok(Doing::OnTime(TimeStep::MarkRelease(mark)))
}

#[tactic(auto, unfolding(model::specs::Apply::refusal, marks::specs::Marks::refusal_in, crate::specs::Gate::placed))]
fn marked_read(known: Known, worker: u8, register: u16, mark: u16) -> Result<Doing, Refusal>
    ensures { numbered result ≡ placed (seen_in known.entry) worker (Model.MarkedRead register mark) }
{
    if !is_register(register, known.tables.v) {
        return Err(Refusal::OutOfRange);
    }
    if !is_mark(mark) {
        return Err(Refusal::OutOfRange);
    }
    let need = Needed::On {
        permission: Permission::Read,
        register,
    };
    if !rights::is_allowed(need, known.tables, worker) {
        return Err(Refusal::NotAllowed);
    }
    if !is_idle(known.doing) {
        return Err(Refusal::Busy);
    }
    marks::check(MarkNeed::Held(mark), known.marks, known.reading)?;
    let goal = Goal {
        register,
        purpose: Purpose::Marked(mark),
    };
    Ok(Doing::ReadEnter { goal })
}

// Where the operation begins.
fn place(known: Known, worker: u8, o: Operation) -> Result<Doing, Refusal>
    ensures { numbered result ≡ placed (seen_in known.entry) worker (operation_of o) }
{
    match o {
        Operation::Put { register, reading } => put(known, worker, register, reading),
        Operation::Open => open(known, worker),
        Operation::Read { register } => read(known, worker, register),
        Operation::MarkedRead { register, mark } => marked_read(known, worker, register, mark),
        Operation::Close => close(known, worker),
        Operation::Get { register } => get(known, worker, register),
        Operation::Collect => collect(known, worker),
        Operation::Total { group } => total(known, worker, group),
        Operation::Mark { mark: m } => mark(known, worker, m),
        Operation::Release { mark } => release(known, worker, mark),
    }
}

// The begin of an operation by a worker of p: 3 where it is not below p, then by the operation.
pub fn begin(known: Known, p: usize, worker: u8, o: Operation) -> Result<Gate, Refusal>
    ensures { numbered result ≡ begin_gate p (seen_in known.entry) worker (operation_of o) }
{
    if p <= usize::from(worker) {
        return Err(Refusal::UnknownWorker);
    }
    let doing = place(known, worker, o)?;
    Ok(Gate::Start { worker, doing })
}
