// What is asked of a worker's place besides its step: here it is taken apart.
#![tactic(auto)]

ghost use Rattle.std.specs.Prelude.{◌≡◌};
ghost use Rattle.places.specs.About.{naming, mark_moved, moving, mark_read, reading, about_of};

use worker::{Doing, Goal, Purpose, TimeStep};

// The slot on which a read stands, and what it reads for.
#[derive(Clone, Copy)]
pub struct Stand {
    pub goal: Goal,
    pub slot: u16,
}

// What is asked of a place besides its step: the register, the slot, the count and the mark that it names, if any.
#[derive(Clone, Copy)]
pub struct Facts {
    pub idle: bool,
    pub register: Option<u16>,
    pub slot: Option<u16>,
    // how many ranges its list has
    pub ranges: Option<u16>,
    // how many times were read
    pub read: u8,
    pub stance: Option<Stand>,
    // what it reads for
    pub purpose: Purpose,
    // the mark that it moves or reads
    pub mark: Option<u16>,
}

// A place that names this much, reads nothing and names no mark.
fn names(
    idle: bool,
    register: Option<u16>,
    slot: Option<u16>,
    ranges: Option<u16>,
    read: u8,
) -> Facts
    ensures { result ≡ naming idle register slot ranges read }
{
    Facts {
        idle,
        register,
        slot,
        ranges,
        read,
        stance: None,
        purpose: Purpose::Single,
        mark: None,
    }
}

// The mark that a step moves, if any.
fn mark_moved(y: TimeStep) -> Option<u16>
    ensures { result ≡ mark_moved y }
{
    match y {
        TimeStep::OpenAnnounce => None,
        TimeStep::OpenPass => None,
        TimeStep::CloseWithdraw => None,
        TimeStep::MarkKeep(m) => Some(m),
        TimeStep::MarkRelease(m) => Some(m),
    }
}

// The place of a step that moves a time: the mark, if it moves one's.
fn moves(y: TimeStep) -> Facts
    ensures { result ≡ moving y }
{
    let mark = mark_moved(y);
    Facts {
        idle: false,
        register: None,
        slot: None,
        ranges: None,
        read: 0,
        stance: None,
        purpose: Purpose::Single,
        mark,
    }
}

// The mark as of which a value is read, if any.
fn mark_read(x: Purpose) -> Option<u16>
    ensures { result ≡ mark_read x }
{
    match x {
        Purpose::Single => None,
        Purpose::Marked(m) => Some(m),
        Purpose::Totaling {
            group: _,
            row: _,
            status: _,
            plus: _,
            minus: _,
        } => None,
    }
}

// The place of a read: its slot, if it has one, and where it stands.
fn reads(goal: Goal, slot: Option<u16>, stance: Option<Stand>) -> Facts
    ensures { result ≡ reading goal slot stance }
{
    let purpose = goal.purpose;
    let mark = mark_read(purpose);
    Facts {
        idle: false,
        register: Some(goal.register),
        slot,
        ranges: None,
        read: 0,
        stance,
        purpose,
        mark,
    }
}

// What is asked of a place: here it is taken apart.
pub fn about(d: Doing) -> Facts
    ensures { result ≡ about_of d }
{
    match d {
        Doing::Idle => names(true, None, None, None, 0),
        Doing::PutPublish {
            register,
            reading: _,
        } => names(false, Some(register), None, None, 0),
        Doing::PutStamp { register, covered } => {
            names(false, Some(register), Some(covered), None, 0)
        }
        Doing::PutHandIn { register, covered } => {
            names(false, Some(register), Some(covered), None, 0)
        }
        Doing::FlushTake => names(false, None, None, None, 0),
        Doing::FlushRead { merged, read } => names(false, None, None, Some(merged), read),
        Doing::FlushFree { left } => names(false, None, None, Some(left), 0),
        Doing::OnTime(y) => moves(y),
        Doing::ReadEnter { goal } => reads(goal, None, None),
        Doing::ReadStand { goal, slot } => reads(goal, Some(slot), Some(Stand { goal, slot })),
        Doing::GetShow { register } => names(false, Some(register), None, None, 0),
    }
}
