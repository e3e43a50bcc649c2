// The values that the crates hand to each other.
#![tactic(auto)]

ghost use Rattle.std.specs.Prelude.{◌≡◌};
ghost use Rattle.values.specs.Meaning.{refusal_number};

// A reading: a count of watt-hours and its status, 0 read, 1 estimated, 2 corrected.
#[derive(Clone, Copy)]
pub struct Reading {
    pub count: u64,
    pub status: u8,
}

// What a version holds: no reading, where it is from setup, or the one that a put brought.
pub type Content = Option<Reading>;

// Why a record, a table or a row is refused (H7, H9, H14 to H16). Logs and documents call each by its number.
#[derive(Clone, Copy, PartialEq, Eq, Debug)]
pub enum Refusal {
    UnknownOperation = 1,
    UnusedByte = 2,
    UnknownWorker = 3,
    // a register or a mark that there is none of
    OutOfRange = 4,
    SetupNotAccepted = 5,
    CutOff = 6,
    RowTooShort = 7,
    NotSetUp = 8,
    AlreadySetUp = 9,
    Busy = 10,
    Idle = 11,
    SnapshotOpen = 12,
    NoSnapshot = 13,
    NoFreeSlot = 14,
    ClockAtEnd = 15,
    ValueTooLarge = 16,
    UnknownGroup = 17,
    // a total that meets a value of more than twelve digits
    TotalTooLarge = 18,
    MarkInUse = 19,
    MarkEmpty = 20,
    MarkBeingRead = 21,
    NotDigits = 22,
    NotAllowed = 23,
    TableNotAccepted = 24,
    UnknownStatus = 25,
}

impl Refusal {
    // The number by which logs and documents call it.
    pub fn number(self) -> u8
        ensures { result ≡ refusal_number self }
    {
        self as u8
    }
}

// What the hub answers to a record.
#[derive(Clone, Copy)]
pub enum Answer {
    Ok,
    Going,
    Freed(u16),
    At(u32),
    Value(Reading),
    // there is no reading
    None,
    // a total below zero, by so much
    Below(Reading),
    Done,
    // the number of a refusal: a byte and no `Refusal`, since `answers::answer` makes an answer of any number
    No(u8),
}

// Where the queue lies in its memory: from length `first` on the lengths of so many pools, from range `from` on their ranges, so many
// together.
#[derive(Clone, Copy)]
pub struct Window {
    pub first: usize,
    pub pools: usize,
    pub from: usize,
    pub queued: usize,
}
