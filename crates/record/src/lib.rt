// The record decoder.
#![tactic(auto)]

ghost use Rattle.std.specs.Prelude.{◌≡◌, cond, ◌+◌, ◌≤◌, ltb, length, get_or};
ghost use Rattle.model.specs.Record.{number, zeros};
ghost use Rattle.model.specs.Record as Model;
ghost use Rattle.record.specs.Meaning.{operation_of, decoded_of};
ghost use Rattle.record.specs.Parts.{checked_of};

use values::{Reading, Refusal};

// An operation that a record begins, 1 to 6 and 8 to 11.
#[derive(Clone, Copy)]
pub enum Operation {
    Put { register: u16, reading: Reading },
    Open,
    Read { register: u16 },
    Close,
    Get { register: u16 },
    Collect,
    Total { group: u16 },
    Mark { mark: u16 },
    Release { mark: u16 },
    MarkedRead { register: u16, mark: u16 },
}

#[derive(Clone, Copy)]
pub enum Command {
    SetUp { p: u8, v: u16, n: u16, clock: u32 },
    Begin { worker: u8, operation: Operation },
    Step { worker: u8 },
}

// The numbers in one, two, four and eight bytes from place i on. They are read here and not by `le`, whose tests of the length shape the loop
// otherwise: a record would take ten instructions more.
fn one(b: &[u8], i: usize) -> u8
    requires { i + 1 ≤ length b.now }
    ensures { result ≡ number b.now i 1 }
{
    b[i]
}

fn two(b: &[u8], i: usize) -> u16
    requires { i + 2 ≤ length b.now }
    ensures { result ≡ number b.now i 2 }
{
    u16::from(one(b, i)) + 256 * u16::from(one(b, i + 1))
}

fn four(b: &[u8], i: usize) -> u32
    requires { i + 4 ≤ length b.now }
    ensures { result ≡ number b.now i 4 }
{
    u32::from(two(b, i)) + 65536 * u32::from(two(b, i + 2))
}

fn eight(b: &[u8], i: usize) -> u64
    requires { i + 8 ≤ length b.now }
    ensures { result ≡ number b.now i 8 }
{
    u64::from(four(b, i)) + 4294967296 * u64::from(four(b, i + 4))
}

// Whether the bytes 5 to 7 are zero, whether the bytes 5 to 15 are, whether the bytes 4 to 15 are, and whether the bytes 2 to 15 are: they
// are where their number is. As one function of the place from which on they are, over the bytes one by one, they got no proof.
fn none_5_to_7(b: &[u8]) -> bool
    requires { 16 ≤ length b.now }
    ensures { result ≡ zeros b.now 5 3 }
{
    (one(b, 5) == 0) & (two(b, 6) == 0)
}

fn none_from_5(b: &[u8]) -> bool
    requires { 16 ≤ length b.now }
    ensures { result ≡ zeros b.now 5 11 }
{
    none_5_to_7(b) & (eight(b, 8) == 0)
}

fn none_from_4(b: &[u8]) -> bool
    requires { 16 ≤ length b.now }
    ensures { result ≡ zeros b.now 4 12 }
{
    (four(b, 4) == 0) & (eight(b, 8) == 0)
}

fn none_from_2(b: &[u8]) -> bool
    requires { 16 ≤ length b.now }
    ensures { result ≡ zeros b.now 2 14 }
{
    (two(b, 2) == 0) & none_from_4(b)
}

// Operation 0.
fn set_up(rec: &[u8]) -> Result<Command, Refusal>
    requires { 16 ≤ length rec.now }
    ensures { decoded_of result ≡ checked_of rec.now 0 }
{
    if (two(rec, 6) == 0) & (four(rec, 12) == 0) {
        return Ok(Command::SetUp {
            p: one(rec, 1),
            v: two(rec, 2),
            n: two(rec, 4),
            clock: four(rec, 8),
        });
    }
    Err(Refusal::UnusedByte)
}

// The begin of an operation; `zero` says that the bytes which it does not use are zero.
fn begin(rec: &[u8], zero: bool, operation: Operation) -> Result<Command, Refusal>
    requires { 2 ≤ length rec.now }
    ensures { decoded_of result
        ≡ cond zero (Model.Asks (Model.Begin (number rec.now 1 1) (operation_of operation))) (Model.Refuses 2) }
{
    let worker = one(rec, 1);
    if zero {
        return Ok(Command::Begin { worker, operation });
    }
    Err(Refusal::UnusedByte)
}

// Operation 7.
#[tactic(auto, unfolding(model::specs::Record::command_of, model::specs::Record::unused_zero))]
fn step(rec: &[u8]) -> Result<Command, Refusal>
    requires { 16 ≤ length rec.now }
    ensures { decoded_of result ≡ checked_of rec.now 7 }
{
    let worker = one(rec, 1);
    if none_from_2(rec) {
        return Ok(Command::Step { worker });
    }
    Err(Refusal::UnusedByte)
}

// A record of sixteen bytes, by its byte 0.
#[tactic(auto, unfolding(model::specs::Record::command_of, model::specs::Record::unused_zero))]
fn asked(rec: &[u8]) -> Result<Command, Refusal>
    requires { 16 ≤ length rec.now }
    ensures { decoded_of result
        ≡ cond (ltb 11 (get_or rec.now 0 0))
        (Model.Refuses 1)
        (checked_of rec.now (get_or rec.now 0 0)) }
{
    let operation = rec[0];
    match operation {
        0 => set_up(rec),
        1 => {
            let register = two(rec, 2);
            let reading = Reading {
                count: eight(rec, 8),
                status: one(rec, 4),
            };
            begin(rec, none_5_to_7(rec), Operation::Put { register, reading })
        }
        2 => begin(rec, none_from_2(rec), Operation::Open),
        3 => {
            let register = two(rec, 2);
            begin(rec, none_from_4(rec), Operation::Read { register })
        }
        4 => begin(rec, none_from_2(rec), Operation::Close),
        5 => {
            let register = two(rec, 2);
            begin(rec, none_from_4(rec), Operation::Get { register })
        }
        6 => begin(rec, none_from_2(rec), Operation::Collect),
        7 => step(rec),
        8 => {
            let group = two(rec, 2);
            begin(rec, none_from_4(rec), Operation::Total { group })
        }
        9 => {
            let mark = two(rec, 2);
            begin(rec, none_from_4(rec), Operation::Mark { mark })
        }
        10 => {
            let mark = two(rec, 2);
            begin(rec, none_from_4(rec), Operation::Release { mark })
        }
        11 => {
            let register = two(rec, 2);
            let mark = u16::from(one(rec, 4));
            begin(
                rec,
                none_from_5(rec),
                Operation::MarkedRead { register, mark },
            )
        }
        _ => Err(Refusal::UnknownOperation),
    }
}

// The command of a record, any bytes, any length. Refusals: 6 fewer than 16 bytes, 1 operation above 11, 2 an unused byte is not zero,
// in this order. Bytes after the sixteenth are not looked at.
#[tactic(auto, unfolding(model::specs::Record::decode))]
pub fn decode(rec: &[u8]) -> Result<Command, Refusal>
    ensures { decoded_of result ≡ Model.decode rec.now }
{
    if rec.len() < 16 {
        return Err(Refusal::CutOff);
    }
    asked(rec)
}
