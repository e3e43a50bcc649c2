// Answers as two numbers each, for buffers of answers: the kind, to which 256 times the status is added, and the number.
#![tactic(auto)]

ghost use Rattle.std.specs.Prelude.{◌≡◌, ◌+◌, ◌*◌, ◌≤◌};
ghost use Rattle.answers.specs.Numbers.{kind_of, number_of, answer_with, answer_from};
ghost use Rattle.answers.specs.Said.{said_of};

use values::{Answer, Reading};

// A kind with a status.
fn with_status(kind: u16, x: Reading) -> u16
    requires { kind ≤ 255 }
    ensures { result ≡ kind + 256 * x.status }
{
    kind + 256 * u16::from(x.status)
}

pub fn kind(a: Answer) -> u16
    ensures { result ≡ kind_of a }
{
    match a {
        Answer::Ok => 0,
        Answer::Going => 1,
        Answer::Freed(_) => 2,
        Answer::At(_) => 3,
        Answer::Value(reading) => with_status(4, reading),
        Answer::None => 8,
        Answer::Below(reading) => with_status(7, reading),
        Answer::Done => 5,
        Answer::No(_) => 6,
    }
}

pub fn number(a: Answer) -> u64
    ensures { result ≡ number_of a }
{
    match a {
        Answer::Ok => 0,
        Answer::Going => 0,
        Answer::Freed(slot) => u64::from(slot),
        Answer::At(time) => u64::from(time),
        Answer::Value(reading) => reading.count,
        Answer::None => 0,
        Answer::Below(reading) => reading.count,
        Answer::Done => 0,
        Answer::No(refusal) => u64::from(refusal),
    }
}

// An answer with its two numbers.
#[derive(Clone, Copy)]
pub struct Said {
    pub answer: Answer,
    pub kind: u16,
    pub number: u64,
}

pub fn say(a: Answer) -> Said
    ensures { result ≡ said_of a }
{
    let kind = kind(a);
    let number = number(a);
    Said {
        answer: a,
        kind,
        number,
    }
}

// The answer of a kind without a status, of a status and a number.
fn answer_with(kind: u16, status: u8, number: u64) -> Answer
    ensures { result ≡ answer_with kind status number }
{
    match kind {
        0 => Answer::Ok,
        1 => Answer::Going,
        2 => Answer::Freed((number % 65536) as u16),
        3 => Answer::At((number % 4294967296) as u32),
        4 => Answer::Value(Reading {
            count: number,
            status,
        }),
        5 => Answer::Done,
        7 => Answer::Below(Reading {
            count: number,
            status,
        }),
        8 => Answer::None,
        _ => Answer::No((number % 256) as u8),
    }
}

pub fn answer(kind: u16, number: u64) -> Answer
    ensures { result ≡ answer_from kind number }
{
    answer_with(kind % 256, (kind / 256) as u8, number)
}
