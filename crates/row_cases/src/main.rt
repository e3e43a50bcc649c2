// The cases of the read-out row in H11 of docs/HUB.md, and their neighbours: for each the number of the refusal, 0 where the row is
// written and 255 where there is no reading, and then every byte of the lent buffer, as bytes on standard output.
#![tactic(auto)]

use row::Outcome;
use values::{Content, Reading, Refusal};

fn number_of(answer: Result<Outcome, Refusal>) -> u8 {
    match answer {
        Ok(Outcome::Written) => 0,
        Ok(Outcome::NoReading) => 255,
        Err(refusal) => refusal.number(),
    }
}

// Hands what a version holds to the row writer, and shows the outcome on standard output.
fn outcome(rt: &impl Print, out: &mut [u8], register: u16, content: Content) {
    let answer = row::write_row(out, register, 16909060, content);
    let _ = rt.write_all(&[number_of(answer)]);
    let _ = rt.write_all(out);
}

// With a reading of this status.
fn show_as(rt: &impl Print, out: &mut [u8], register: u16, status: u8) {
    let reading = Reading {
        count: 72623859790382856,
        status,
    };
    outcome(rt, out, register, Some(reading));
}

// With a reading that was read.
fn show(rt: &impl Print, out: &mut [u8], register: u16) {
    show_as(rt, out, register, 0);
}

// Without one.
fn show_none(rt: &impl Print, out: &mut [u8], register: u16) {
    outcome(rt, out, register, None);
}

fn main(rt: HostRuntime) {
    show(&rt, &mut [9; 15], 0);
    show(&rt, &mut [9; 16], 0);
    show(&rt, &mut [9; 31], 1);
    show(&rt, &mut [9; 32], 1);
    show(&rt, &mut [9; 32], 256);
    show_none(&rt, &mut [9; 15], 0);
    show_none(&rt, &mut [9; 16], 0);
    show_none(&rt, &mut [9; 32], 256);
    show_as(&rt, &mut [9; 16], 0, 1);
    show_as(&rt, &mut [9; 16], 0, 2);
    show_as(&rt, &mut [9; 16], 0, 3);
    show_as(&rt, &mut [9; 15], 0, 3);
    show_as(&rt, &mut [9; 16], 256, 3);
    show_as(&rt, &mut [9; 32], 1, 2);
}
