// Open and close: the steps that move a worker's announced time and no version; and what any step leaves.
#![tactic(auto)]

ghost use Rattle.std.specs.Prelude.{◌≡◌, cond, ◌+◌, eqb, ltb};
ghost use Rattle.model.specs.Store.{last_clock};
ghost use Rattle.announcing.specs.Announcing.{outcome_of, open_announce_step, open_pass_step, close_withdraw_step};

use values::{Answer, Refusal};
use worker::{Announced, Doing, TimeStep};

// What a step leaves: the worker's place and announced time, the clock, how many slots are free; and its answer.
#[derive(Clone, Copy)]
pub struct Outcome {
    pub doing: Doing,
    pub announced: Announced,
    pub clock: u32,
    pub free: usize,
    pub answer: Answer,
}

// An outcome by its parts.
pub fn outcome_of(
    doing: Doing,
    announced: Announced,
    clock: u32,
    free: usize,
    answer: Answer,
) -> Outcome
    ensures { result ≡ outcome_of doing announced clock free answer }
{
    Outcome {
        doing,
        announced,
        clock,
        free,
        answer,
    }
}

// Open (1).
#[tactic(auto, unfolding(crate::specs::Announcing::open_announce_step))]
pub fn open_announce(t: Announced, clock: u32, n: usize) -> Outcome
    ensures { result ≡ open_announce_step t clock n }
{
    if clock == 4294967295 {
        return outcome_of(
            Doing::Idle,
            t,
            clock,
            n,
            Answer::No(Refusal::ClockAtEnd.number()),
        );
    }
    outcome_of(
        Doing::OnTime(TimeStep::OpenPass),
        Some(clock),
        clock,
        n,
        Answer::Going,
    )
}

// The clock after open (2) of the announced time a.
fn passed(a: u32, clock: u32) -> u32
    ensures { result ≡ cond (eqb clock a) (cond (ltb clock last_clock) (clock + 1) clock) clock }
{
    if clock == a {
        return clock.saturating_add(1);
    }
    clock
}

// Open (2).
#[tactic(auto, unfolding(crate::specs::Announcing::open_pass_step))]
pub fn open_pass(t: Announced, clock: u32, n: usize) -> Outcome
    ensures { result ≡ open_pass_step t clock n }
{
    match t {
        None => outcome_of(Doing::Idle, t, clock, n, Answer::Going),
        Some(a) => outcome_of(Doing::Idle, t, passed(a, clock), n, Answer::At(a)),
    }
}

// Close.
#[tactic(auto, unfolding(crate::specs::Announcing::close_withdraw_step))]
pub fn close_withdraw(clock: u32, n: usize) -> Outcome
    ensures { result ≡ close_withdraw_step clock n }
{
    outcome_of(Doing::Idle, None, clock, n, Answer::Done)
}
