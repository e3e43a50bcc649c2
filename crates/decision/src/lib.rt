// The decision on a record: which refusal it meets, or what is to be done.
#![tactic(auto)]

ghost use Rattle.std.specs.Prelude.{◌≡◌};
ghost use Rattle.values.specs.Refusals.{numbered};
ghost use Rattle.places.specs.About.{about_of};
ghost use Rattle.record.specs.Meaning.{decoded_of};
ghost use Rattle.gate.specs.Gate.{has_time};
ghost use Rattle.decision.specs.Decision.{sizes_ok, setup_ok, gate_of};

use gate::{Gate, Known};
use record::Command;
use values::Refusal;

// 5: a setup's sizes are in their ranges, and the row is long enough.
fn sizes_ok(p: u8, v: u16, n: u16, clock: u32, long: usize) -> bool
    ensures { result ≡ sizes_ok p v n clock long }
{
    (((1 <= p) & (p <= 16)) & ((1 <= v) & (v <= 256)))
        & (((v <= n) & (n <= 2048)) & ((1 <= clock) & (usize::from(n) <= long)))
}

// 5: and the list that comes with it is one that a setup accepts.
fn setup_ok(p: u8, v: u16, n: u16, clock: u32, long: usize, list: &[u8]) -> bool
    ensures { result ≡ setup_ok p v n clock long list.now }
{
    sizes_ok(p, v, n, clock, long) & total_list::list_ok(list, v)
}

// What is to be done with a record that was read as r, where `up` says that the memory counts as set up, of p workers; a setup comes with the
// list, and the row has `long` slots.
#[tactic(auto, unfolding(crate::specs::Decision::gate_of))]
pub fn gate_for(
    r: Result<Command, Refusal>,
    up: bool,
    p: usize,
    long: usize,
    list: &[u8],
    known: Known,
) -> Result<Gate, Refusal>
    ensures { numbered result
        ≡ gate_of (decoded_of r) up p known.entry.tables.v long (about_of known.entry.doing).idle
        (has_time known.entry.announced) list.now known.entry.tables.rows.now
        known.entry.marks.now
        known.entry.reading.now
        known.entry.tables.rights.now }
{
    match r? {
        Command::SetUp { p, v, n, clock } => {
            if up {
                return Err(Refusal::AlreadySetUp);
            }
            if !setup_ok(p, v, n, clock, long, list) {
                return Err(Refusal::SetupNotAccepted);
            }
            Ok(Gate::Make { p, v, n, clock })
        }
        Command::Begin { worker, operation } => {
            if !up {
                return Err(Refusal::NotSetUp);
            }
            gate::begin(known, p, worker, operation)
        }
        Command::Step { worker } => {
            if !up {
                return Err(Refusal::NotSetUp);
            }
            if p <= usize::from(worker) {
                return Err(Refusal::UnknownWorker);
            }
            Ok(Gate::Go { worker })
        }
    }
}
