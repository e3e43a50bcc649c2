// The calls for records, on slots that are words: one record, or as many of a buffer as there is room for answers. Both go through the loop of
// `hub_core`.
#![tactic(auto)]

ghost use Rattle.model.specs.Rules.{of_totals};
ghost use Rattle.versions.specs.Versions.{row_of};
ghost use Rattle.simulation.specs.Lent.{lent_memory};
ghost use Rattle.records.specs.Records.{OneApplied, AllApplied};

use called::Called;
use state::{Hub, Lent};
use values::Answer;

// ---- one record

// Applies one record, of any bytes and any number of them, on any lent memory. What is given is for a setup; other records do not look at it.
pub fn apply_one(
    row: &mut [[u64; 6]],
    hub: Hub,
    given: &[u8],
    rec: &[u8],
    lent: &mut Lent,
) -> Called
    ensures { OneApplied
        (lent_memory hub (row_of row.old) lent.old)
        (of_totals given.now) rec.now result
        (lent_memory result.hub (row_of row.new) lent.new) }
{
    let mut kinds = [0u16; 1];
    let mut numbers = [0u64; 1];
    let done = hub_core::run(row, hub, given, rec, 1, &mut kinds, &mut numbers, lent);
    let left = done.hub;
    let answer = done.last;
    Called {
        hub: left,
        answer,
        count: 1,
    }
}

// ---- the records of a buffer

// Applies the records of the bytes, as many as there is room for answers: the kind and the number of answer k stand at k.
pub fn apply_all(
    row: &mut [[u64; 6]],
    hub: Hub,
    given: &[u8],
    bytes: &[u8],
    kinds: &mut [u16],
    numbers: &mut [u64],
    lent: &mut Lent,
) -> Called
    ensures { AllApplied
        (lent_memory hub (row_of row.old) lent.old)
        (of_totals given.now) bytes.now kinds.old numbers.old result
        (lent_memory result.hub (row_of row.new) lent.new)
        kinds.new numbers.new }
{
    let count = record_count::answerable(bytes.len(), kinds.len(), numbers.len());
    let done = hub_core::run(row, hub, given, bytes, count, kinds, numbers, lent);
    let left = done.hub;
    Called {
        hub: left,
        answer: Answer::Ok,
        count,
    }
}
