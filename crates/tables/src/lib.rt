// The call that gives a table, on slots that are words.
#![tactic(auto)]

ghost use Rattle.versions.specs.Versions.{row_of};
ghost use Rattle.simulation.specs.Lent.{lent_memory};
ghost use Rattle.tables.specs.Tables.{TableGiven};
ghost use Rattle.tables.specs.Taken.{RightsTaken};

use called::Called;
use state::{Hub, Lent};
use values::{Answer, Refusal};

// Which table is given.
#[derive(Clone, Copy)]
pub enum Table {
    // who may do what
    Rights,
}

// A table of rights, given to memory that does not count as set up.
fn give_rights(hub: Hub, bytes: &[u8]) -> Called
    ensures { RightsTaken hub bytes.now result }
{
    let mut rights = hub.site.rights;
    if rights_table::take_table(&mut rights, bytes) {
        let granted = bytes.len() / 8;
        let left = Hub::tabled(granted, rights);
        return Called {
            hub: left,
            answer: Answer::Ok,
            count: 0,
        };
    }
    Called {
        hub,
        answer: Answer::No(Refusal::TableNotAccepted.number()),
        count: 0,
    }
}

// Gives a table of any bytes, on any lent memory. H15.8: 9 where the memory counts as set up, then 24; a refusal changes nothing. Nothing but the
// hub by value is changed.
pub fn give<'a>(
    row: &'a [[u64; 6]],
    hub: Hub,
    table: Table,
    bytes: &'a [u8],
    lent: &'a Lent,
) -> Called
    ensures { TableGiven table
        (lent_memory hub (row_of row.now) lent.now)
        bytes.now result
        (lent_memory result.hub (row_of row.now) lent.now) }
{
    let linked = all_versions::all_linked(row, hub.site.n);
    if ready::ready(hub, lent, linked, row.len()) {
        return Called {
            hub,
            answer: Answer::No(Refusal::AlreadySetUp.number()),
            count: 0,
        };
    }
    match table {
        Table::Rights => give_rights(hub, bytes),
    }
}
