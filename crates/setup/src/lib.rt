// A setup that is accepted: the hub that it makes, and what it writes into lent memory.
#![tactic(auto)]

ghost use Rattle.std.specs.Prelude.{◌≡◌, cond, ◌&&◌, ◌-◌, leb, take};
ghost use Rattle.model.specs.Rights.{each_of, right_fits};
ghost use Rattle.slots.specs.Slots.{made_to};
ghost use Rattle.state.specs.State.{fresh_hub, site_made};
ghost use Rattle.arrays.specs.Arrays.{short, fill_to};
ghost use Rattle.versions.specs.Versions.{row_of};

use state::{Hub, Site};

// H15.9: how many rows of rights a setup keeps: those that count, where they are a table.
fn kept_rows(rights: &[u64; 64], granted: usize) -> usize
    ensures { result ≡ cond (leb granted 64 && each_of right_fits (take granted rights.now)) granted 0 }
{
    if rights_table::stands(rights, granted) {
        return granted;
    }
    0
}

// A setup that is accepted: the hub with the batch size for p workers, the rows of the list of totals and the table of rights that stands in the old
// one, its newest versions, free slots and slots. It is lent these two arrays alone, since it leaves the others as they are.
pub fn set_up(
    old: Hub,
    row: &mut [[u64; 6]],
    newest: &mut [u16; 256],
    free: &mut [u16; 2048],
    list: &[u8],
    p: u8,
    v: u16,
    n: u16,
    clock: u32,
) -> Hub
    ensures value { result ≡ fresh_hub (site_made old list.now p v n) clock }
    ensures row_after { row_of row.new ≡ made_to (row_of row.old) v n }
    ensures newest_after { newest.new ≡ fill_to newest.old short v }
    ensures free_after { free.new ≡ fill_to free.old (λ j. short (n - 1 - j)) result.free }
{
    let mut rows = [0u32; 1024];
    total_list::fill_rows(&mut rows, list);
    let listed = list.len() / 4;
    let last = old.site;
    let granted = kept_rows(&last.rights, last.granted);
    let rights = last.rights;
    let size = batch::batch(p);
    let site = Site {
        p: p as usize,
        v: v as usize,
        n: n as usize,
        batch: size,
        listed,
        rows,
        granted,
        rights,
    };
    let hub = Hub::fresh(site, clock);
    arrays::fill_newest(newest, v as usize);
    arrays::fill_free(free, n as usize, hub.free);
    all_versions::set_up(row, v as usize, n as usize);
    hub
}
