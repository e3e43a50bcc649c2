// The list of totals that comes with a setup (H12.1 to H12.3): whether it is accepted, and its rows as a hub keeps them.
#![tactic(auto)]

ghost use Rattle.std.specs.Prelude.{◌≡◌, ◌&&◌, ◌≤◌, ltb, leb, take};
ghost use Rattle.lists.specs.Over.{over};
ghost use Rattle.model.specs.Totals.{group_of, row_fits, before};
ghost use Rattle.model.specs.Record.{rows_of, list_fits};

// How many rows of its group stand before a row, where so many of the group stand last.
fn rows_before(group: u16, last: u16, row: u32) -> u16
    ensures { (result ≡ before group last row) × (result ≤ last) }
{
    if total_row::group_of(row) == group {
        return last;
    }
    0
}

// Whether the row may stand behind one of the group, in a list for v registers, where so many rows of its own group stand before it.
fn may_follow(v: u16, group: u16, stand: u16, row: u32) -> bool
    ensures { result ≡ row_fits v row && leb group (group_of row) && ltb stand 32 }
{
    let own = total_row::group_of(row);
    let fits = ((own <= 31) & (row / 256 % 256 <= 1)) & (total_row::register_of(row) < v);
    (fits & (group <= own)) & (stand < 32)
}

// H12.2: whether a setup with v registers accepts the list. 32 groups of 32 rows are 4,096 bytes: a longer list is not gone through.
pub fn list_ok(list: &[u8], v: u16) -> bool
    ensures { result ≡ list_fits v list.now }
{
    if 4096 < list.len() {
        return false;
    }
    if list.len() % 4 != 0 {
        return false;
    }
    let mut group: u16 = 0;
    let mut last: u16 = 0;
    // By index: `le` knows how the bytes of a number lie, from an index on.
    for i in 0..list.len() / 4 {
        let row = le::four(list, 4 * i);
        let stand = rows_before(group, last, row);
        if !may_follow(v, group, stand, row) {
            return false;
        }
        group = total_row::group_of(row);
        last = stand + 1;
    }
    true
}

// H12.3: the rows of the list, as many as an array has room for; the entries behind them keep their contents.
pub fn fill_rows(rows: &mut [u32; 1024], list: &[u8])
    ensures { rows.new ≡ over (take 1024 (rows_of list.now)) rows.old }
{
    // By index: row i is made of the bytes from 4 i on.
    for i in 0..rows.len().min(list.len() / 4) {
        rows[i] = le::four(list, 4 * i);
    }
}
