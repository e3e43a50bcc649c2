// The table of rights that is given, and the rows of it that a hub keeps, of which the first n count (H15.8).
#![tactic(auto)]

ghost use Rattle.std.specs.Prelude.{◌≡◌, cond, ◌&&◌, leb, take};
ghost use Rattle.lists.specs.Over.{over};
ghost use Rattle.model.specs.Rights.{each_of, right_fits, table_of, table_fits};

// H15.8: whether the row is one that a table may have.
fn row_ok(row: u64) -> bool
    ensures { result ≡ right_fits row }
{
    let last = row / 4294967296 % 65536;
    ((row % 256 <= 15) & (row / 256 % 256 <= 15))
        & ((last <= 255) & (row / 65536 % 65536 <= last))
        & (row / 281474976710656 == 0)
}

// The rows of the bytes, as many as an array has room for; the entries behind them keep their contents.
fn fill_table(rights: &mut [u64; 64], table: &[u8])
    ensures { rights.new ≡ over (take 64 (table_of table.now)) rights.old }
{
    // By index: row i is made of the bytes from 8 i on.
    for i in 0..rights.len().min(table.len() / 8) {
        rights[i] = le::eight(table, 8 * i);
    }
}

// Whether the first n rows are a table: there are at most 64, and each is as it may be.
pub fn stands(rights: &[u64; 64], n: usize) -> bool
    ensures { result ≡ leb n 64 && each_of right_fits (take n rights.now) }
{
    if 64 < n {
        return false;
    }
    rights[..n].iter().all(|&row| row_ok(row))
}

// H15.8: takes the rows of a table of any bytes, and says so; where the table is not accepted, the rows that stood stay.
pub fn take_table(rights: &mut [u64; 64], table: &[u8]) -> bool
    ensures value { result ≡ table_fits table.now }
    ensures rights_after { rights.new
        ≡ cond (table_fits table.now) (over (table_of table.now) rights.old) rights.old }
{
    if 512 < table.len() {
        return false;
    }
    if table.len() % 8 != 0 {
        return false;
    }
    let mut rows = [0u64; 64];
    fill_table(&mut rows, table);
    if !stands(&rows, table.len() / 8) {
        return false;
    }
    fill_table(rights, table);
    true
}
