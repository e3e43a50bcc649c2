// The rows of totals (H12.5, H12.7): the first of a group, and the next.
#![tactic(auto)]

ghost use Rattle.std.specs.Prelude.{◌≡◌, cond, ltb, length};
ghost use Rattle.model.specs.Totals.{first_of, row_at, goes_on};
ghost use Rattle.total_rows.specs.Rows.{goal_in};

use worker::{Goal, Purpose, Sum};

// Row i; 0 where there is none.
pub fn row_at(rows: &[u32], i: usize) -> u32
    ensures { result ≡ row_at rows.now i }
{
    if i < rows.len() {
        return rows[i];
    }
    0
}

// Where the first row of the group is, if it has one.
pub fn first_of(rows: &[u32], group: u16) -> Option<usize>
    ensures { result
        ≡ cond (ltb (first_of group rows.now) (length rows.now)) (Some (first_of group rows.now)) None }
{
    rows.iter()
        .position(|row| total_row::group_of(*row) == group)
}

// Whether the row behind row i is one of the group too.
pub fn goes_on(rows: &[u32], group: u16, i: u16) -> bool
    ensures { result ≡ goes_on rows.now group i }
{
    let next = usize::from(i) + 1;
    (next < rows.len()) & (total_row::group_of(row_at(rows, next)) == group)
}

// A total of the group at row i, with the sums of the rows of its group before it.
pub fn goal_at(rows: &[u32], group: u16, i: usize, sum: Sum) -> Goal
    ensures { result ≡ goal_in rows.now group i sum }
{
    let register = total_row::register_of(row_at(rows, i));
    let row = (i % 65536) as u16;
    Goal {
        register,
        purpose: Purpose::Totaling {
            group,
            row,
            status: sum.status,
            plus: sum.plus,
            minus: sum.minus,
        },
    }
}
