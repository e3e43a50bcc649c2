// What the table of rights permits (H15).
#![tactic(auto)]

ghost use Rattle.std.specs.Prelude.{◌≡◌, ◌≤◌, map, length};
ghost use Rattle.model.specs.Store.{up_from};
ghost use Rattle.model.specs.Totals.{register_of, of_group};
ghost use Rattle.model.specs.Rights.{any_of, among, may_on_each, allowed};
ghost use Rattle.rights.specs.Needs.{permission_of, needed_in};
ghost use Rattle.rights.specs.Places.{gives_in};

// H15.2: what a row may give the right to.
#[derive(Clone, Copy)]
pub enum Permission {
    Put,
    Read,
    Collect,
    Mark,
}

// H15.5: what an operation needs: nothing; a right on a register; the right to read each register of a group; a right in any row; a right on
// every register of the hub. Nothing is a case among the others, so that one match says what is needed.
#[derive(Clone, Copy)]
pub enum Needed {
    Nothing,
    On {
        permission: Permission,
        register: u16,
    },
    OnGroup(u16),
    InAny(Permission),
    OnAll(Permission),
}

// What a setup fixed, as far as records are decided by it: how many registers there are, the rows of totals, of which a hub has room for 1,024,
// and the rows of rights.
#[derive(Clone, Copy)]
pub struct Tables<'a> {
    pub v: usize,
    pub rows: &'a [u32],
    pub rights: &'a [u64],
    ghost few: { length rows.now ≤ 1024 },
}

// ---- a row

// Whether the right is one of those that were added together.
fn is_among(p: Permission, x: u64) -> bool
    ensures { result ≡ among (permission_of p) x }
{
    match p {
        Permission::Put => x % 2 == 1,
        Permission::Read => x / 2 % 2 == 1,
        Permission::Collect => x / 4 % 2 == 1,
        Permission::Mark => x / 8 % 2 == 1,
    }
}

// Whether the row gives worker w the right: for this register, or whatever its registers are.
fn gives(row: u64, w: u8, p: Permission, register: Option<u64>) -> bool
    ensures { result ≡ gives_in w (permission_of p) register row }
{
    let own = (row % 256 == u64::from(w)) & is_among(p, row / 256 % 256);
    match register {
        None => own,
        Some(r) => own & (row / 65536 % 65536 <= r) & (r <= row / 4294967296 % 65536),
    }
}

// ---- what is permitted

// H15.3: whether one of the rows gives worker w the right there.
fn may(rights: &[u64], w: u8, p: Permission, register: Option<u64>) -> bool
    ensures { result ≡ any_of (gives_in w (permission_of p) register) rights.now }
{
    rights.iter().any(|row| gives(*row, w, p, register))
}

// On every register below v.
fn may_on_all(rights: &[u64], w: u8, p: Permission, v: usize) -> bool
    ensures { result ≡ may_on_each rights.now w (permission_of p) (up_from 0 v) }
{
    for r in 0..v {
        if !may(rights, w, p, Some(r as u64)) {
            return false;
        }
    }
    true
}

// On each register of the group.
fn may_on_group<'a>(rights: &'a [u64], w: u8, p: Permission, rows: &'a [u32], group: u16) -> bool
    ensures { result
        ≡ may_on_each rights.now w (permission_of p) (map register_of (of_group group rows.now)) }
{
    for &row in rows {
        if total_row::group_of(row) == group {
            let register = u64::from(total_row::register_of(row));
            if !may(rights, w, p, Some(register)) {
                return false;
            }
        }
    }
    true
}

// H15.4, H15.5: whether worker w has what an operation needs. Without rows all is allowed.
pub fn is_allowed(need: Needed, tables: Tables, w: u8) -> bool
    ensures { result
        ≡ allowed tables.entry.rights.now tables.entry.v w (needed_in need tables.entry.rows.now) }
{
    let rights = tables.rights;
    if rights.is_empty() {
        return true;
    }
    match need {
        Needed::Nothing => true,
        Needed::On {
            permission,
            register,
        } => may(rights, w, permission, Some(u64::from(register))),
        Needed::OnGroup(group) => may_on_group(rights, w, Permission::Read, tables.rows, group),
        Needed::InAny(permission) => may(rights, w, permission, None),
        Needed::OnAll(permission) => may_on_all(rights, w, permission, tables.v),
    }
}
