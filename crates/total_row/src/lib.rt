// A row of totals (H12.1): its group and its register.
#![tactic(auto)]

ghost use Rattle.std.specs.Prelude.{◌≡◌};
ghost use Rattle.model.specs.Totals.{group_of, register_of};

pub fn group_of(row: u32) -> u16
    ensures { result ≡ group_of row }
{
    (row % 256) as u16
}

pub fn register_of(row: u32) -> u16
    ensures { result ≡ register_of row }
{
    (row / 65536) as u16
}
