// The batch size.
#![tactic(auto)]

ghost use Rattle.std.specs.Prelude.{◌≡◌};
ghost use Rattle.model.specs.Batch.{batch_of};

// H1.24: B for p workers, one line for each number that a hub may have.
#[tactic(auto, unfolding(model::specs::Batch::batch_of))]
pub fn batch(p: u8) -> u8
    ensures { result ≡ batch_of p }
{
    match p {
        1 => 1,
        2 => 2,
        3 => 6,
        4 => 8,
        5 => 15,
        6 => 18,
        7 => 21,
        8 => 24,
        9 => 36,
        10 => 40,
        11 => 44,
        12 => 48,
        13 => 52,
        14 => 56,
        15 => 60,
        16 => 64,
        _ => 1,
    }
}
