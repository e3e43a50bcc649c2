// The read-out row: H9 of docs/HUB.md.
#![tactic(auto)]

ghost use Rattle.std.specs.Prelude.{◌≡◌, length};
ghost use Rattle.model.specs.Row.{row_bytes, write_row};
ghost use Rattle.values.specs.Meaning.{content_of, reading_of};
ghost use Rattle.row.specs.Meaning.{row_answer_of};

use values::{Content, Reading, Refusal};

// What became of a row that is not refused.
#[derive(Clone, Copy, PartialEq, Eq, Debug)]
pub enum Outcome {
    Written,
    // There is no reading to write.
    NoReading,
}

// The sixteen bytes of a row: register, status, a zero byte, time, value.
fn row_bytes(register: u16, time: u32, reading: Reading) -> [u8; 16]
    ensures { result ≡ row_bytes register time (reading_of reading) }
{
    let mut row = [0; 16];
    row[..2].copy_from_slice(&register.to_le_bytes());
    row[2] = reading.status;
    row[4..8].copy_from_slice(&time.to_le_bytes());
    row[8..].copy_from_slice(&reading.count.to_le_bytes());
    row
}

// Fills the sixteen bytes of a row, which are lent on to it as a part of the buffer.
fn put_row(row: &mut [u8], register: u16, time: u32, reading: Reading)
    requires { length row.old ≡ 16 }
    ensures { row.new ≡ row_bytes register time (reading_of reading) }
{
    row.copy_from_slice(&row_bytes(register, time, reading));
}

// Writes the row of a register into the lent buffer. A refusal, or no reading, leaves the buffer untouched.
#[tactic(auto, using(crate::proofs::Row::row_back), unfolding(model::specs::Row::write_row))]
pub fn write_row(
    out: &mut [u8],
    register: u16,
    time: u32,
    content: Content,
) -> Result<Outcome, Refusal>
    ensures result_value { row_answer_of result ≡ (write_row register time (content_of content) out.old).answer }
    ensures out_after { out.new ≡ (write_row register time (content_of content) out.old).buffer }
{
    if register >= 256 {
        return Err(Refusal::OutOfRange);
    }
    let at = 16 * usize::from(register);
    let e = at + 16;
    if out.len() < e {
        return Err(Refusal::RowTooShort);
    }
    let Some(reading) = content else {
        return Ok(Outcome::NoReading);
    };
    if reading.status > 2 {
        return Err(Refusal::UnknownStatus);
    }
    put_row(&mut out[at..e], register, time, reading);
    Ok(Outcome::Written)
}
