// Stored rows given EN 13757-3 digits, and given back their old form, within their buffer: H14 of docs/HUB.md.
#![tactic(auto)]

ghost use Rattle.std.specs.Prelude.{◌≡◌, ◌/◌, length};
ghost use Rattle.model.specs.Digits.{all_may_be, all_in_form, convert, to_new, to_old};
ghost use Rattle.row_form.specs.Meaning.{form_of};
ghost use Rattle.digits.specs.Meaning.{rows_answer_of};

use row_form::Form;
use values::Refusal;

// Whether each row may be given the form.
fn all_may_be(rows: &[u8], to: Form) -> bool
    ensures { result ≡ all_may_be (form_of to) (length rows.now / 16) rows.now }
{
    rows.chunks_exact(16).all(|row| row_form::may_be(row, to))
}

// Gives each row the form. By index, since the contract of `chunks_exact_mut` does not say what the buffer holds afterwards.
fn put_all_in_form(rows: &mut [u8], to: Form)
    ensures { rows.new ≡ all_in_form (form_of to) (length rows.old / 16) rows.old }
{
    for i in 0..rows.len() / 16 {
        row_form::put_in_form(&mut rows[16 * i..16 * i + 16], to);
    }
}

// Tests every row before it writes the first, so that a refusal leaves every byte as it was.
#[tactic(auto, unfolding(model::specs::Digits::convert))]
fn convert(rows: &mut [u8], to: Form) -> Result<(), Refusal>
    ensures result_value { rows_answer_of result ≡ (convert (form_of to) rows.old).answer }
    ensures rows_after { rows.new ≡ (convert (form_of to) rows.old).buffer }
{
    if rows.len() % 16 != 0 {
        return Err(Refusal::CutOff);
    }
    if !all_may_be(rows, to) {
        return Err(to.refusal());
    }
    put_all_in_form(rows, to);
    Ok(())
}

// Gives the rows of a buffer the new form, or refuses with 6 or 16 and leaves the buffer untouched.
pub fn to_new(rows: &mut [u8]) -> Result<(), Refusal>
    ensures result_value { rows_answer_of result ≡ (to_new rows.old).answer }
    ensures rows_after { rows.new ≡ (to_new rows.old).buffer }
{
    convert(rows, Form::New)
}

// Gives them the old form again, or refuses with 6 or 22 and leaves the buffer untouched.
pub fn to_old(rows: &mut [u8]) -> Result<(), Refusal>
    ensures result_value { rows_answer_of result ≡ (to_old rows.old).answer }
    ensures rows_after { rows.new ≡ (to_old rows.old).buffer }
{
    convert(rows, Form::Old)
}
