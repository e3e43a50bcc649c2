// One row given EN 13757-3 digits, and given back its old form: H14 of docs/HUB.md.
#![tactic(auto)]

ghost use Rattle.std.specs.Prelude.{◌≡◌, cond, ◌&&◌, ◌<◌, eqb, length};
ghost use Rattle.model.specs.Digits.{refusal_for, bcd_of, of_bcd_byte, bcd_number, is_bcd_byte, is_bcd, may_be, in_form};
ghost use Rattle.values.specs.Meaning.{refusal_number};
ghost use Rattle.row_form.specs.Meaning.{form_of};

use values::Refusal;

// H14.3: twelve digits in BCD.
const DIF: u8 = 0x0E;

// H14.3: watt-hours.
const VIF: u8 = 0x03;

// H7.9: the largest number of twelve digits.
const TWELVE_DIGITS: u64 = 999_999_999_999;

// The form that rows are given.
#[derive(Clone, Copy)]
pub enum Form {
    Old,
    New,
}

impl Form {
    // H14.6, H14.7: why rows are not given the form.
    pub fn refusal(self) -> Refusal
        ensures { refusal_number result ≡ refusal_for (form_of self) }
    {
        match self {
            Form::Old => Refusal::NotDigits,
            Form::New => Refusal::ValueTooLarge,
        }
    }
}

// The number of a byte's two digits; whether both are at most nine.
fn of_bcd_byte(b: u8) -> u8
    ensures { (result ≡ of_bcd_byte b) × (result < 166) }
{
    10 * (b / 16) + b % 16
}

fn is_bcd_byte(b: u8) -> bool
    ensures { result ≡ is_bcd_byte b }
{
    b / 16 <= 9 && b % 16 <= 9
}

// The value of a row in the new form: the last six bytes, the most significant first; and whether they hold digits.
fn bcd_number(row: &[u8]) -> u64
    requires { length row.now ≡ 16 }
    ensures { result ≡ bcd_number row.now 10 6 }
{
    let mut x = 0;
    // By index: from the last byte to the first one that holds digits.
    for i in (10..16).rev() {
        x = 100 * x + u64::from(of_bcd_byte(row[i]));
    }
    x
}

fn is_bcd(row: &[u8]) -> bool
    requires { length row.now ≡ 16 }
    ensures { result ≡ is_bcd row.now 10 6 }
{
    row[10..].iter().all(|b| is_bcd_byte(*b))
}

// The six bytes of a number in digits.
fn bcd_of(x: u64) -> [u8; 6]
    ensures { result ≡ bcd_of 6 x }
{
    let mut bytes = [0; 6];
    let mut rest = x;
    for byte in &mut bytes {
        let two = (rest % 100) as u8;
        *byte = 16 * (two / 10) + two % 10;
        rest /= 100;
    }
    bytes
}

// Whether a row has sixteen bytes and may be given the form.
#[tactic(auto, unfolding(model::specs::Digits::may_be))]
pub fn may_be(row: &[u8], to: Form) -> bool
    ensures { result ≡ eqb (length row.now) 16 && may_be (form_of to) row.now }
{
    if row.len() != 16 {
        return false;
    }
    match to {
        Form::New => le::eight(row, 8) <= TWELVE_DIGITS,
        Form::Old => row[8] == DIF && row[9] == VIF && is_bcd(row),
    }
}

// Gives a row of sixteen bytes the form; its first eight bytes stay. Other bytes keep their contents.
pub fn put_in_form(row: &mut [u8], to: Form)
    ensures { row.new ≡ cond (eqb (length row.old) 16) (in_form (form_of to) row.old) row.old }
{
    if row.len() != 16 {
        return;
    }
    match to {
        Form::New => {
            let x = le::eight(row, 8);
            row[8] = DIF;
            row[9] = VIF;
            row[10..].copy_from_slice(&bcd_of(x));
        }
        Form::Old => {
            let x = bcd_number(row);
            row[8..].copy_from_slice(&x.to_le_bytes());
        }
    }
}
