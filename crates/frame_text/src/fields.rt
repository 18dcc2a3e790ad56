// Fields: the parts of a line between its commas, with where they stand, and the names and numbers that they write.
ghost use Rattle.std.specs.Prelude.{◌≡◌, ◌≤◌, true, cond, length, Ok, Err, IfOk};
ghost use Rattle.std.specs.Char.{is_ascii_digit};
ghost use Rattle.frame_text.specs.Fields.{every, name_byte, is_name, padded, is_number, read_on, value_of};

use crate::faults::FieldFault;

pub const NAME_MOST: usize = 16;

pub const DIGITS_MOST: usize = 5;

// A field of a line: its bytes, its line's number in the file and its own in the line, both counted from 1.
#[derive(Clone, Copy)]
pub struct Field<'a> {
    pub bytes: &'a [u8],
    pub line: usize,
    pub number: u8,
}

fn is_name_byte(b: u8) -> bool
    ensures { result ≡ name_byte b }
{
    matches!(b, b'A'..=b'Z' | b'0'..=b'9' | b'-')
}

fn is_name(bytes: &[u8]) -> bool
    ensures { result ≡ is_name bytes.now }
{
    (1..=NAME_MOST).contains(&bytes.len()) && bytes.iter().all(|b| is_name_byte(*b))
}

fn is_padded(digits: &[u8]) -> bool
    ensures { result ≡ padded digits.now }
{
    matches!(digits, [b'0', _, ..])
}

fn is_numeral(bytes: &[u8]) -> bool
    ensures { result ≡ is_number bytes.now }
{
    (1..=DIGITS_MOST).contains(&bytes.len())
        && bytes.iter().all(u8::is_ascii_digit)
        && !is_padded(bytes)
}

// The number that a few digits write.
fn digits_value(digits: &[u8]) -> u32
    requires few { length digits.now ≤ 5 }
    requires digits { every is_ascii_digit digits.now ≡ true }
    ensures number { result ≡ read_on 0 digits.now }
    ensures bound { result ≤ 99999 }
{
    digits.iter().fold(0, |n, b| n * 10 + u32::from(*b - b'0'))
}

impl<'a> Field<'a> {
    // Each of the two checks has a test, an answer and a fault of its own: one for both would be no plainer.
    pub fn check_name(&self) -> Result<(), FieldFault>
        ensures { result ≡ cond (is_name self.now.bytes.now)
            (Ok tt) (Err (FieldFault.Name self.now.line self.now.number)) }
    {
        if !is_name(self.bytes) {
            return Err(FieldFault::Name {
                line: self.line,
                field: self.number,
            });
        }
        Ok(())
    }

    // The number that the field writes.
    pub fn check_number(&self) -> Result<u32, FieldFault>
        ensures number { result ≡ cond (is_number self.now.bytes.now)
            (Ok (value_of self.now.bytes.now))
            (Err (FieldFault.Number self.now.line self.now.number)) }
        ensures bound { IfOk result (λ n. n ≤ 99999) }
    {
        if !is_numeral(self.bytes) {
            return Err(FieldFault::Number {
                line: self.line,
                field: self.number,
            });
        }
        Ok(digits_value(self.bytes))
    }

    // The number that the field writes, or 0 if it writes none, which no number field of a record does. A record
    // borrows its fields from the file, the project's form for it, so that a number is read again where it is used.
    pub fn value(&self) -> u32
        ensures number { result ≡ value_of self.now.bytes.now }
        ensures bound { result ≤ 99999 }
    {
        self.check_number().unwrap_or(0)
    }
}
