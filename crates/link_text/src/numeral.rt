// A decimal numeral, read byte by byte from the left.
ghost use Rattle.std.specs.Prelude.{◌≡◌, ◌+◌, ◌*◌, ◌<◌};
ghost use Rattle.link_text.specs.Answers.{field_answer};
ghost use Rattle.link_text.specs.Steps.{sized, next, kept_answer};

use crate::types::{Field, TextFault};

// What the bytes so far say: four states side by side, which an Option in a Result would hide.
#[derive(Clone, Copy)]
enum Numeral {
    // Nothing but spaces.
    Blank,
    // A number, which is 0 only where 0 is its one digit.
    Number(u32),
    // A number above the largest that a field may hold.
    TooGreat,
    // No numeral.
    Broken,
}

// The number `number` with the digit `digit` behind it.
fn extended(number: u32, digit: u32) -> Numeral
    ensures { result ≡ sized (10 * number + digit) }
{
    number
        .checked_mul(10)
        .and_then(|tens| tens.checked_add(digit))
        .map_or(Numeral::TooGreat, Numeral::Number)
}

// One byte more.
fn step(numeral: Numeral, byte: u8) -> Numeral
    ensures { result ≡ next numeral byte }
{
    match (numeral, byte) {
        (Numeral::Blank, b' ') => Numeral::Blank,
        (Numeral::Blank, b'0'..=b'9') => Numeral::Number(u32::from(byte - b'0')),
        (Numeral::Number(number), b'0'..=b'9') if number != 0 => {
            extended(number, u32::from(byte - b'0'))
        }
        (Numeral::TooGreat, b'0'..=b'9') => Numeral::TooGreat,
        _ => Numeral::Broken,
    }
}

// What a field answers whose bytes were read to the end.
fn judged(numeral: Numeral, field: Field) -> Result<u32, TextFault>
    ensures { result ≡ kept_answer field numeral }
{
    match numeral {
        Numeral::Blank | Numeral::Broken => Err(TextFault::BadField(field)),
        Numeral::TooGreat => Err(TextFault::BadNumber(field)),
        Numeral::Number(0) if field.names_as() => Err(TextFault::BadNumber(field)),
        Numeral::Number(number) => Ok(number),
    }
}

// The number that the bytes of a field say; a rule of the project has them read one by one.
pub(crate) fn number_in(bytes: &[u8], field: Field) -> Result<u32, TextFault>
    ensures { result ≡ field_answer field bytes.now }
{
    let mut numeral = Numeral::Blank;
    for byte in bytes {
        numeral = step(numeral, *byte);
    }
    judged(numeral, field)
}
