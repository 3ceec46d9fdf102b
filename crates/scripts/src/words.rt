// Single words of a script.
ghost use Rattle.std.specs.Prelude.{◌≤◌, IfOk};

use crate::types::FaultKind;

// The largest size of memory that a call may bring.
const MOST_SIZE: u32 = 1_000_000;

// A decimal number without a sign.
pub fn number(word: &str) -> Result<u32, FaultKind> {
    if word.starts_with('+') {
        return Err(FaultKind::NotANumber);
    }
    Ok(word.parse::<u32>()?)
}

// A size of memory.
pub fn size(word: &str) -> Result<usize, FaultKind>
    ensures { IfOk result (λ n. n ≤ 1000000) }
{
    match number(word) {
        Ok(count) if count <= MOST_SIZE => Ok(count as usize),
        Ok(_) | Err(FaultKind::NumberTooLarge) => Err(FaultKind::SizeTooLarge),
        Err(kind) => Err(kind),
    }
}
