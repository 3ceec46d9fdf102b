// Lines of a script: the roster and the calls.
ghost use Rattle.std.specs.Prelude.{◌≤◌};

use crate::types::FaultKind;
use crate::words::{number, size};
use legality::types::Class;
use network::types::Figures;
use runs::types::{Call, Edit, ReadCall};
use std::alloc::{AllocError, Global};
use std::array::try_from_fn;

// The words of a line.
pub fn words_of<'a>(heap: Global, line: &'a str) -> Result<Vec<&'a str>, AllocError> {
    line.split(' ')
        .filter(|word| !word.is_empty())
        .collect(heap)
}

// The numbers of a list of words.
pub fn numbers_of(heap: Global, words: &[&str]) -> Result<Vec<u32>, FaultKind> {
    words.iter().map(|word| number(*word)).try_collect(heap)
}

// What is wrong where so many words were wanted.
fn miscount(words: &[&str], wanted: usize) -> FaultKind {
    if words.len() < wanted {
        FaultKind::MissingWord
    } else {
        FaultKind::ExtraWord
    }
}

// The numbers of so many words.
fn numbers<const N: usize>(words: &[&str]) -> Result<[u32; N], FaultKind> {
    if words.len() != N {
        return Err(miscount(words, N));
    }
    try_from_fn(|i| number(words[i]))
}

fn link_of(words: &[&str]) -> Result<Edit, FaultKind> {
    let [first, second, relation, delay, width] = numbers::<5>(words)?;
    Ok(Edit::Link {
        first,
        second,
        relation,
        figures: Figures { delay, width },
    })
}

fn recost_of(words: &[&str]) -> Result<Edit, FaultKind> {
    let [first, second, delay, width] = numbers::<4>(words)?;
    Ok(Edit::Recost {
        first,
        second,
        figures: Figures { delay, width },
    })
}

fn unlink_of(words: &[&str]) -> Result<Edit, FaultKind> {
    let [first, second] = numbers::<2>(words)?;
    Ok(Edit::Unlink { first, second })
}

// The numbers of N words and the sizes of M further ones, which may all be left out: each of them is `usual` then.
fn sized<const N: usize, const M: usize>(
    words: &[&str],
    usual: usize,
) -> Result<([u32; N], [usize; M]), FaultKind>
    requires { M ≤ 2 }
{
    let (front, sizes) = words.split_at(N.min(words.len()));
    if sizes.is_empty() {
        return Ok((numbers(front)?, [usual; M]));
    }
    if sizes.len() != M {
        return Err(miscount(sizes, M));
    }
    Ok((numbers(front)?, try_from_fn(|i| size(sizes[i]))?))
}

// A settle; the work memory is as large as `count` ASes need where its sizes are left out.
fn settle_of(words: &[&str], count: usize) -> Result<ReadCall, FaultKind> {
    let ([destination], [waiting, numbers]) = sized::<1, 2>(words, count.saturating_mul(2))?;
    Ok(ReadCall::Settle {
        destination,
        waiting,
        numbers,
    })
}

fn hop_of(words: &[&str]) -> Result<ReadCall, FaultKind> {
    let [source, class, destination] = words else {
        return Err(miscount(words, 3));
    };
    Ok(ReadCall::Hop {
        source: number(*source)?,
        class: class.parse::<Class>()?,
        destination: number(*destination)?,
    })
}

// A send; the list has room for `count` ASes where its room is left out.
fn send_of(words: &[&str], count: usize) -> Result<ReadCall, FaultKind> {
    let ([source, destination], [room]) = sized::<2, 1>(words, count)?;
    Ok(ReadCall::Send {
        source,
        destination,
        room,
    })
}

// The call that the first word names, with the other words, on a board of `count` ASes.
// A match over the first word, since each call has words of its own.
pub fn call_of(words: &[&str], count: usize) -> Result<Call, FaultKind> {
    match words {
        ["link", words @ ..] => Ok(Call::Edit(link_of(words)?)),
        ["recost", words @ ..] => Ok(Call::Edit(recost_of(words)?)),
        ["unlink", words @ ..] => Ok(Call::Edit(unlink_of(words)?)),
        ["settle", words @ ..] => Ok(Call::Read(settle_of(words, count)?)),
        ["hop", words @ ..] => Ok(Call::Read(hop_of(words)?)),
        ["send", words @ ..] => Ok(Call::Read(send_of(words, count)?)),
        _ => Err(FaultKind::UnknownWord),
    }
}
