// A file of cases for a program: each is a heading, `@ LENGTH NAME`, then LENGTH bytes and a line feed.
#![tactic(auto)]

ghost use Rattle.std.specs.Prelude.{◌≡◌, ◌+◌, ◌-◌, ◌<◌, [], length, drop, MatchOption};
ghost use Rattle.std.specs.Iterator.{at_most};

use std::io;
use std::io::{Read, Write};

// One case of the file.
#[derive(Drop)]
pub struct Case<'a> {
    pub name: &'a [u8],
    pub text: &'a [u8],
}

impl Case<'_> {
    // Prints the heading of what a program says of the case: its name.
    pub fn print_heading(&self, rt: &HostRuntime) -> io::Result<()> {
        let mut out = rt.stdout();
        out.write_all(b"@ ")?;
        out.write_all(self.name)?;
        out.write_all(b"\n")
    }
}

// A file by what is still to be read of it.
#[derive(Drop)]
pub struct CaseFile<'a> {
    rest: &'a [u8],
}

// What stands before the first such byte, and what stands behind it; all and nothing where there is none.
fn parted(bytes: &[u8], sought: u8) -> (&[u8], &[u8])
    ensures { result.1.now ≡ drop (length result.0.now + 1) bytes.now }
{
    match bytes.iter().position(|byte| *byte == sought) {
        Some(spot) => (&bytes[..spot], &bytes[spot + 1..]),
        None => (bytes, &[]),
    }
}

// The number that the digits in front say.
fn number_in(bytes: &[u8]) -> usize {
    bytes
        .iter()
        .map_while(|byte| (*byte as char).to_digit(10))
        .fold(
            0usize,
            |number, digit| number.saturating_mul(10).saturating_add(digit as usize),
        )
}

impl<'a> CaseFile<'a> {
    // A file whose first case is still to be read.
    pub fn new(bytes: &'a [u8]) -> CaseFile<'a>
        ensures { result.rest.now ≡ bytes.now }
    {
        CaseFile { rest: bytes }
    }
}

// The cases in order: with each the file is read further.
impl<'a> Iterator for CaseFile<'a> {
    type Item = Case<'a>;

    ghost next_gives = { λ old case new. MatchOption case ((old.rest.now ≡ []) × (new.rest.now ≡ [])) (λ _. (length new.rest.now < length old.rest.now) × (new.rest.now ≡ drop (length old.rest.now - length new.rest.now) old.rest.now)) };

    ghost remaining = { λ file. at_most (length file.rest.now) };

    fn next(&mut self) -> Option<Case<'a>> {
        if self.rest.is_empty() {
            return None;
        }
        let (heading, body) = parted(self.rest, b'\n');
        let words = heading.get(2..).unwrap_or(&[]);
        let (digits, name) = parted(words, b' ');
        let (text, rest) = body.split_at(number_in(digits).min(body.len()));
        self.rest = &rest[rest.len().min(1)..];
        Some(Case { name, text })
    }
}

// The whole of standard input.
pub fn read_input(rt: &HostRuntime) -> io::Result<Vec<u8>> {
    let mut bytes = Vec::new(rt.alloc());
    rt.stdin().read_to_end(&mut bytes)?;
    Ok(bytes)
}
