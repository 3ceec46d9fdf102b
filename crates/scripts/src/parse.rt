// Reading a script.
ghost use Rattle.std.specs.Prelude.{◌≡◌, ◌≤◌, [], ◌∷◌, ◌++◌, IfOk, IfSome, MatchResult, OnOk};
ghost use Rattle.scripts.specs.declared.types.ScriptCall.{ScriptCall as ScriptCallT};
ghost use Rattle.scripts.specs.Scripts.{Whole};

use crate::lines::{call_of, numbers_of, words_of};
use crate::types::{FaultKind, Script, ScriptCall, ScriptFault};
use network::roster::check_roster;
use std::alloc::Global;
use std::str::from_utf8;
use stores::grid::MOST_ASES;

impl Script {
    // Begins with the words of the roster's line.
    fn begin(heap: Global, words: &[&str]) -> Result<Script, FaultKind>
        ensures { IfOk result Whole }
    {
        let ["roster", numbers @ ..] = words else {
            return Err(FaultKind::NoRoster);
        };
        let roster = numbers_of(heap, numbers)?;
        check_roster(&roster, MOST_ASES)?;
        Ok(Script {
            roster,
            calls: Vec::new(heap),
        })
    }

    // Adds the call of a line's words.
    fn add(&mut self, heap: Global, words: &[&str]) -> Result<(), FaultKind>
        ensures same { OnOk result (self.new.roster ≡ self.old.roster) }
        ensures adds { OnOk result ((x : ScriptCallT) × (self.new.calls.items ≡ self.old.calls.items ++ x ∷ [])) }
    {
        let call = call_of(words, self.roster.len())?;
        let words = words.join(heap, " ")?;
        self.calls.push(ScriptCall { call, words })?;
        Ok(())
    }
}

// Reads a line: the first one of words begins the script, and each further one adds a call.
fn read_line(heap: Global, script: &mut Option<Script>, line: &str) -> Result<(), FaultKind>
    requires { IfSome script.old Whole }
    ensures { OnOk result (IfSome script.new Whole) }
{
    if line.starts_with('#') {
        return Ok(());
    }
    let words = words_of(heap, line)?;
    if words.is_empty() {
        return Ok(());
    }
    match script {
        None => *script = Some(Script::begin(heap, &words)?),
        Some(script) => script.add(heap, &words)?,
    }
    Ok(())
}

// Reads a text line by line.
fn parse_text(heap: Global, text: &str) -> Result<Script, ScriptFault>
    ensures { MatchResult result Whole (λ fault. 1 ≤ fault.line) }
{
    let mut script = None;
    let mut lines = 0;
    for (above, line) in text.lines().enumerate() {
        read_line(heap, &mut script, line).map_err(|kind| kind.below(above))?;
        lines = above + 1;
    }
    script.ok_or_else(|| FaultKind::NoRoster.below(lines))
}

// How many lines end before a byte.
fn lines_above(bytes: &[u8], position: usize) -> usize {
    let before = bytes.iter().take(position);
    before.filter(|byte| **byte == b'\n').count()
}

// Reads a script whole; or the first thing that is wrong with it.
pub fn parse_script(heap: Global, bytes: &[u8]) -> Result<Script, ScriptFault>
    ensures { MatchResult result Whole (λ fault. 1 ≤ fault.line) }
{
    match from_utf8(bytes) {
        Ok(text) => parse_text(heap, text),
        Err(error) => Err(FaultKind::NotText.below(lines_above(bytes, error.valid_up_to()))),
    }
}
