// Runs a script of calls: the script on standard input, each call with its answer on standard output.
#![tactic(auto)]

use anyhow::anyhow;
use scripts::answers::page_of;
use scripts::parse::parse_script;
use scripts::run::run_script;
use std::io;
use std::io::Read;
use std::process::ExitCode;

// Reads a script, runs it, and prints its page.
fn replay_input(rt: &HostRuntime) -> anyhow::Result<()> {
    let mut bytes = Vec::new(rt.alloc());
    rt.stdin().read_to_end(&mut bytes)?;
    let script = parse_script(rt.alloc(), &bytes)?;
    let Ok(replies) = run_script(rt.alloc(), &script) else {
        return Err(anyhow!("there is no memory for the run"));
    };
    let page = page_of(rt.alloc(), &script.calls, &replies)?;
    print!(rt; "{page}")?;
    Ok(())
}

fn main(rt: HostRuntime) -> io::Result<ExitCode> {
    if let Err(error) = replay_input(&rt) {
        eprintln!(rt; "{error}")?;
        return Ok(ExitCode::FAILURE);
    }
    Ok(ExitCode::SUCCESS)
}
