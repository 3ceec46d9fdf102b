// Scripts that are refused; a line for each, in two tests, so that a failure names its kind.
use crate::parse::parse_script;
use crate::types::*;

fn fault_in(rt: &HostRuntime, script: &[u8]) -> Option<ScriptFault> {
    parse_script(rt.alloc(), script).err()
}

fn at(line: usize, kind: FaultKind) -> Option<ScriptFault> {
    Some(ScriptFault { line, kind })
}

#[test]
fn rosters(rt: HostRuntime) {
    assert_eq!(rt; fault_in(&rt, b"# none\n"), at(2, FaultKind::NoRoster));
    assert_eq!(rt;
        fault_in(&rt, b"\nunlink 1 2\n"),
        at(2, FaultKind::NoRoster)
    );
    assert_eq!(rt; fault_in(&rt, b"roster 2 1\n"), at(1, FaultKind::BadRoster));
    assert_eq!(rt; fault_in(&rt, b"roster 1\n\xff"), at(2, FaultKind::NotText));
}

#[test]
fn calls(rt: HostRuntime) {
    assert_eq!(rt; fault_in(&rt, b"roster 1\nhop 1 home 1\n"), None);
    assert_eq!(rt;
        fault_in(&rt, b"roster 1\nfly 1\n"),
        at(2, FaultKind::UnknownWord)
    );
    assert_eq!(rt;
        fault_in(&rt, b"roster 1\nhop 1 home\n"),
        at(2, FaultKind::MissingWord)
    );
    assert_eq!(rt;
        fault_in(&rt, b"roster 1\nsend 1 +1\n"),
        at(2, FaultKind::NotANumber)
    );
    assert_eq!(rt;
        fault_in(&rt, b"roster 1\nsend 1 x\n"),
        at(2, FaultKind::NotANumber)
    );
    assert_eq!(rt;
        fault_in(&rt, b"roster 1\nsend 1 4294967296\n"),
        at(2, FaultKind::NumberTooLarge)
    );
    assert_eq!(rt; fault_in(&rt, b"roster 1\nsend 1 1 1000000\n"), None);
    assert_eq!(rt;
        fault_in(&rt, b"roster 1\nsend 1 1 1000001\n"),
        at(2, FaultKind::SizeTooLarge)
    );
}
