//! Texts at the limits, and how a fault prints.
use gt_script::{ScriptFault, ScriptFaultKind, parse, parse_run};
use std::alloc::{AllocError, Global};
use std::test::Fail;

// The first lines of texts whose other lines are made here, too long for a file. The others begin at line 4.
const HEAD: &str = "triple a_t a_t copy\n\
domain 1 u:r:a_t 8 1 1\n\
domain 2 u:r:a_t 8 1 1\n";

// Returns the fault of a text, as it prints, or nothing if the text is a script.
fn fault_text(alloc: Global, text: &[u8]) -> Result<String, AllocError> {
    match parse(alloc, text) {
        Ok(_) => Ok(String::new(alloc)),
        Err(error) => error.to_string(alloc),
    }
}

// Returns how many flags and tasks a text for `run` has, or its fault.
fn run_said(alloc: Global, text: &[u8]) -> Result<String, AllocError> {
    match parse_run(alloc, text) {
        Ok(script) => format!(in alloc; "{} {}", script.flags(), script.tasks().len()),
        Err(error) => error.to_string(alloc),
    }
}

// A script with a line of this number of digits, and its fault.
#[test]
fn takes_8192_digits(rt: HostRuntime) -> Result<(), Fail> {
    let alloc = rt.alloc();
    for (call, byte, behind, wanted) in [
        ("bytes 0", "a5", "", ""),
        ("bytes 0", "a5", "a5", "line 4: syntax"),
        ("store h 0", "5A", "", ""),
        ("store h 0", "5A", "5A", "line 4: syntax"),
        ("poke 0 0", "5A", "", ""),
        ("poke 0 0", "5A", "5A", "line 4: syntax"),
    ] {
        let digits = byte.repeat(alloc, 4096)?;
        let text = format!(in alloc; "{HEAD}do 1 {call} {digits}{behind}")?;
        let fault = fault_text(alloc, text.as_bytes())?;
        assert_eq!(rt; fault.as_str(), wanted, "{call}");
    }
    Ok(())
}

#[test]
fn takes_1048576_bytes(rt: HostRuntime) -> Result<(), Fail> {
    let alloc = rt.alloc();
    for (length, wanted) in [(1_048_577, "line 1: limit"), (1_048_576, "line 2: syntax")] {
        let spaces = vec![in alloc; b' '; length]?;
        let fault = fault_text(alloc, spaces.as_slice())?;
        assert_eq!(rt; fault.as_str(), wanted);
    }
    Ok(())
}

// Two domains take turns, flag by flag, so each turn of the parser raises one more flag. Then one waits forever.
#[test]
fn a_long_way_round_ends(rt: HostRuntime) -> Result<(), Fail> {
    let alloc = rt.alloc();
    let mut text = String::from_str(alloc, HEAD)?;
    for turn in 0..5_000 {
        let (here, there) = if turn % 2 == 0 { (1, 2) } else { (2, 1) };
        let lines = format!(in alloc; "tell {here} f{turn}\nawait {there} f{turn}\n")?;
        text.push_str(lines.as_str())?;
    }
    for (behind, wanted) in [("", "5000 10000"), ("await 1 f5000\n", "line 10004: stuck")] {
        let text = format!(in alloc; "{text}{behind}")?;
        let said = run_said(alloc, text.as_bytes())?;
        assert_eq!(rt; said.as_str(), wanted);
    }
    Ok(())
}

#[test]
fn prints_a_fault(rt: HostRuntime) -> Result<(), Fail> {
    for (kind, text) in [
        (ScriptFaultKind::Limit, "line 6: limit"),
        (ScriptFaultKind::Utf8, "line 6: utf8"),
        (ScriptFaultKind::Syntax, "line 6: syntax"),
        (ScriptFaultKind::Config, "line 6: config"),
        (ScriptFaultKind::Mode, "line 6: mode"),
        (ScriptFaultKind::Stuck, "line 6: stuck"),
    ] {
        let fault = ScriptFault { line: 6, kind };
        assert_eq!(rt; format!(in rt.alloc(); "{fault}")?.as_str(), text);
    }
    Ok(())
}
