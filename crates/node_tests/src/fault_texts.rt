//! What the faults of `step_text` say: why a line gave nothing, and why nothing is told of a case.

use std::alloc::Global;
use std::test::Fail;
use step_text::{CaseFault, Fault};

/// Whether a fault of a line is displayed as this text.
fn is_said_of_line(alloc: Global, fault: Fault, text: &str) -> Result<bool, Fail> {
    Ok(format!(in alloc; "{fault}")?.as_str() == text)
}

/// Whether a fault of a case is displayed as this text.
fn is_said_of_case(alloc: Global, fault: CaseFault, text: &str) -> Result<bool, Fail> {
    Ok(format!(in alloc; "{fault}")?.as_str() == text)
}

#[test]
fn says_why_a_line_gives_nothing(rt: HostRuntime) -> Result<(), Fail> {
    let alloc = rt.alloc();
    assert!(rt; is_said_of_line(alloc, Fault::NoMemory, "out of memory")?);
    assert!(rt; is_said_of_line(alloc, Fault::Word, "bad word")?);
    assert!(rt; is_said_of_line(alloc, Fault::Spent, "spent")?);
    assert!(rt; is_said_of_line(alloc, Fault::MayNot, "may not step")?);
    Ok(())
}

#[test]
fn says_why_nothing_is_told_of_a_case(rt: HostRuntime) -> Result<(), Fail> {
    let alloc = rt.alloc();
    assert!(rt; is_said_of_case(alloc, CaseFault::NoMemory, "out of memory")?);
    assert!(rt; is_said_of_case(alloc, CaseFault::Script, "bad script")?);
    assert!(rt; is_said_of_case(alloc, CaseFault::Event, "bad event")?);
    Ok(())
}
