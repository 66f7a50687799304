//! Scenarios one after the other, and what is told of them.
use crate::scenario::{Scenario, find, prepare};
use row_tables::{Fault, Found, cut};
use std::alloc::{AllocError, Global};

// The name of the scenario, and whether all was so far as it is wanted.
#[derive(Drop)]
struct Verdict {
    name: String,
    passes: bool,
}

/// Does what each line says, and tells of each scenario that it passes, or what differs from what is wanted.
pub(crate) fn judge_lines(alloc: Global, text: &str, report: &mut Found) -> Result<(), AllocError> {
    let mut verdict = Verdict {
        name: String::new(alloc),
        passes: true,
    };
    judge_all(alloc, text, &mut verdict, report)?;
    Ok(tell(&verdict, report))
}

fn judge_all(
    alloc: Global,
    text: &str,
    verdict: &mut Verdict,
    report: &mut Found,
) -> Result<(), AllocError> {
    let mut scenario = Scenario::new(alloc)?;
    judge_each(alloc, text, &mut scenario, verdict, report)
}

fn judge_each(
    alloc: Global,
    text: &str,
    scenario: &mut Scenario,
    verdict: &mut Verdict,
    report: &mut Found,
) -> Result<(), AllocError> {
    let mut found = Found::new(alloc);
    for line in text.lines() {
        judge_line(alloc, line, scenario, verdict, &mut found, report)?;
    }
    Ok(())
}

fn judge_line(
    alloc: Global,
    line: &str,
    scenario: &mut Scenario,
    verdict: &mut Verdict,
    found: &mut Found,
    report: &mut Found,
) -> Result<(), AllocError> {
    if line.is_empty() || line.starts_with('#') {
        return Ok(());
    }
    let (word, rest) = cut(line);
    if word == "==" {
        tell(verdict, report);
        begin(verdict, rest)?;
        return renew(alloc, scenario);
    }
    if prepare(alloc, scenario, word, rest)? {
        return Ok(());
    }
    found.clear();
    verdict.passes &= judge(alloc, line, scenario, &verdict.name, found, report);
    Ok(())
}

fn renew(alloc: Global, scenario: &mut Scenario) -> Result<(), AllocError> {
    drop(std::mem::replace(scenario, Scenario::new(alloc)?));
    Ok(())
}

fn begin(verdict: &mut Verdict, name: &str) -> Result<(), AllocError> {
    verdict.passes = true;
    verdict.name.clear();
    verdict.name.push_str(name)
}

// Tells that the scenario passes, where there is one and it does.
fn tell(verdict: &Verdict, report: &mut Found) {
    if !verdict.name.is_empty() && verdict.passes {
        report.texts(&[verdict.name.as_str(), ": passed\n"])
    }
}

// Whether what is found of a row is what is wanted. Else it is told.
fn judge(
    alloc: Global,
    line: &str,
    scenario: &mut Scenario,
    name: &str,
    found: &mut Found,
    report: &mut Found,
) -> bool {
    let (row, wanted) = line.split_once(" = ").unwrap_or((line, ""));
    match find(alloc, scenario, row, found) {
        Ok(()) if !found.is_whole() => differs(name, row, "no memory", wanted, report),
        Ok(()) if found.as_str() == wanted => true,
        Ok(()) => differs(name, row, found.as_str(), wanted, report),
        Err(Fault::NoRow) => differs(name, row, "no row of its kind", wanted, report),
        Err(Fault::OutOfMemory) => differs(name, row, "no memory", wanted, report),
    }
}

fn differs(name: &str, row: &str, found: &str, wanted: &str, report: &mut Found) -> bool {
    report.texts(&[name, ": ", row, ": found ", found]);
    report.texts(&[", wanted ", wanted, "\n"]);
    false
}
