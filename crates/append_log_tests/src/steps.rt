// The steps of a scenario.
use crate::logs::{add, grow, left};
use crate::runs::{Mode, each_call};
use crate::said::{Said, text_of};
use blob_device::{CrashChoice, DevError, Device, Memory};
use scenario_text::{Report, Step};
use std::alloc::{AllocError, Global};

/// Carries out the steps of a scenario.
pub fn run(
    alloc: Global,
    dev: &mut Memory,
    steps: &[Step],
    report: &mut Report,
) -> Result<(), AllocError> {
    for step in steps {
        let answer = carried_out(alloc, dev, step);
        report.compare(step, text_of(alloc, &answer)?.as_str())?;
    }
    Ok(())
}

// Carries out a step. The answer is what it says.
fn carried_out(alloc: Global, dev: &mut Memory, step: &Step) -> Result<Said, DevError> {
    match step.word() {
        "calls" => Ok(Said::Number(dev.calls())),
        "faults" => Ok(Said::Number(dev.faults())),
        "log" => logged(alloc, dev, step),
        "remove" | "crash" | "fail" | "fuse" => remake(alloc, dev, step),
        _ => match records_of(alloc, step)? {
            Some(records) => appended(alloc, dev, step, &records),
            None => Ok(Said::Refused),
        },
    }
}

// The log as it reads, or as the crash leaves it that the step names.
fn logged(alloc: Global, dev: &Memory, step: &Step) -> Result<Said, DevError> {
    let choice = match step.argument(0) {
        "" => Some(CrashChoice::AsRead),
        _ => choice(step),
    };
    match choice {
        Some(choice) => Ok(Said::Log(left(alloc, dev, choice)?)),
        None => Ok(Said::Refused),
    }
}

// Carries out a step that has records.
fn appended(
    alloc: Global,
    dev: &mut Memory,
    step: &Step,
    records: &[Vec<u8>],
) -> Result<Said, DevError> {
    match (step.word(), records) {
        ("append", [record]) => Ok(Said::Ended(add(dev, record))),
        ("append-all", _) => Ok(Said::Grown(grow(alloc, dev, records))),
        ("each-call-stops", _) => each_call(alloc, Mode::Stops, records),
        ("each-call-fails", _) => each_call(alloc, Mode::Fails, records),
        ("each-call-reopens", _) => each_call(alloc, Mode::Reopens, records),
        _ => Ok(Said::Refused),
    }
}

// The records that a step names; none where one is not hexadecimal.
fn records_of(alloc: Global, step: &Step) -> Result<Option<Vec<Vec<u8>>>, AllocError> {
    let mut records = Vec::new(alloc);
    for at in 0..step.rest().len() {
        match step.bytes(alloc, at)? {
            Some(record) => records.push(record)?,
            None => return Ok(None),
        }
    }
    Ok(Some(records))
}

// Removes the log, begins anew over what a crash leaves, or says which calls fail.
fn remake(alloc: Global, dev: &mut Memory, step: &Step) -> Result<Said, DevError> {
    match (step.word(), step.number(0), choice(step)) {
        ("fail", Some(nth), _) => dev.fail_at(nth)?,
        ("fuse", Some(nth), _) => dev.fuse_at(nth),
        ("remove", _, _) => dev.remove("p", b"log")?,
        ("crash", _, Some(choice)) => {
            let image = dev.pick_crash(alloc, choice)?;
            *dev = Memory::from_image(alloc, image)?;
        }
        _ => return Ok(Said::Refused),
    }
    Ok(Said::Done)
}

// The crash that a step names, if it names one.
fn choice(step: &Step) -> Option<CrashChoice> {
    match (step.argument(0), step.number(1)) {
        ("settled", _) => Some(CrashChoice::Settled),
        ("as-read", _) => Some(CrashChoice::AsRead),
        ("mixed", Some(bits)) => Some(CrashChoice::Mixed(bits)),
        _ => None,
    }
}
