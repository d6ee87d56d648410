// Runs of the script, and which tries there are.
use crate::given::number;
use crate::outcome::{Call, Outcome, WHOLE, outcome_of};
use crate::stage::Stage;
use crate::stop::{Stop, ok};
use crate::trial::Trial;
use crate::{cuts, failing, stopping};
use blob_device::{Device, FileDevice};
use scenario_text::Step;
use std::alloc::Global;

/// Carries out the script over the device.
pub fn run(rt: &HostRuntime, stage: &mut Stage) -> Result<String, Stop> {
    let alloc = stage.alloc;
    let call = Call {
        words: stage.words.as_slice(),
        settings: &stage.settings,
        input: stage.input.as_slice(),
        piece: WHOLE,
        failing_read: None,
        failing_write: None,
    };
    stage.before = stage.dev.image(alloc)?;
    stage.last = match &stage.folder {
        None => outcome_of(alloc, &call, &mut stage.dev)?,
        Some(folder) => {
            let mut dev = FileDevice::new(rt, alloc, folder.as_str())?;
            outcome_of(alloc, &call, &mut dev)?
        }
    };
    stage.calls = stage.dev.calls();
    let said = verdict(alloc, &stage.last, stage.wanted.as_slice());
    stage.input = Vec::new(alloc);
    stage.wanted = Vec::new(alloc);
    said
}

/// What is said of a run whose lines must get these replies: the first other reply, or the status and what was written besides.
pub fn verdict(alloc: Global, outcome: &Outcome, wanted: &[String]) -> Result<String, Stop> {
    let mut lines = outcome.written.lines();
    for reply in wanted {
        let line = lines.next().unwrap_or("nothing");
        if line != reply.as_str() {
            return Ok(format!(in alloc; "reply {line}, and not {reply}")?);
        }
    }
    let mut said = format!(in alloc; "status {}", outcome.ended.status)?;
    let mut is_first = true;
    for line in lines {
        said.push_str(if is_first { ": " } else { " / " })?;
        said.push_str(line)?;
        is_first = false;
    }
    if said.as_str() == "status 0" {
        return ok(alloc);
    }
    Ok(said)
}

/// Tries the script over copies of the device, and judges what becomes of it.
pub fn try_out(stage: &Stage, step: &Step) -> Result<String, Stop> {
    let start = stage.dev.image(stage.alloc)?;
    let trial = Trial::new(stage, &start)?;
    let least = step.number(0).unwrap_or(0);
    match step.word() {
        "each-call-fails" => failing::each_call_fails(&trial, least),
        "each-call-stops" => stopping::each_call_stops(&trial, least),
        "stops-twice" => stopping::stops_twice(&trial, number(step, 0)?),
        "marks-count" => failing::marks_count(&trial),
        "input-cut" => cuts::input_cut(&trial),
        _ => cuts::streams(&trial, step.number(0).unwrap_or(1) as usize),
    }
}
