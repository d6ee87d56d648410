// Inputs that are cut, and streams that fail.
use crate::outcome::{Outcome, outcome_of};
use crate::runs::verdict;
use crate::stop::{Stop, ok};
use crate::trial::Trial;
use blob_device::{Device, Memory};
use std::fmt::Write;

/// The input is cut after each byte. Whole lines are carried out, and a line that is cut is no command.
pub fn input_cut(trial: &Trial<'_>) -> Result<String, Stop> {
    let alloc = trial.alloc;
    let mut replies = String::new(alloc);
    let mut lines = 0_usize;
    for len in 0..=trial.script.len() {
        let cut = trial.script.get(..len).unwrap_or("");
        if cut.ends_with("\n") {
            if let Some(reply) = trial.wanted.get(lines) {
                writeln!(replies, "{reply}")?;
            }
            lines = lines.saturating_add(1);
        }
        let mut dev = trial.device()?;
        let run = trial.run(&mut dev, cut)?;
        let is_right = if cut.is_empty() || cut.ends_with("\n") {
            run.ended.status == 0 && run.written.as_str() == replies.as_str()
        } else {
            let line = format!(in alloc; "error line {}\n", lines.saturating_add(1))?;
            is_refused(&run, &dev, 2) && run.written.as_str() == line.as_str()
        };
        if !is_right {
            let said = verdict(alloc, &run, &[])?;
            return Ok(format!(in alloc; "cut to {len} bytes: {said}")?);
        }
    }
    ok(alloc)
}

// Whether the run ended with this status, before the archive was opened.
fn is_refused(run: &Outcome, dev: &Memory, status: u8) -> bool {
    run.ended.status == status
        && run.ended.marks.as_slice().is_empty()
        && run.ended.error.is_none()
        && dev.calls() == 0
}

/// Each read fails in turn, and each write.
pub fn streams(trial: &Trial<'_>, piece: usize) -> Result<String, Stop> {
    let mut dev = trial.device()?;
    let whole = trial.run(&mut dev, trial.script)?;
    let said = reads(trial, piece, &whole)?;
    if said.as_str() != "ok" {
        return Ok(said);
    }
    writes(trial, piece, &whole, dev.calls())
}

// Where a read fails, nothing is written and the device not touched. One read more finds the end.
fn reads(trial: &Trial<'_>, piece: usize, whole: &Outcome) -> Result<String, Stop> {
    let reads = trial.script.len().div_ceil(piece.max(1)) as u64;
    for nth in 0..reads.saturating_add(3) {
        let mut dev = trial.device()?;
        let mut call = trial.call(trial.script);
        call.piece = piece;
        call.failing_read = Some(nth);
        let run = outcome_of(trial.alloc, &call, &mut dev)?;
        let is_right = if nth <= reads {
            is_refused(&run, &dev, 3) && run.written.is_empty()
        } else {
            run.is_same(whole)
        };
        if !is_right {
            let said = verdict(trial.alloc, &run, &[])?;
            return Ok(format!(in trial.alloc; "read {nth} fails: {said}")?);
        }
    }
    ok(trial.alloc)
}

// Where a write fails, a prefix was written, and the commands were carried out as ever.
fn writes(trial: &Trial<'_>, piece: usize, whole: &Outcome, calls: u64) -> Result<String, Stop> {
    let writes = whole.written.len().div_ceil(piece.max(1)) as u64;
    for nth in 0..writes.saturating_add(2) {
        let mut dev = trial.device()?;
        let mut call = trial.call(trial.script);
        call.piece = piece;
        call.failing_write = Some(nth);
        let run = outcome_of(trial.alloc, &call, &mut dev)?;
        let prefix = (nth as usize).saturating_mul(piece);
        let is_right = if nth < writes {
            run.ended.status == 4
                && run.served_same(whole)
                && Some(run.written.as_bytes()) == whole.written.as_bytes().get(..prefix)
        } else {
            run.is_same(whole)
        };
        if !is_right || dev.calls() != calls {
            let said = verdict(trial.alloc, &run, &[])?;
            return Ok(format!(in trial.alloc; "write {nth} fails: {said}")?);
        }
    }
    ok(trial.alloc)
}
