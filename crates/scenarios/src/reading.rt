// Texts that are no run: scripts that are read or refused, and settings.
use crate::given::{append_text, number, set_number};
use crate::outcome::{Call, WHOLE, outcome_of};
use crate::runs::verdict;
use crate::stage::Stage;
use crate::stop::{Stop, ok};
use archive_service::{ScriptError, plain, read_script};
use blob_device::Memory;
use scenario_text::Step;

/// Says what becomes of a text, or of a setting.
pub fn read(stage: &Stage, step: &Step) -> Result<String, Stop> {
    let mut text = Vec::new(stage.alloc);
    append_text(&mut text, step.argument(0))?;
    match step.word() {
        "script" => answered(stage, &text),
        "reads" => script_read(stage, &text),
        "begins" => beginnings(stage, &text),
        _ => valid(stage, step),
    }
}

// What a run over an empty device answers to a script, a byte at a time and all at once.
fn answered(stage: &Stage, text: &[u8]) -> Result<String, Stop> {
    let alloc = stage.alloc;
    let mut call = Call {
        words: stage.words.as_slice(),
        settings: &stage.settings,
        input: text,
        piece: 1,
        failing_read: None,
        failing_write: None,
    };
    let one = outcome_of(alloc, &call, &mut Memory::new(alloc))?;
    call.piece = WHOLE;
    let all = outcome_of(alloc, &call, &mut Memory::new(alloc))?;
    if !one.is_same(&all) {
        return Err(Stop::Said("streams of a byte change the answer"));
    }
    verdict(alloc, &all, &[])
}

// How many commands a text is, which the plain program writes as that text; or its first bad line.
fn script_read(stage: &Stage, text: &[u8]) -> Result<String, Stop> {
    let alloc = stage.alloc;
    match read_script(alloc, text, stage.settings.max_value) {
        Ok(script) => {
            let again = plain::whole_text(alloc, script.as_slice())?;
            if again.as_bytes() != text {
                return Err(Stop::Said("the plain program writes it otherwise"));
            }
            Ok(format!(in alloc; "{} commands", script.as_slice().len())?)
        }
        Err(ScriptError::Line(number)) => Ok(format!(in alloc; "line {number}")?),
        Err(ScriptError::Mem) => Err(Stop::Mem),
    }
}

// With how many of the lines that were gathered a text begins, by the plain program.
fn beginnings(stage: &Stage, text: &[u8]) -> Result<String, Stop> {
    let alloc = stage.alloc;
    let Ok(script) = read_script(alloc, stage.input.as_slice(), stage.settings.max_value) else {
        return Err(Stop::Said("the lines are no script"));
    };
    let mut count = 0_u64;
    for command in script.as_slice() {
        if plain::begins_with(alloc, text, command)? {
            count = count.saturating_add(1);
        }
    }
    Ok(format!(in alloc; "{count}")?)
}

// Whether the settings are valid, with the change that the step names.
fn valid(stage: &Stage, step: &Step) -> Result<String, Stop> {
    let mut settings = stage.settings;
    if !step.rest().is_empty() {
        set_number(&mut settings, step.argument(0), number(step, 1)?)?;
    }
    if settings.is_valid() {
        return ok(stage.alloc);
    }
    Err(Stop::Said("refused"))
}
