// Scenarios over a device over a folder.
ghost use Rattle.std.specs.Prelude.{◌≡◌, IfOk, IfSome};
ghost use Rattle.blob_device.specs.FileMeaning.{file_opened};
ghost use Rattle.blob_device_tests.specs.Holding.{IsHeld};

use crate::disk::{Held, carried_out, hex_of};
use blob_device::{DevError, Device, FileDevice, HostFiles};
use scenario_text::{Report, Step};
use std::alloc::{AllocError, Global};
use std::{fs, io};

type Files = HostFiles<HostRuntime>;

/// Carries out the steps of a scenario.
pub fn run(rt: &HostRuntime, steps: &[Step], report: &mut Report) -> Result<(), DevError> {
    let files = HostFiles::new(rt)?;
    let mut dev = FileDevice::new(&files, rt.alloc(), "")?;
    let mut held = None;
    for step in steps {
        let (next, said) = in_folder(rt, &files, &mut dev, held, step)?;
        held = next;
        report.compare(step, said.as_str())?;
    }
    Ok(())
}

/// Carries out a step. The answer is the blob that is open then, and what the step says.
fn in_folder(
    rt: &HostRuntime,
    files: &Files,
    dev: &mut FileDevice<Files>,
    held: Option<Held>,
    step: &Step,
) -> Result<(Option<Held>, String), DevError>
    requires { IfSome held (λ h. IsHeld h (file_opened dev.old)) }
    ensures { IfOk result (λ r. IfSome r.0 (λ h. IsHeld h (file_opened dev.new))) }
{
    let alloc = rt.alloc();
    match step.word() {
        "folder" => {
            *dev = FileDevice::new(files, alloc, step.argument(0))?;
            Ok((None, String::from_str(alloc, "ok")?))
        }
        "alone" => {
            *dev = FileDevice::alone(files, alloc, step.argument(0))?;
            Ok((None, String::from_str(alloc, "ok")?))
        }
        "second" => Ok((held, second(files, alloc, step.argument(0))?)),
        "faults" => Ok((held, format!(in alloc; "{}", dev.faults())?)),
        "failure" => {
            let line = String::from_str(alloc, dev.last_failure().unwrap_or("none"))?;
            Ok((held, line))
        }
        "file" | "file-bytes" | "there" | "clear" => Ok((held, file_told(rt, step)?)),
        _ => carried_out(alloc, dev, held, step),
    }
}

/// What a second device says that is to have the folder alone.
fn second(files: &Files, alloc: Global, root: &str) -> Result<String, DevError> {
    let mut dev = FileDevice::alone(files, alloc, root)?;
    if dev.open_blob("keys", b"a").is_ok() {
        return Ok(String::from_str(alloc, "ok")?);
    }
    Ok(String::from_str(alloc, dev.last_failure().unwrap_or("none"))?)
}

/// What a step about a file says, also where the system refuses it.
fn file_told(rt: &HostRuntime, step: &Step) -> Result<String, AllocError> {
    match file_step(rt, step) {
        Ok(said) => Ok(said),
        Err(e) => format!(in rt.alloc(); "{e}"),
    }
}

/// Carries out a step about a file.
fn file_step(rt: &HostRuntime, step: &Step) -> io::Result<String> {
    let path = step.argument(0);
    let said = match step.word() {
        "file" => {
            let bytes = step.bytes(rt.alloc(), 1)?.unwrap_or(Vec::new(rt.alloc()));
            fs::write(rt, path, &bytes)?;
            "ok"
        }
        "file-bytes" => return Ok(hex_of(rt.alloc(), &fs::read(rt, path)?)?),
        "clear" => {
            if fs::remove_dir_all(rt, path).is_err() {
                // What is no folder may be a file.
                let _ = fs::remove_file(rt, path);
            }
            if fs::exists(rt, path)? {
                "still there"
            } else {
                "ok"
            }
        }
        _ => { if fs::exists(rt, path)? { "yes" } else { "no" } }
    };
    Ok(String::from_str(rt.alloc(), said)?)
}
