// Files and folders beside the program.
use crate::stage::Stage;
use crate::stop::{Stop, ok};
use scenario_text::Step;
use std::alloc::Global;
use std::fs;

/// Does with files what the step says.
pub fn use_files(rt: &HostRuntime, stage: &mut Stage, step: &Step) -> Result<String, Stop> {
    let alloc = stage.alloc;
    let path = step.argument(0);
    match step.word() {
        "folder" => {
            clear(rt, path);
            stage.folder = if path == "-" {
                None
            } else {
                Some(String::from_str(alloc, path)?)
            };
        }
        "clear" => clear(rt, path),
        "file" => {
            let bytes = step
                .bytes(alloc, 1)?
                .ok_or(Stop::Said("bytes are missing"))?;
            if fs::write(rt, path, bytes.as_slice()).is_err() {
                return Err(Stop::Said("the file cannot be written"));
            }
        }
        "there" => {
            let is_there = fs::exists(rt, path).unwrap_or(false);
            return Ok(String::from_str(alloc, if is_there { "yes" } else { "no" })?);
        }
        _ => return bytes_at(rt, alloc, path),
    }
    ok(alloc)
}

// Removes what stands at the path, if anything does.
fn clear(rt: &HostRuntime, path: &str) {
    let _ = fs::remove_dir_all(rt, path);
    let _ = fs::remove_file(rt, path);
}

// The bytes of a file.
fn bytes_at(rt: &HostRuntime, alloc: Global, path: &str) -> Result<String, Stop> {
    match fs::read(rt, path) {
        Ok(bytes) => Ok(hex::encode(alloc, bytes.as_slice())?),
        Err(_) => Err(Stop::Said("none")),
    }
}
