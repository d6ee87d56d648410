// Files of scenarios, each carried out by a driver.
use crate::{Report, Scenario, scenarios_in};
use std::alloc::{AllocError, Global};
use std::process::ExitCode;
use std::{env, fs, io};

/// Carries scenarios out over one library.
pub trait Driver {
    /// Carries out the steps of a scenario from a new device on, and notes in the report whatever is not as it must be.
    fn carry_out(
        &self,
        alloc: Global,
        scenario: &Scenario,
        report: &mut Report,
    ) -> Result<(), AllocError>;
}

/// Carries out the scenarios of the files that the program's arguments name, and prints a line for each: `FILE: ok: NAME (N steps)`, or
/// `FILE: FAILED: NAME: line L: ..`. The status is 0 where all went well, 1 where a scenario failed or a file could not be read as scenarios, and
/// 2 where a file could not be read, a line not be printed, or memory ran out.
pub fn run_files(rt: &HostRuntime, driver: &impl Driver) -> ExitCode {
    match are_all_well(rt, driver) {
        Ok(true) => ExitCode::from(0),
        Ok(false) => ExitCode::from(1),
        Err(error) => {
            // There is nobody else to tell if this fails.
            let _ = eprintln!(rt; "{error}");
            ExitCode::from(2)
        }
    }
}

// Whether all scenarios of all files went well.
fn are_all_well(rt: &HostRuntime, driver: &impl Driver) -> io::Result<bool> {
    let mut well = true;
    for name in env::args(rt)?.skip(1) {
        let text = fs::read_to_string(rt, name.as_str())?;
        match scenarios_in(rt.alloc(), text.as_str()) {
            Ok(scenarios) => well &= are_well(rt, driver, name.as_str(), scenarios.as_slice())?,
            Err(error) => {
                println!(rt; "{name}: FAILED: {error}")?;
                well = false;
            }
        }
    }
    Ok(well)
}

// Whether the scenarios of a file went well.
fn are_well(
    rt: &HostRuntime,
    driver: &impl Driver,
    file: &str,
    scenarios: &[Scenario],
) -> io::Result<bool> {
    let mut well = true;
    for scenario in scenarios {
        let mut report = Report::new(rt.alloc());
        driver.carry_out(rt.alloc(), scenario, &mut report)?;
        let name = scenario.name.as_str();
        match report.failure {
            None => println!(rt; "{file}: ok: {name} ({} steps)", scenario.steps.len())?,
            Some(failure) => {
                println!(rt; "{file}: FAILED: {name}: {failure}")?;
                well = false;
            }
        }
    }
    Ok(well)
}
