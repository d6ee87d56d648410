// A run of steps over a device in memory, with an archive that is open or not.
ghost use Rattle.std.specs.Prelude.{IfOk, IfSome};
ghost use Rattle.archives.specs.Config.{IsValid};
ghost use Rattle.archives_tests.specs.Over.{IsOver};
ghost use Rattle.archives_tests.specs.declared.sample.Sample.{Sample};

use crate::asked::{Notes, asked};
use crate::changes::{Change, Put, change_of, choice_of};
use crate::error_words::ErrorWords;
use crate::looks::looked;
use crate::sample::Sample;
use crate::settings::Settings;
use archives::{Archive, Entries, Error, FourCap, MultiArchive, prunable};
use blob_device::{CrashChoice, DevError, Memory};
use scenario_text::{Report, Step};
use std::alloc::{AllocError, Global};
use value_codec::{Key8, Sha256Seal};

/// An archive of values of scenarios, which a configuration opens.
pub trait Opens: Archive<Value = Sample> + MultiArchive + Drop {
    /// Opens the archive.
    fn open(alloc: Global, dev: &mut Memory, settings: &Settings) -> Result<Self, Error>
        requires valid { IsValid settings.now }
        ensures over { IfOk result (λ a. IsOver Self.meaning.IsUsable a dev.new) };

    /// Removes the sections below that of an index.
    fn pruned(self, dev: &mut Memory, index: u64) -> Result<Self, Error>
        requires over { IsOver Self.meaning.IsUsable self dev.old }
        ensures over { IfOk result (λ a. IsOver Self.meaning.IsUsable a dev.new) };

    /// Below it nothing is put.
    fn lowest(&self) -> u64;

    /// Key and value of each record at an index.
    fn entries(
        &self,
        dev: &mut Memory,
        index: u64,
    ) -> Result<Option<Entries<Self::Key, Sample>>, Error>
        requires over { IsOver Self.meaning.IsUsable self.now dev.old }
        ensures over { IsOver Self.meaning.IsUsable self.now dev.new };

    /// It takes each value.
    ghost takes: { (a : Self) (value : Sample) → Self.meaning.Accepts a value };
}

pub type Samples = prunable::Archive<FourCap, Key8, Sample, Sha256Seal>;

impl Opens for Samples {
    ghost takes = { λ _ _. tt };

    fn open(alloc: Global, dev: &mut Memory, settings: &Settings) -> Result<Samples, Error> {
        Samples::init(alloc, dev, settings)
    }

    fn pruned(self, dev: &mut Memory, index: u64) -> Result<Samples, Error> {
        self.prune(dev, index)
    }

    fn lowest(&self) -> u64 {
        self.floor()
    }

    fn entries(
        &self,
        dev: &mut Memory,
        index: u64,
    ) -> Result<Option<Entries<Key8, Sample>>, Error> {
        self.get_entries(dev, index)
    }
}

/// Carries out the steps over an empty device.
pub fn run<A: Opens>(alloc: Global, steps: &[Step], report: &mut Report) -> Result<(), AllocError> {
    let mut dev = Memory::new(alloc);
    let mut archive: Option<A> = None;
    let mut notes = Notes::new(alloc)?;
    for step in steps {
        let (next, said) = carried_out(alloc, &mut dev, archive, &mut notes, step)?;
        archive = next;
        report.compare(step, said.as_str())?;
    }
    Ok(())
}

// Carries out one step. The answer is the archive, where it is open then, and what the step says.
fn carried_out<A: Opens>(
    alloc: Global,
    dev: &mut Memory,
    archive: Option<A>,
    notes: &mut Notes,
    step: &Step,
) -> Result<(Option<A>, String), AllocError>
    requires { IfSome archive (λ a. IsOver A.meaning.IsUsable a dev.old) }
    ensures { IfOk result (λ r. IfSome r.0 (λ a. IsOver A.meaning.IsUsable a dev.new)) }
{
    if let Some(said) = asked(alloc, dev, notes, step)? {
        return Ok((archive, said));
    }
    match (step.word(), archive) {
        ("open", _) => open(alloc, dev, &notes.settings),
        ("crash", _) => {
            let said = crash(alloc, dev, notes, step)?;
            Ok((None, said))
        }
        (_, Some(archive)) => on_archive(alloc, dev, archive, step),
        (_, None) => Ok((None, String::from_str(alloc, "refused: not open")?)),
    }
}

// Opens an archive that is so configured.
fn open<A: Opens>(
    alloc: Global,
    dev: &mut Memory,
    settings: &Settings,
) -> Result<(Option<A>, String), AllocError>
    ensures { IfOk result (λ r. IfSome r.0 (λ a. IsOver A.meaning.IsUsable a dev.new)) }
{
    if !settings.is_valid() {
        return Ok((None, String::from_str(alloc, "refused: not valid")?));
    }
    match A::open(alloc, dev, settings) {
        Ok(archive) => Ok((Some(archive), String::from_str(alloc, "ok")?)),
        Err(error) => Ok((None, format!(in alloc; "error {}", ErrorWords(&error))?)),
    }
}

// Begins anew over what a crash leaves.
fn crash(
    alloc: Global,
    dev: &mut Memory,
    notes: &mut Notes,
    step: &Step,
) -> Result<String, AllocError> {
    let Some(choice) = choice_of(step) else {
        return String::from_str(alloc, "refused: no such crash");
    };
    *dev = crashed(alloc, dev, choice).map_err(|_| AllocError)?;
    notes.calls = 0;
    String::from_str(alloc, "ok")
}

// A device over what a crash leaves.
fn crashed(alloc: Global, dev: &Memory, choice: CrashChoice) -> Result<Memory, DevError> {
    Memory::from_image(alloc, dev.pick_crash(alloc, choice)?)
}

// Carries out a step of the archive.
fn on_archive<A: Opens>(
    alloc: Global,
    dev: &mut Memory,
    archive: A,
    step: &Step,
) -> Result<(Option<A>, String), AllocError>
    requires { IsOver A.meaning.IsUsable archive dev.old }
    ensures { IfOk result (λ r. IfSome r.0 (λ a. IsOver A.meaning.IsUsable a dev.new)) }
{
    if let Some(said) = looked(alloc, dev, &archive, step)? {
        return Ok((Some(archive), said));
    }
    let Some(change) = change_of(alloc, step)? else {
        let said = String::from_str(alloc, "refused: no such command")?;
        return Ok((Some(archive), said));
    };
    match changed(dev, archive, change) {
        Ok(archive) => Ok((Some(archive), String::from_str(alloc, "ok")?)),
        Err(error) => Ok((None, format!(in alloc; "error {}", ErrorWords(&error))?)),
    }
}

// The archive that was so changed.
fn changed<A: Opens>(dev: &mut Memory, archive: A, change: Change<A::Key>) -> Result<A, Error>
    requires { IsOver A.meaning.IsUsable archive dev.old }
    ensures { IfOk result (λ a. IsOver A.meaning.IsUsable a dev.new) }
{
    match change {
        Change::Put(Put { index, key, value }) => archive.put(dev, index, key, &value),
        Change::PutSync(Put { index, key, value }) => archive.put_sync(dev, index, key, &value),
        Change::PutStart(Put { index, key, value }) => {
            let (archive, handle) = archive.put_start_sync(dev, index, key, &value)?;
            handle.wait();
            Ok(archive)
        }
        Change::Multi(Put { index, key, value }) => archive.put_multi(dev, index, key, &value),
        Change::Sync => archive.sync(dev),
        Change::Start => {
            let (archive, handle) = archive.start_sync(dev)?;
            handle.wait();
            Ok(archive)
        }
        Change::Prune(index) => archive.pruned(dev, index),
    }
}
