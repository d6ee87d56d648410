// A trial of a device over files, by its calls alone.
use crate::calls::{Call, Change, changed};
use crate::cuts::CUTS;
use crate::disk::Disk;
use crate::files::DiskFiles;
use crate::known::{Known, has_name};
use crate::left::{Left, blobs_below};
use crate::plan::Plan;
use crate::stop::Stop;
use crate::trial::{Trial, Tried};
use blob_device::{CrashChoice, DevError, Device, FileDevice};
use std::alloc::Global;

/// Calls of a device over a folder of a disk.
#[derive(Drop)]
pub struct DeviceTrial<'a> {
    /// For all that its runs hold.
    pub alloc: Global,
    /// The disk over which each run begins.
    pub start: &'a Disk,
    /// The folder of the device.
    pub root: &'a str,
    /// What is asked of the device, in order.
    pub calls: &'a [Call],
}

impl Trial for DeviceTrial<'_> {
    fn tried(&self, plan: Plan) -> Result<Tried, Stop> {
        let mut known = Known::of_left(self.alloc, &blobs_below(self.start, self.root)?)?;
        let files = DiskFiles::new(self.start.begun_with(plan)?)?;
        let wrong = self.carry_out(&files, plan, &mut known)?;
        let (calls, has_failed_to_change) = (files.calls(), files.has_failed_to_change());
        let wrong = if wrong.is_empty() {
            self.judge(&files, plan, &known)?
        } else {
            String::from_str(self.alloc, wrong)?
        };
        Ok(Tried {
            calls,
            has_failed_to_change,
            wrong,
        })
    }
}

impl DeviceTrial<'_> {
    // Carries out the calls. Where the power goes, none is begun after the first that fails.
    fn carry_out(
        &self,
        files: &DiskFiles,
        plan: Plan,
        known: &mut Known,
    ) -> Result<&'static str, Stop> {
        let mut dev = FileDevice::new(files, self.alloc, self.root)?;
        if files.calls() != 0 {
            return Ok("a device touches a file before its first call");
        }
        for call in self.calls {
            let faults = dev.faults();
            let wrong = asked(self.alloc, &mut dev, call, plan, known)?;
            if !wrong.is_empty() {
                return Ok(wrong);
            }
            if dev.faults() == faults {
                continue;
            }
            if !plan.is_reached(files.calls()) {
                return Ok("a call of the device fails, and none on the files has failed");
            }
            if is_stop(plan) {
                return Ok("");
            }
        }
        Ok("")
    }

    // What is wrong with what each power cut leaves, and with what is left while the power stays.
    fn judge(&self, files: &DiskFiles, plan: Plan, known: &Known) -> Result<String, Stop> {
        let alloc = self.alloc;
        for choice in CUTS {
            let left = DiskFiles::new(files.after_power(choice)?)?;
            let wrong = self.wrong_with(&left, known)?;
            if !wrong.is_empty() {
                return Ok(format!(in alloc; "{choice:?}: {wrong}")?);
            }
        }
        if let Plan::Fails(_) = plan {
            return Ok(String::new(alloc));
        }
        // a process that ends closes its files, and what these forget no new device can settle
        if files.closing_forgets() {
            return Ok(String::new(alloc));
        }
        files.go_on();
        let wrong = self.wrong_with(files, known)?;
        if wrong.is_empty() {
            return Ok(String::new(alloc));
        }
        Ok(format!(in alloc; "with no power cut: {wrong}")?)
    }

    // What is wrong with a disk: with its blobs, or with how a new device finds them and settles them.
    fn wrong_with(&self, files: &DiskFiles, known: &Known) -> Result<&'static str, Stop> {
        let left = files.blobs_below(self.root)?;
        let wrong = known.wrong_with(&left);
        if !wrong.is_empty() {
            return Ok(wrong);
        }
        let wrong = self.unfound_by_a_new_one(files, &left)?;
        if !wrong.is_empty() {
            return Ok(wrong);
        }
        let settled = blobs_below(&files.after_power(CrashChoice::Settled)?, self.root)?;
        if !are_same(&left, &settled) {
            return Ok("a new device found another blob than stands after a power cut");
        }
        Ok("")
    }

    // What is wrong with how a new device finds these blobs, all that are there.
    fn unfound_by_a_new_one(&self, files: &DiskFiles, left: &[Left]) -> Result<&'static str, Stop> {
        let mut dev = FileDevice::new(files, self.alloc, self.root)?;
        let mut last = "";
        for call in self.calls {
            let partition = call.partition();
            // calls of one partition that follow one another are looked at once
            if partition != last && !is_seen(self.alloc, &mut dev, left, partition)? {
                return Ok("a new device does not see a blob");
            }
            last = partition;
        }
        for one in left {
            let wrong = unfound(self.alloc, &mut dev, one)?;
            if !wrong.is_empty() {
                return Ok(wrong);
            }
        }
        Ok("")
    }
}

// Whether nothing is begun after a call that fails.
fn is_stop(plan: Plan) -> bool {
    matches!(plan, Plan::Stops(_))
}

// Lists the blobs of a partition. What a listing does not show does not come back, unless a sync had failed before.
fn listed(
    alloc: Global,
    dev: &mut FileDevice<DiskFiles>,
    partition: &str,
    known: &mut Known,
) -> &'static str {
    match dev.scan(alloc, partition) {
        Ok(names) if !dev.has_lost() => known.listed(partition, &names),
        _ => "",
    }
}

// Asks a device for something, and takes into account what it answers. It answers what is wrong with that.
fn asked(
    alloc: Global,
    dev: &mut FileDevice<DiskFiles>,
    call: &Call,
    plan: Plan,
    known: &mut Known,
) -> Result<&'static str, Stop> {
    match call {
        Call::Open(visit) => {
            let (partition, name) = (visit.partition.as_str(), visit.name.as_slice());
            visited(dev, (partition, name), &visit.changes, plan, known)
        }
        Call::Remove(visit) => {
            let (partition, name) = (visit.partition.as_str(), visit.name.as_slice());
            let is_done = dev.remove(partition, name).is_ok();
            known.removed(partition, name, is_done)?;
            Ok("")
        }
        Call::Scan(partition) => Ok(listed(alloc, dev, partition.as_str(), known)),
    }
}

// Opens a blob and changes it.
fn visited<D: Device>(
    dev: &mut D,
    place: (&str, &[u8]),
    changes: &[Change],
    plan: Plan,
    known: &mut Known,
) -> Result<&'static str, Stop> {
    let (partition, name) = place;
    let Ok(len) = dev.open_blob(partition, name) else {
        return Ok(known.opened(partition, name, None)?);
    };
    let wrong = known.opened(partition, name, Some(len))?;
    if !wrong.is_empty() {
        return Ok(wrong);
    }
    for change in changes {
        let is_done = changed(dev, partition, name, change).is_ok();
        known.changed(partition, name, change, is_done)?;
        if !is_done && is_stop(plan) {
            return Ok("");
        }
    }
    Ok("")
}

// Whether a scan of the partition gives the names of all that are there.
fn is_seen<D: Device>(
    alloc: Global,
    dev: &mut D,
    left: &[Left],
    partition: &str,
) -> Result<bool, Stop> {
    let names = dev.scan(alloc, partition)?;
    let mut count = 0_usize;
    for one in left {
        if one.partition.as_str() != partition {
            continue;
        }
        count = count.saturating_add(1);
        if !has_name(&names, &one.name) {
            return Ok(false);
        }
    }
    Ok(count == names.len())
}

// Opens a blob and reads it. It answers whether the blob has the length of the buffer.
fn read_whole<D: Device>(
    dev: &mut D,
    partition: &str,
    name: &[u8],
    buf: &mut [u8],
) -> Result<bool, DevError> {
    let len = dev.open_blob(partition, name)?;
    if len != buf.len() as u64 {
        return Ok(false);
    }
    dev.read_at(partition, name, 0, buf)?;
    Ok(true)
}

// What is wrong with how a device finds a blob.
fn unfound<D: Device>(alloc: Global, dev: &mut D, left: &Left) -> Result<&'static str, Stop> {
    let (partition, name) = (left.partition.as_str(), left.name.as_slice());
    let mut bytes = vec![in alloc; 0_u8; left.bytes.len()]?;
    if !read_whole(dev, partition, name, bytes.as_mut_slice())? {
        return Ok("a new device finds another length");
    }
    if bytes.as_slice() != left.bytes.as_slice() {
        return Ok("a new device finds other bytes");
    }
    Ok("")
}

// Whether these are the same blobs.
fn are_same(some: &[Left], other: &[Left]) -> bool {
    some.len() == other.len()
        && some.iter().all(|one| {
            other.iter().any(|two| {
                one.partition.as_str() == two.partition.as_str()
                    && one.name.as_slice() == two.name.as_slice()
                    && one.bytes.as_slice() == two.bytes.as_slice()
            })
        })
}
