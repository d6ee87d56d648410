// The commands of any device, over a blob that is open or none.
ghost use Rattle.std.specs.Prelude.{◌≡◌, ◌≢◌, ◌<◌, ◌^◌, length, IfOk, IfSome, string_bytes};
ghost use Rattle.blob_device.specs.Disk.{Key};
ghost use Rattle.blob_device_tests.specs.Holding.{IsHeld, key_of};

use blob_device::{DevError, Device};
use scenario_text::Step;
use std::alloc::{AllocError, Global};

/// A blob that is open, and a length that it has at least.
#[derive(Drop)]
pub struct Held {
    /// Its partition,
    pub partition: String,
    /// and its name there.
    pub name: Vec<u8>,
    /// No change of the scenario has made it shorter.
    pub len: u64,
}

/// The partition that a step names.
pub fn partition(step: &Step) -> &str {
    match step.argument(0) {
        "\"\"" => "",
        name => name,
    }
}

/// The word for a refusal.
pub fn word_of(error: DevError) -> &'static str {
    match error {
        DevError::Fault => "runtime fault",
        DevError::Mem => "memory",
    }
}

/// What a call says that answers nothing.
pub fn told(alloc: Global, done: Result<(), DevError>) -> Result<String, AllocError> {
    match done {
        Ok(()) => String::from_str(alloc, "ok"),
        Err(e) => String::from_str(alloc, word_of(e)),
    }
}

/// Bytes in hexadecimal, or `-`.
pub fn hex_of(alloc: Global, bytes: &[u8]) -> Result<String, AllocError> {
    let mut text = String::new(alloc);
    for byte in bytes {
        write!(&mut text, "{byte:02x}")?;
    }
    if text.is_empty() {
        text.push('-')?;
    }
    Ok(text)
}

/// Carries out a step. The answer is the blob that is open then, and what the step says.
pub fn carried_out<D: Device>(
    alloc: Global,
    dev: &mut D,
    held: Option<Held>,
    step: &Step,
) -> Result<(Option<Held>, String), DevError>
    requires { IfSome held (λ h. IsHeld h (D.opened dev.old)) }
    ensures { IfOk result (λ r. IfSome r.0 (λ h. IsHeld h (D.opened dev.new))) }
{
    match (step.word(), held) {
        ("open", _) => open(alloc, dev, step),
        ("remove", _) => Ok((None, removed(alloc, dev, step)?)),
        ("scan", held) => Ok((held, scanned(alloc, dev, step)?)),
        ("calls", held) => Ok((held, format!(in alloc; "{}", dev.calls())?)),
        (_, None) => Ok((None, String::from_str(alloc, "refused: not open")?)),
        ("write", Some(held)) => write(alloc, dev, held, step),
        ("read", Some(held)) => read(alloc, dev, held, step),
        ("besides", Some(held)) => besides(alloc, dev, held, step),
        (_, Some(held)) => settle(alloc, dev, held, step),
    }
}

/// Opens the blob that the step names.
fn open<D: Device>(
    alloc: Global,
    dev: &mut D,
    step: &Step,
) -> Result<(Option<Held>, String), DevError>
    ensures { IfOk result (λ r. IfSome r.0 (λ h. IsHeld h (D.opened dev.new))) }
{
    let name = step.bytes(alloc, 1)?.unwrap_or(Vec::new(alloc));
    let partition = String::from_str(alloc, partition(step))?;
    match dev.open_blob(partition.as_str(), &name) {
        Ok(len) => {
            let said = format!(in alloc; "{len}")?;
            Ok((
                Some(Held {
                    partition,
                    name,
                    len,
                }),
                said,
            ))
        }
        Err(e) => Ok((None, String::from_str(alloc, word_of(e))?)),
    }
}

/// Removes the blob that the step names.
fn removed<D: Device>(alloc: Global, dev: &mut D, step: &Step) -> Result<String, DevError> {
    let name = step.bytes(alloc, 1)?.unwrap_or(Vec::new(alloc));
    Ok(told(alloc, dev.remove(partition(step), &name))?)
}

/// The names in a partition.
fn scanned<D: Device>(alloc: Global, dev: &mut D, step: &Step) -> Result<String, DevError>
    ensures { D.opened dev.new ≡ D.opened dev.old }
{
    let names = match dev.scan(alloc, partition(step)) {
        Ok(names) => names,
        Err(e) => return Ok(String::from_str(alloc, word_of(e))?),
    };
    let mut said = String::new(alloc);
    for i in 0..names.len() {
        let name = hex_of(alloc, names.get(i).unwrap_or(b""))?;
        let space = if i == 0 { "" } else { " " };
        write!(&mut said, "{space}{}", name.as_str())?;
    }
    if said.is_empty() {
        said.push_str("none")?;
    }
    Ok(said)
}

/// Writes bytes into the blob.
fn write<D: Device>(
    alloc: Global,
    dev: &mut D,
    held: Held,
    step: &Step,
) -> Result<(Option<Held>, String), DevError>
    requires { IsHeld held (D.opened dev.old) }
    ensures { IfOk result (λ r. IfSome r.0 (λ h. IsHeld h (D.opened dev.new))) }
{
    let bytes = step.bytes(alloc, 1)?.unwrap_or(Vec::new(alloc));
    let offset = step.number(0).unwrap_or(0);
    let Some(end) = offset.checked_add(bytes.len() as u64) else {
        return Ok((Some(held), String::from_str(alloc, "refused: too far")?));
    };
    match dev.write_at(held.partition.as_str(), &held.name, offset, &bytes) {
        Ok(()) => {
            let len = held.len.max(end);
            Ok((Some(Held { len, ..held }), String::from_str(alloc, "ok")?))
        }
        Err(e) => Ok((Some(held), String::from_str(alloc, word_of(e))?)),
    }
}

/// Reads bytes of the blob.
fn read<D: Device>(
    alloc: Global,
    dev: &mut D,
    held: Held,
    step: &Step,
) -> Result<(Option<Held>, String), DevError>
    requires { IsHeld held (D.opened dev.old) }
    ensures { IfOk result (λ r. IfSome r.0 (λ h. IsHeld h (D.opened dev.new))) }
{
    let offset = step.number(0).unwrap_or(0);
    let count = step.number(1).unwrap_or(0);
    if offset > held.len || count > held.len - offset {
        return Ok((Some(held), String::from_str(alloc, "refused: too far")?));
    }
    let mut bytes = vec![in alloc; 0_u8; count as usize]?;
    match dev.read_at(
        held.partition.as_str(),
        &held.name,
        offset,
        bytes.as_mut_slice(),
    ) {
        Ok(()) => Ok((Some(held), hex_of(alloc, &bytes)?)),
        Err(e) => Ok((Some(held), String::from_str(alloc, word_of(e))?)),
    }
}

/// Cuts or extends the blob, or settles it.
fn settle<D: Device>(
    alloc: Global,
    dev: &mut D,
    held: Held,
    step: &Step,
) -> Result<(Option<Held>, String), DevError>
    requires { IsHeld held (D.opened dev.old) }
    ensures { IfOk result (λ r. IfSome r.0 (λ h. IsHeld h (D.opened dev.new))) }
{
    match (step.word(), step.number(0)) {
        ("resize", Some(len)) => match dev.resize(held.partition.as_str(), &held.name, len) {
            Ok(()) => Ok((Some(Held { len, ..held }), String::from_str(alloc, "ok")?)),
            Err(e) => Ok((None, String::from_str(alloc, word_of(e))?)),
        },
        ("sync", _) => {
            let done = dev.sync(held.partition.as_str(), &held.name);
            Ok((Some(held), told(alloc, done)?))
        }
        _ => Ok((
            Some(held),
            String::from_str(alloc, "refused: no such command")?,
        )),
    }
}

/// Opens, writes and settles another blob than the one that is open.
fn besides<D: Device>(
    alloc: Global,
    dev: &mut D,
    held: Held,
    step: &Step,
) -> Result<(Option<Held>, String), DevError>
    requires { IsHeld held (D.opened dev.old) }
    ensures { IfOk result (λ r. IfSome r.0 (λ h. IsHeld h (D.opened dev.new))) }
{
    let name = step.bytes(alloc, 1)?.unwrap_or(Vec::new(alloc));
    let bytes = step.bytes(alloc, 2)?.unwrap_or(Vec::new(alloc));
    if held.name.as_slice() == name.as_slice() {
        return Ok((Some(held), String::from_str(alloc, "refused: it is open")?));
    }
    let done = written(dev, partition(step), &name, &bytes);
    Ok((Some(held), told(alloc, done)?))
}

/// Opens, writes and settles a blob.
fn written<D: Device>(
    dev: &mut D,
    partition: &str,
    name: &[u8],
    bytes: &[u8],
) -> Result<(), DevError>
    ensures { (q : Key) → q ≢ (partition.now, name.now) → D.opened dev.new q ≡ D.opened dev.old q }
{
    dev.open_blob(partition, name)?;
    dev.write_at(partition, name, 0, bytes)?;
    dev.sync(partition, name)
}
