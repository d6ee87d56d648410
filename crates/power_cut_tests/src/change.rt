// Changes of files and folders, and which of those that were not synced a power cut keeps.
use blob_device::CrashChoice;
use std::alloc::AllocError;

/// A change of a file: bytes that were written from an offset on, or the length that it was given.
#[derive(Drop)]
pub struct FileChange {
    /// How many changes the disk had before: a mixed power cut goes by it.
    pub number: u64,
    /// Where the bytes begin.
    pub offset: usize,
    /// What was written; empty where only the length was changed.
    pub bytes: Vec<u8>,
    /// The length that was given; none for a write.
    pub len: Option<usize>,
}

/// A name in a folder, and the number of what it names.
#[derive(Drop)]
pub struct Named {
    /// The name, without a folder.
    pub name: String,
    /// What it names, by its number on the disk.
    pub node: usize,
}

/// A change of a folder: a name that now names this number, or nothing.
#[derive(Drop)]
pub struct NameChange {
    /// How many changes the disk had before: a mixed power cut goes by it.
    pub number: u64,
    /// The name, without a folder.
    pub name: String,
    /// What it names from now on; none where it is removed.
    pub node: Option<usize>,
}

/// Whether a power cut keeps a change of this number that was not synced.
pub fn is_kept(choice: CrashChoice, number: u64) -> bool {
    match choice {
        CrashChoice::Settled => false,
        CrashChoice::AsRead => true,
        CrashChoice::Mixed(bits) => (bits >> (number % 64)) % 2 == 1,
    }
}

/// Makes of a file what a power cut keeps of a change: its length by the change's number, and byte j of it by that number and j.
pub fn apply(
    bytes: &mut Vec<u8>,
    change: &FileChange,
    choice: CrashChoice,
) -> Result<(), AllocError> {
    let end = change.offset.saturating_add(change.bytes.len());
    let len = change.len.unwrap_or(end.max(bytes.len()));
    if is_kept(choice, change.number) {
        bytes.resize(len, 0)?;
    }
    for (j, byte) in change.bytes.iter().enumerate() {
        if is_kept(choice, change.number.saturating_add(j as u64))
            && let Some(place) = bytes.get_mut(change.offset.saturating_add(j))
        {
            *place = *byte;
        }
    }
    Ok(())
}

/// Gives a name to what the change says.
pub fn apply_name(names: &mut Vec<Named>, change: &NameChange) -> Result<(), AllocError> {
    names.retain(|named| named.name.as_str() != change.name.as_str());
    if let Some(node) = change.node {
        names.push(Named {
            name: change.name.clone()?,
            node,
        })?;
    }
    Ok(())
}
