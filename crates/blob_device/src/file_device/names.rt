// Where a blob stands on a file system: a partition is a folder below the root, and a blob is a file in it, whose name is
// the lower-case hexadecimal of the blob's name.
ghost use Rattle.std.specs.Prelude.{◌≡◌, true, false, Err, OnOk};
ghost use Rattle.std.specs.List.{list_all};
ghost use Rattle.blob_device.specs.FolderNames.{is_folder_byte, is_folder_name};

use crate::file_device::stop::Stop;
use hex::FromHexError;
use std::alloc::{AllocError, Global};

/// The file below the root that a device which has the folder alone keeps open and locked. No partition has such a name.
pub const LOCK_NAME: &str = "LOCK";

fn is_folder_byte(byte: u8) -> bool
    ensures { result ≡ is_folder_byte byte }
{
    matches!(byte, b'a'..=b'z' | b'0'..=b'9' | b'_' | b'-')
}

fn has_folder_bytes(name: &[u8]) -> bool
    ensures { result ≡ list_all is_folder_byte name.now }
{
    name.iter().all(|byte| is_folder_byte(*byte))
}

fn is_folder_name(name: &[u8]) -> bool
    ensures { result ≡ is_folder_name name.now }
{
    1 <= name.len() && name.len() <= 64 && has_folder_bytes(name)
}

/// The path of this name in the folder.
pub fn joined(alloc: Global, folder: &str, name: &str) -> Result<String, AllocError> {
    let mut path = String::from_str(alloc, folder)?;
    path.push('/')?;
    path.push_str(name)?;
    Ok(path)
}

/// Refuses a partition that no folder can be named after: the name has 1 to 64 of the characters a to z, 0 to 9, `_` and `-`.
pub fn check_folder_name(partition: &str) -> Result<(), Stop>
    ensures folder { OnOk result (is_folder_name partition.now ≡ true) }
    ensures bad { is_folder_name partition.now ≡ false → result ≡ Err Stop.BadPartition }
{
    if is_folder_name(partition.as_bytes()) {
        Ok(())
    } else {
        Err(Stop::BadPartition)
    }
}

/// The file of a blob in its partition's folder.
pub fn file_path(alloc: Global, folder: &str, name: &[u8]) -> Result<String, AllocError> {
    let file = hex::encode(alloc, name)?;
    joined(alloc, folder, file.as_str())
}

/// The name of the blob whose file has this name, or None where it is no blob's.
pub fn blob_name(alloc: Global, file: &str) -> Result<Option<Vec<u8>>, AllocError> {
    if file.bytes().any(|byte| byte.is_ascii_uppercase()) {
        return Ok(None);
    }
    match hex::decode(alloc, file) {
        Ok(name) => Ok(Some(name)),
        Err(FromHexError::OutOfMemory) => Err(AllocError),
        Err(_) => Ok(None),
    }
}
