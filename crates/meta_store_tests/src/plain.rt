// What two blobs hold, read plainly: keys and values of eight bytes, so each entry has twenty.
use blob_device::Image;
use std::alloc::{AllocError, Global};
use value_codec::{Seal, Sha256Seal};

/// Keys and values, in ascending order of the keys.
pub type Entries = Vec<(u64, u64)>;

/// How the bytes of one blob read.
#[derive(Drop)]
enum Text {
    Absent,
    Refused,
    Whole(Copy),
}

/// A copy of a map.
#[derive(Drop)]
struct Copy {
    // The number by which the newer copy is known.
    version: u64,
    // What it names, or 0 where its form names none.
    floor: u64,
    // As they stand in it.
    entries: Entries,
}

/// What an image holds.
#[derive(Drop)]
pub struct Held {
    /// The version of the newer copy; none where there is no copy, or one is refused.
    pub version: Option<u64>,
    /// Its floor, or 0.
    pub floor: u64,
    /// The entries, or why there are none to be had.
    pub entries: String,
}

/// The number in these bytes, the highest first. Bytes that are not there count nothing.
pub fn number(bytes: Option<&[u8]>) -> u64 {
    let mut n = 0_u64;
    for byte in bytes.unwrap_or(b"") {
        n = n.wrapping_mul(256).wrapping_add(u64::from(*byte));
    }
    n
}

/// Entries in plain text.
pub fn text_of(alloc: Global, entries: &[(u64, u64)]) -> Result<String, AllocError> {
    let mut text = String::new(alloc);
    for (key, value) in entries {
        let space = if text.is_empty() { "" } else { " " };
        write!(&mut text, "{space}{key}={value}")?;
    }
    if text.is_empty() {
        text.push_str("no entry")?;
    }
    Ok(text)
}

/// The entries that a body spells: a count, and entries whose keys ascend.
fn entries_in(alloc: Global, body: &[u8]) -> Result<Option<Entries>, AllocError> {
    let spelled = body.get(8..).unwrap_or(b"");
    let count = spelled.len() as u64 / 20;
    let whole = body.len() >= 8 && spelled.len() % 20 == 0 && count == number(body.get(0..8));
    if !whole {
        return Ok(None);
    }
    let mut entries: Entries = Vec::new(alloc);
    for entry in spelled.chunks(20) {
        let key = number(entry.get(0..8));
        let ascends = match entries.last() {
            Some(last) => last.0 < key,
            None => true,
        };
        if !ascends || number(entry.get(8..12)) != 8 {
            return Ok(None);
        }
        entries.push((key, number(entry.get(12..20))))?;
    }
    Ok(Some(entries))
}

/// How these bytes read: a version, a form, the body's length, the body, and a seal over it all.
fn text_in(alloc: Global, bytes: &[u8]) -> Result<Text, AllocError> {
    let form = number(bytes.get(8..9));
    let start = if form == 2 { 25_usize } else { 17_usize };
    let end = number(bytes.get(start.saturating_sub(8)..start)).saturating_add(start as u64);
    let behind = end.saturating_add(4);
    if bytes.len() < start || behind > bytes.len() as u64 {
        return Ok(Text::Absent);
    }
    let head = bytes.get(..end as usize).unwrap_or(b"");
    if u64::from(Sha256Seal::seal(head)) != number(bytes.get(end as usize..behind as usize)) {
        return Ok(Text::Absent);
    }
    let version = number(head.get(0..8));
    let floor = if form == 2 {
        number(head.get(9..17))
    } else {
        0
    };
    let known = form == 1 || floor > 0;
    match entries_in(alloc, head.get(start..).unwrap_or(b""))? {
        Some(entries) if known => Ok(Text::Whole(Copy {
            version,
            floor,
            entries,
        })),
        _ => Ok(Text::Refused),
    }
}

/// What the blobs `left` and `right` of the partition `p` hold.
pub fn reading(alloc: Global, image: &Image) -> Result<Held, AllocError> {
    let left = text_in(alloc, image.blob("p", b"left").unwrap_or(b""))?;
    let right = text_in(alloc, image.blob("p", b"right").unwrap_or(b""))?;
    let newer = match (left, right) {
        (Text::Refused, _) => return refused(alloc, "corruption left"),
        (_, Text::Refused) => return refused(alloc, "corruption right"),
        (Text::Absent, Text::Absent) => return refused(alloc, "no entry"),
        (Text::Whole(copy), Text::Absent) => copy,
        (Text::Absent, Text::Whole(copy)) => copy,
        (Text::Whole(left), Text::Whole(right)) => {
            if left.version == right.version {
                return refused(alloc, "corruption right");
            }
            if left.version < right.version {
                right
            } else {
                left
            }
        }
    };
    Ok(Held {
        version: Some(newer.version),
        floor: newer.floor,
        entries: text_of(alloc, &newer.entries)?,
    })
}

/// An image without a copy that counts.
fn refused(alloc: Global, why: &str) -> Result<Held, AllocError> {
    Ok(Held {
        version: None,
        floor: 0,
        entries: String::from_str(alloc, why)?,
    })
}
