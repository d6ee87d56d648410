// What bytes hold of records, read plainly.

/// How many bytes the records have that these bytes begin with, whole and in their order.
pub fn whole(records: &[Vec<u8>], bytes: &[u8]) -> usize {
    let mut rest = bytes;
    for record in records {
        match rest.strip_prefix(record.as_slice()) {
            Some(behind) => rest = behind,
            None => break,
        }
    }
    bytes.len().saturating_sub(rest.len())
}
