// What the plain lists do not say themselves.

use crate::both::{PER_SECTION, SECTIONS};
use record_tables::plain::Row;

/// Whether one record more has room in the section, beside these.
pub fn has_room(rows: &[Row<u64>], section: u64) -> bool {
    let in_section = rows.iter().filter(|row| row.section == section).count();
    if in_section > 0 {
        return (in_section as u64) < PER_SECTION;
    }
    let mut sections: u32 = 0;
    for (at, row) in rows.iter().enumerate() {
        let mut before = rows[..at].iter();
        if before.all(|other| other.section != row.section) {
            sections = sections.saturating_add(1);
        }
    }
    sections < SECTIONS
}
