// The words by which a scenario names an error of an archive.
use archives::Error;
use scenario_errors::{JournalWords, MapWords};
use std::fmt;

/// The words for an error of an archive.
#[derive(Clone, Copy)]
pub struct ErrorWords<'a>(pub &'a Error);

impl fmt::Display for ErrorWords<'_> {
    fn fmt<W: fmt::Write>(&self, f: &mut fmt::Formatter<W>) -> fmt::Result {
        let ErrorWords(error) = *self;
        match error {
            Error::Journal(inner) => write!(f, "journal {}", JournalWords(inner)),
            Error::Metadata(inner) => write!(f, "metadata {}", MapWords(*inner)),
            Error::RecordCorrupted => f.write_str("record-corrupted"),
            Error::Full => f.write_str("full"),
            Error::Mem => f.write_str("memory"),
        }
    }
}
