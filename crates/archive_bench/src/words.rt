// The words with which the benchmark is called.

use crate::error::BenchError;
use archive_service::index_of;

/// What is measured where no words say it.
pub const USUAL: [Plan<'static>; 6] = [
    Plan {
        folder: None,
        puts: 1000,
        sections: None,
        items: None,
    },
    Plan {
        folder: None,
        puts: 24_600,
        sections: Some(20),
        items: None,
    },
    Plan {
        folder: None,
        puts: 10_000,
        sections: None,
        items: Some(1_048_576),
    },
    Plan {
        folder: None,
        puts: 10_000,
        sections: None,
        items: Some(1024),
    },
    Plan {
        folder: None,
        puts: 100_000,
        sections: None,
        items: Some(1_048_576),
    },
    Plan {
        folder: None,
        puts: 100_000,
        sections: None,
        items: Some(1024),
    },
];

/// What is to be measured.
#[derive(Clone, Copy, Debug)]
pub struct Plan<'w> {
    /// The folder that keeps the archive; none where it is kept in memory.
    pub folder: Option<&'w str>,
    /// How many records are put.
    pub puts: u64,
    /// How many sections are held: the oldest ones are pruned as new ones begin. None where all are.
    pub sections: Option<u64>,
    /// For how many indices a section has room; then the records are looked up too. None where they are not, and
    /// a section has the usual room.
    pub items: Option<u64>,
}

/// What the words behind the program's name ask for: `DIR PUTS`, or these with SECTIONS behind them, or with
/// `look` and ITEMS.
pub fn plan_of(words: &[String]) -> Result<Plan<'_>, BenchError> {
    match words {
        [folder, puts] if !folder.is_empty() => Ok(Plan {
            folder: folder_of(folder.as_str()),
            puts: number_of(puts)?,
            sections: None,
            items: None,
        }),
        [folder, puts, look, items] if !folder.is_empty() && look.as_str() == "look" => Ok(Plan {
            folder: folder_of(folder.as_str()),
            puts: number_of(puts)?,
            sections: None,
            items: Some(number_of(items)?.max(1)),
        }),
        [folder, puts, sections] if !folder.is_empty() => Ok(Plan {
            folder: folder_of(folder.as_str()),
            puts: number_of(puts)?,
            sections: Some(number_of(sections)?.max(1)),
            items: None,
        }),
        _ => Err(BenchError::Usage),
    }
}

fn number_of(word: &String) -> Result<u64, BenchError> {
    index_of(word.as_bytes()).ok_or(BenchError::Usage)
}

// The folder that this word names; none for `-`.
fn folder_of(word: &str) -> Option<&str> {
    match word {
        "-" => None,
        folder => Some(folder),
    }
}
