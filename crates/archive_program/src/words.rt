// The words with which the program is called.
ghost use Rattle.std.specs.Prelude.{ℕ, map, string_bytes, IfNone, IfSome};
ghost use Rattle.archive_program.specs.Words.{AreItems, IsNumberTo};
ghost use Rattle.archive_program.specs.WordsSeen.{FindsJob};

use archive_service::index_of;

/// The most indices that a section may have room for.
pub const ITEMS_LIMIT: u64 = 1 << 20;

/// The most records that a generated script may put.
pub const MADE_LIMIT: u64 = 100_000;

/// What the program is asked for.
#[derive(Clone, Copy, Debug, PartialEq, Eq)]
pub enum Job {
    /// To serve the script on its input, with so many indices to a section.
    Script(u64),
    /// To serve a script that it generates, with so many indices to a section, of so many records.
    Make(u64, u32),
}

/// The job that the words `DIR prunable ITEMS`, or these with `make N` behind them, ask for.
pub fn job_of(words: &[String]) -> Option<Job>
    ensures { FindsJob (map string_bytes words.now) result }
{
    match words {
        [folder, kind, items] => Some(Job::Script(items_of(folder, kind, items)?)),
        [folder, kind, items, make, count] => {
            let items = items_of(folder, kind, items)?;
            if make.as_str() != "make" {
                return None;
            }
            Some(Job::Make(items, number_to(count, MADE_LIMIT)? as u32))
        }
        _ => None,
    }
}

// The number of indices per section that three words ask for.
fn items_of(folder: &String, kind: &String, items: &String) -> Option<u64>
    ensures asked { IfSome result (AreItems (string_bytes folder.now) (string_bytes kind.now)
        (string_bytes items.now)) }
    ensures refused { IfNone result ((n : ℕ) → AreItems (string_bytes folder.now)
        (string_bytes kind.now) (string_bytes items.now) n → ⊥) }
{
    if folder.is_empty() || kind.as_str() != "prunable" {
        return None;
    }
    number_to(items, ITEMS_LIMIT)
}

// A number from 1 up to a limit.
fn number_to(word: &String, limit: u64) -> Option<u64>
    ensures is { IfSome result (IsNumberTo limit (string_bytes word.now)) }
    ensures none { IfNone result ((n : ℕ) → IsNumberTo limit (string_bytes word.now) n → ⊥) }
{
    let number = index_of(word.as_bytes())?;
    if number < 1 || number > limit {
        return None;
    }
    Some(number)
}
