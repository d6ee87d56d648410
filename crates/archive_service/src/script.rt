// From the bytes of a script to its commands.
ghost use Rattle.std.specs.Prelude.{◌≡◌, ◌≢◌, ◌++◌, ◌∷◌, ℕ, map, IfOk, IfSome, IfNone};
ghost use Rattle.std.specs.List.{AllByRecursion};
ghost use Rattle.std.specs.Option.{option_map};
ghost use Rattle.archives.specs.Machine.{asked};
ghost use Rattle.value_codec.specs.Keys.{key8_bytes};
ghost use Rattle.archive_service.specs.PuttingNames.{command_of, name_of};
ghost use Rattle.archive_service.specs.Reading.{IsCounted, IsKeyed, IsRecord, IsCommandOf, IsDouble, IsFirstLine, IsLone, IsLongOf, IsReading, IsShort, ReadsScript, counted_text, keyed_text, record_text};
ghost use Rattle.archive_service.specs.ReadingLaws.{IsExactReading};
ghost use Rattle.archive_service.specs.Texts.{Spelled, line_of};
ghost use Rattle.archive_service.specs.declared.script.ScriptError.TheVariants.{Mem};

use crate::words::{count_of, cut, index_of, key_of, value_of};
use archives::Command;
use std::alloc::{AllocError, AllocFailed, Global};
use std::marker::Model;
use value_codec::{ByteValue, Key8};

/// Why bytes are not read as a script.
#[derive(Clone, Copy, Debug, PartialEq, Eq, thiserror::Error)]
pub enum ScriptError {
    /// This line, counted from 1, is the first that is no command, or has no LF behind it.
    #[error("line {0} is no command")]
    Line(u64),
    /// There was no memory.
    #[error("there was no memory")]
    Mem,
}

impl From<AllocError> for ScriptError {
    ghost from_gives = { λ _ e. e ≡ Mem };

    fn from(_e: AllocError) -> ScriptError {
        ScriptError::Mem
    }
}

impl<T: Drop> From<AllocFailed<T>> for ScriptError {
    ghost from_gives = { λ _ e. e ≡ Mem };

    fn from(_e: AllocFailed<T>) -> ScriptError {
        ScriptError::Mem
    }
}

/// The commands of a script. A contract sees them with the bytes of their keys and values.
#[derive(Debug, Drop)]
pub struct Script {
    // in the order of their lines
    commands: Vec<Command<Key8, ByteValue>>,
}

impl Model for Script {
    ghost use Rattle.std.specs.Prelude.{List, ℕ, map};
    ghost use Rattle.archives.specs.Commands.{Command};
    ghost use Rattle.archives.specs.Machine.{asked};
    ghost use Rattle.value_codec.specs.Keys.{key8_bytes};

    ghost Value = { List (Command (List ℕ)) };

    ghost view = { λ s. map (asked key8_bytes (λ v. v)) s.commands.items };
}

impl Script {
    /// The script of these commands.
    pub(crate) fn from_vec(commands: Vec<Command<Key8, ByteValue>>) -> Script
        ensures { result ≡ map (asked key8_bytes (λ v. v)) commands.items }
    {
        Script { commands }
    }

    /// The commands, in the order of their lines.
    pub fn as_slice(&self) -> &[Command<Key8, ByteValue>]
        ensures { map (asked key8_bytes (λ v. v)) result.now ≡ self.now }
    {
        self.commands.as_slice()
    }
}

/// Reads a script of lines, each ended by LF, whose values have at most `max_value` bytes.
pub fn read_script(alloc: Global, bytes: &[u8], max_value: u32) -> Result<Script, ScriptError>
    ensures { ReadsScript max_value bytes.now result }
{
    let mut commands = Vec::new(alloc);
    let mut rest = bytes;
    while !rest.is_empty() {
        match first_command(alloc, rest, max_value)? {
            Some((command, behind)) => {
                commands.push(command)?;
                rest = behind;
            }
            None => return Err(ScriptError::Line(commands.len() as u64 + 1)),
        }
    }
    Ok(Script { commands })
}

/// The command whose line the text begins with, and what stands behind that line.
fn first_command(
    alloc: Global,
    text: &[u8],
    max_value: u32,
) -> Result<Option<(Command<Key8, ByteValue>, &[u8])>, AllocError>
    ensures { IfOk result (λ found. IsFirstLine max_value text.now (option_map (λ x.
        (asked key8_bytes (λ v. v) x.0, x.1.now)) found)) }
{
    let Some((line, rest)) = cut(text, b'\n') else {
        return Ok(None);
    };
    let Some(command) = command_of(alloc, line, max_value)? else {
        return Ok(None);
    };
    Ok(Some((command, rest)))
}

/// The command that a line says.
fn command_of(
    alloc: Global,
    line: &[u8],
    max_value: u32,
) -> Result<Option<Command<Key8, ByteValue>>, AllocError>
    ensures { IfOk result (λ found. IsCommandOf max_value line.now (option_map (asked key8_bytes
        (λ v. v)) found)) }
{
    let Some((name, words)) = cut(line, b' ') else {
        return Ok(lone_command(line));
    };
    if let Some(command) = short_command(name, words) {
        return Ok(Some(command));
    }
    if let Some(command) = double_command(name, words) {
        return Ok(Some(command));
    }
    put_command(alloc, name, words, max_value)
}

/// The command that one word says.
fn lone_command(word: &[u8]) -> Option<Command<Key8, ByteValue>>
    ensures found { IfSome result (λ command. IsLone (asked key8_bytes (λ v. v) command)
        × (word.now ≡ line_of (asked key8_bytes (λ v. v) command))) }
    ensures none { IfNone result ((command : Spelled) → IsLone command → word.now ≢ line_of command) }
{
    if word == b"sync".as_slice() {
        Some(Command::Sync)
    } else if word == b"start".as_slice() {
        Some(Command::Start)
    } else if word == b"reopen".as_slice() {
        Some(Command::Reopen)
    } else if word == b"ranges".as_slice() {
        Some(Command::Ranges)
    } else if word == b"first".as_slice() {
        Some(Command::First)
    } else if word == b"last".as_slice() {
        Some(Command::Last)
    } else if word == b"destroy".as_slice() {
        Some(Command::Destroy)
    } else {
        None
    }
}

/// The command that a name and one word behind it say.
fn short_command(name: &[u8], word: &[u8]) -> Option<Command<Key8, ByteValue>>
    ensures found { IfSome result (λ command. IsShort (asked key8_bytes (λ v. v) command)
        × (name.now ++ 32 ∷ word.now ≡ line_of (asked key8_bytes (λ v. v) command))) }
    ensures none { IfNone result ((command : Spelled) → IsShort command
        → name.now ++ 32 ∷ word.now ≢ line_of command) }
{
    if name == b"get".as_slice() {
        Some(Command::Get(index_of(word)?))
    } else if name == b"has".as_slice() {
        Some(Command::Has(index_of(word)?))
    } else if name == b"getk".as_slice() {
        Some(Command::GetKey(key_of(word)?))
    } else if name == b"hask".as_slice() {
        Some(Command::HasKey(key_of(word)?))
    } else if name == b"gap".as_slice() {
        Some(Command::Gap(index_of(word)?))
    } else if name == b"rangesfrom".as_slice() {
        Some(Command::RangesFrom(index_of(word)?))
    } else if name == b"prune".as_slice() {
        Some(Command::Prune(index_of(word)?))
    } else if name == b"all".as_slice() {
        Some(Command::All(index_of(word)?))
    } else {
        None
    }
}

/// The command that a name and two words behind it say.
fn double_command(name: &[u8], words: &[u8]) -> Option<Command<Key8, ByteValue>>
    ensures found { IfSome result (λ command. IsDouble (asked key8_bytes (λ v. v) command)
        × (name.now ++ 32 ∷ words.now ≡ line_of (asked key8_bytes (λ v. v) command))) }
    // A name with a space in it would be a name and a word.
    ensures none { AllByRecursion (λ b. b ≢ 32) name.now
        → IfNone result ((command : Spelled) → IsDouble command
        → name.now ++ 32 ∷ words.now ≢ line_of command) }
{
    if name == b"missing".as_slice() {
        let (index, count) = counted_of(words)?;
        Some(Command::Missing(index, count))
    } else if name == b"hasat".as_slice() {
        let (index, key) = keyed_of(words)?;
        Some(Command::HasAt(index, key))
    } else {
        None
    }
}

/// The index and the number of indices that two words say.
fn counted_of(words: &[u8]) -> Option<(u64, u32)>
    ensures { IsReading IsCounted counted_text words.now result }
{
    let (index, count) = cut(words, b' ')?;
    Some((index_of(index)?, count_of(count)?))
}

/// The index and the key that two words say.
fn keyed_of(words: &[u8]) -> Option<(u64, Key8)>
    ensures { IsReading IsKeyed keyed_text words.now
        (option_map (λ r. (r.0, key8_bytes r.1)) result) }
{
    let (index, key) = cut(words, b' ')?;
    Some((index_of(index)?, key_of(key)?))
}

/// The put that a name and the words behind it say.
fn put_command(
    alloc: Global,
    name: &[u8],
    words: &[u8],
    max_value: u32,
) -> Result<Option<Command<Key8, ByteValue>>, AllocError>
    ensures found { IfOk result (λ found. IfSome found (λ command. IsLongOf max_value
        (asked key8_bytes (λ v. v) command) × (name.now ++ 32 ∷ words.now
        ≡ line_of (asked key8_bytes (λ v. v) command)))) }
    // A name with a space in it would be a name and a word.
    ensures none { AllByRecursion (λ b. b ≢ 32) name.now
        → IfOk result (λ found. IfNone found ((command : Spelled) → IsLongOf max_value command
        → name.now ++ 32 ∷ words.now ≢ line_of command)) }
{
    let Some(make) = Putting::named(name) else {
        return Ok(None);
    };
    match record_of(alloc, words, max_value)? {
        Some((index, key, value)) => Ok(Some(make.command(index, key, value))),
        None => Ok(None),
    }
}

/// The ways to put a record.
#[derive(Clone, Copy, Debug, PartialEq, Eq)]
enum Putting {
    Put,
    PutSync,
    PutStart,
    Multi,
    MultiSync,
    MultiStart,
}

impl Putting {
    /// The way of this name.
    fn named(name: &[u8]) -> Option<Putting>
        ensures found { IfSome result (λ putting. name.now ≡ name_of putting) }
        ensures none { IfNone result ((putting : _) → name.now ≢ name_of putting) }
    {
        if name == b"put".as_slice() {
            Some(Putting::Put)
        } else if name == b"putsync".as_slice() {
            Some(Putting::PutSync)
        } else if name == b"putstart".as_slice() {
            Some(Putting::PutStart)
        } else if name == b"multi".as_slice() {
            Some(Putting::Multi)
        } else if name == b"multisync".as_slice() {
            Some(Putting::MultiSync)
        } else if name == b"multistart".as_slice() {
            Some(Putting::MultiStart)
        } else {
            None
        }
    }

    /// The command that puts this record so.
    fn command(self, index: u64, key: Key8, value: ByteValue) -> Command<Key8, ByteValue>
        ensures { asked key8_bytes (λ v. v) result ≡ command_of self index (key8_bytes key) value }
    {
        match self {
            Putting::Put => Command::Put(index, key, value),
            Putting::PutSync => Command::PutSync(index, key, value),
            Putting::PutStart => Command::PutStart(index, key, value),
            Putting::Multi => Command::Multi(index, key, value),
            Putting::MultiSync => Command::MultiSync(index, key, value),
            Putting::MultiStart => Command::MultiStart(index, key, value),
        }
    }
}

/// The index, the key and the value that three words say.
fn record_of(
    alloc: Global,
    words: &[u8],
    max_value: u32,
) -> Result<Option<(u64, Key8, ByteValue)>, AllocError>
    ensures { IfOk result (λ found. IsReading (IsRecord max_value) record_text words.now (option_map
        (λ r. (r.0, key8_bytes r.1, r.2)) found)) }
{
    let Some((index, words)) = cut(words, b' ') else {
        return Ok(None);
    };
    let Some((key, value)) = cut(words, b' ') else {
        return Ok(None);
    };
    let Some(index) = index_of(index) else {
        return Ok(None);
    };
    let Some(key) = key_of(key) else {
        return Ok(None);
    };
    let Some(value) = value_of(alloc, value, max_value)? else {
        return Ok(None);
    };
    Ok(Some((index, key, value)))
}

/// What makes the answers of [`read_script`] exact. A text spells at most one script; one that spells a script has no
/// bad line; there is one first bad line; and each command can be said.
pub fn reading_is_exact()
    ensures { IsExactReading }
{}
