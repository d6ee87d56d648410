// The generated script, and the line that sums up its replies.
ghost use Rattle.std.specs.Prelude.{◌≡◌, ◌*◌, ◌^◌, ◌++◌, ◌==◌, if◌then◌else◌, [], List, IfOk, OnOk, codes, map, string_bytes};
ghost use Rattle.std.specs.Fmt.{decimal};
ghost use Rattle.std.specs.List.{flat_map, range_with_len};
ghost use Rattle.archives.specs.Changes.{Replied};
ghost use Rattle.archives.specs.Commands.{Get};
ghost use Rattle.archives.specs.Machine.{asked, replied};
ghost use Rattle.value_codec.specs.Keys.{key8_bytes};
ghost use Rattle.archive_service.specs.Made.{made_key, made_puts, made_tests, made_value, summary_text};
ghost use Rattle.archive_service.specs.MadeCounts.{AddsReply, AreCounted, AreUpTo, Makes};
ghost use Rattle.archive_service.specs.Texts.{number_text};
ghost use Rattle.archive_service.specs.Writing.{WritesText};

use crate::words::copied;
use crate::{Replies, Script, ScriptError};
use archives::{Command, Reply};
use std::alloc::{AllocError, Global};
use value_codec::{ByteValue, Key, Key8};

// Behind so many puts stands a sync.
const SYNC_EVERY: u32 = 100;

// The key of each record whose number this divides is asked for.
const TEST_EVERY: u32 = 1_000;

// Values have fewer bytes than this.
const VALUE_LENGTHS: u32 = 17;

type Commands = Vec<Command<Key8, ByteValue>>;

/// The script that puts `n` records, settles them, opens the archive again, and reads all of them.
pub fn make(alloc: Global, n: u32) -> Result<Script, ScriptError>
    ensures { Makes n result }
{
    let mut commands = Vec::new(alloc);
    add_puts(alloc, n, &mut commands)?;
    commands.push(Command::Sync)?;
    commands.push(Command::Reopen)?;
    add_gets(n, &mut commands)?;
    add_tests(n, &mut commands)?;
    commands.push(Command::Ranges)?;
    commands.push(Command::First)?;
    commands.push(Command::Last)?;
    Ok(Script::from_vec(commands))
}

fn key(i: u32) -> Key8
    ensures { key8_bytes result ≡ made_key i }
{
    match Key8::from_bytes(&u64::from(i).to_be_bytes()) {
        Some(key) => key,
        None => unreachable!(),
    }
}

fn value(alloc: Global, i: u32) -> Result<ByteValue, AllocError>
    ensures { IfOk result (λ v. v ≡ made_value i) }
{
    let bytes = vec![in alloc; (i % 256) as u8; (i % VALUE_LENGTHS) as usize]?;
    copied(alloc, bytes.as_slice())
}

fn add_puts(alloc: Global, n: u32, commands: &mut Commands) -> Result<(), AllocError>
    ensures { OnOk result (map (asked key8_bytes (λ v. v)) commands.new.items
        ≡ map (asked key8_bytes (λ v. v)) commands.old.items
        ++ flat_map made_puts (range_with_len 0 n)) }
{
    for i in 0..n {
        commands.push(Command::Put(u64::from(i) * 2, key(i), value(alloc, i)?))?;
        if (i + 1) % SYNC_EVERY == 0 {
            commands.push(Command::Sync)?;
        }
    }
    Ok(())
}

fn add_gets(n: u32, commands: &mut Commands) -> Result<(), AllocError>
    ensures { OnOk result (map (asked key8_bytes (λ v. v)) commands.new.items
        ≡ map (asked key8_bytes (λ v. v)) commands.old.items
        ++ map (λ i. Get (2 * i)) (range_with_len 0 n)) }
{
    for i in 0..n {
        commands.push(Command::Get(u64::from(i) * 2))?;
    }
    Ok(())
}

fn add_tests(n: u32, commands: &mut Commands) -> Result<(), AllocError>
    ensures { OnOk result (map (asked key8_bytes (λ v. v)) commands.new.items
        ≡ map (asked key8_bytes (λ v. v)) commands.old.items
        ++ flat_map made_tests (range_with_len 0 n)) }
{
    for i in 0..n {
        if i % TEST_EVERY == 0 {
            commands.push(Command::HasKey(key(i)))?;
        }
    }
    Ok(())
}

// What the replies to a generated script come to.
#[derive(Clone, Copy, Debug)]
struct Counts {
    // how many values were found
    values: u128,
    // how many times a key was there
    keys: u128,
    // how many runs of indices came
    ranges: u128,
    // how many bytes the values found have
    bytes: u128,
    // how many replies had an index, or none
    indices: u128,
    // what the first of these had
    first: Option<u64>,
    // what the last of these had
    last: Option<u64>,
}

impl Counts {
    fn none() -> Counts
        ensures { AreCounted result [] }
    {
        Counts {
            values: 0,
            keys: 0,
            ranges: 0,
            bytes: 0,
            indices: 0,
            first: None,
            last: None,
        }
    }

    // Counts one reply more.
    fn add(&mut self, reply: &Reply<ByteValue>)
        requires { AreUpTo (2 ^ 127) self.old }
        ensures { AddsReply self.old (replied (λ v. v) reply.now) self.new }
    {
        match reply {
            Reply::Value(found) => match found {
                Some(value) => {
                    self.values += 1;
                    self.bytes += value.as_bytes().len() as u128;
                }
                None => {}
            },
            Reply::Flag(true) => self.keys += 1,
            Reply::Ranges(runs) => self.ranges += runs.as_slice().len() as u128,
            Reply::Index(index) => {
                self.first = first_with(self.indices, self.first, *index);
                self.last = *index;
                self.indices += 1;
            }
            Reply::Done => {}
            Reply::Values(_) => {}
            Reply::Flag(false) => {}
            Reply::Gap(..) => {}
            Reply::Items(_) => {}
            Reply::Closed => {}
        }
    }
}

// The first of so many indices, with one more.
fn first_with(count: u128, first: Option<u64>, index: Option<u64>) -> Option<u64>
    ensures { result ≡ (if count == 0 then index else first) }
{
    if count == 0 { index } else { first }
}

// What all of these come to.
fn counted(replies: &[Reply<ByteValue>]) -> Counts
    ensures { AreCounted result (map (replied (λ v. v)) replies.now) }
{
    let mut counts = Counts::none();
    for reply in replies {
        counts.add(reply);
    }
    counts
}

/// Appends the line that sums up the replies to a script of `n` records, with its LF.
pub fn write_summary(
    n: u32,
    replies: &Replies<ByteValue>,
    out: &mut Vec<u8>,
) -> Result<(), ScriptError>
    ensures { WritesText result out.old.items
        (summary_text n (map (replied (λ v. v)) replies.now)) out.new.items }
{
    let line = summary_line(*out.allocator(), n, &counted(replies.as_slice()))?;
    out.extend_from_slice(line.as_bytes())?;
    Ok(())
}

// The line of these counts, with its LF.
fn summary_line(alloc: Global, n: u32, counts: &Counts) -> Result<String, AllocError>
    ensures { IfOk result (λ line. (replies : List Replied) → AreCounted counts.now replies
        → string_bytes line ≡ summary_text n replies) }
{
    let text = counts_text(alloc, n, counts)?;
    let first = number_word(alloc, counts.first)?;
    let last = number_word(alloc, counts.last)?;
    let line = format!(in alloc; "{text} first {first} last {last}\n")?;
    Ok(line)
}

// The line up to the indices.
fn counts_text(alloc: Global, n: u32, counts: &Counts) -> Result<String, AllocError>
    ensures { IfOk result (λ text. string_bytes text ≡ codes "made " ++ decimal n
        ++ codes " found " ++ decimal counts.now.values ++ codes " keys " ++ decimal counts.now.keys
        ++ codes " ranges " ++ decimal counts.now.ranges ++ codes " bytes " ++ decimal counts.now.bytes) }
{
    let Counts {
        values,
        keys,
        ranges,
        bytes,
        ..
    } = *counts;
    let found = format!(in alloc; "made {n} found {values} keys {keys}")?;
    let text = format!(in alloc; "{found} ranges {ranges} bytes {bytes}")?;
    Ok(text)
}

// A number, or a dash where there is none.
fn number_word(alloc: Global, number: Option<u64>) -> Result<String, AllocError>
    ensures { IfOk result (λ word. string_bytes word ≡ number_text number) }
{
    match number {
        Some(number) => format!(in alloc; "{number}"),
        None => String::from_str(alloc, "-"),
    }
}
