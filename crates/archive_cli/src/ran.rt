// A run of the program, and what can be said of it afterwards.
ghost use Rattle.std.specs.Prelude.{◌≤◌, map, string_bytes};
ghost use Rattle.archive_program.specs.WordsSeen.{IsStatusFor};

use archive_program::run;
use archive_service::{Ended, ScriptError, Settings, read_script};
use archive_words::{Keeping, ScriptLine, ScriptLines, line_at};
use blob_device::{Device, StdSink, StdSource};
use std::alloc::Global;
use std::io;

// How many words the program has where its script is on the input.
const SCRIPT_WORDS: usize = 3;

/// A run that has ended.
#[derive(Drop)]
pub struct Ran<'a> {
    /// The words with which the program was called.
    pub words: &'a [String],
    /// How it ended.
    pub ended: Ended,
    // what was read of the script; none where there was no memory to keep it
    script: Option<Vec<u8>>,
    // as every call of the program ends: so `main` has a text for it
    ghost status: { ended.status ≤ 7 },
}

/// Where in a run something was done.
#[derive(Clone, Copy)]
pub enum Moment<'a> {
    /// At the opening before the first command.
    Opening,
    /// At the command on this line, whose text is known if the script is.
    Command(u64, Option<&'a [u8]>),
    /// At the command of this number, counted from 1, of a script that the program made.
    Made(u64),
}

/// Runs the program on this device, between standard input and output.
pub fn run_on<'a, D: Device>(rt: &HostRuntime, words: &'a [String], device: &mut D) -> Ran<'a>
    ensures { IsStatusFor (map string_bytes words.now) result.ended.status }
{
    let mut input = Keeping::new(rt.alloc(), StdSource::new(rt.reader()));
    let mut out = StdSink::new(io::writer(rt));
    let ended = run(rt.alloc(), words, device, &mut input, &mut out);
    Ran {
        words,
        ended,
        script: input.into_kept(),
    }
}

impl Moment<'_> {
    /// Whether the command asks for removals: it is a `prune` or a `destroy`.
    pub fn asks_for_removals(self) -> bool {
        match self {
            Moment::Command(_, Some(text)) => text.starts_with(b"prune ")
                || text == b"destroy".as_slice(),
            _ => false,
        }
    }
}

impl Ran<'_> {
    /// The number of the first bad line of the script, counted from 1, and the line. None where it has none, or is not known.
    pub fn bad_line(&self, alloc: Global) -> Option<(u64, ScriptLine<'_>)> {
        let script = self.script()?;
        match read_script(alloc, script, Settings::DEFAULT.max_value) {
            Err(ScriptError::Line(number)) => Some((number, line_at(script, number)?)),
            _ => None,
        }
    }

    /// Where the run was when it ended.
    pub fn last_moment(&self) -> Moment<'_> {
        let mut walk = self.walk();
        walk.moment_of(u64::MAX)
    }

    /// A walk over the run, from its beginning on.
    pub fn walk(&self) -> Walk<'_> {
        let lines = match self.script() {
            Some(script) => Some(ScriptLines::new(script)),
            None => None,
        };
        Walk {
            ahead: self.ended.marks.as_slice(),
            begun: 0,
            // With `make N` behind the three words the script is not on the input.
            is_made: self.words.len() > SCRIPT_WORDS,
            lines,
        }
    }

    fn script(&self) -> Option<&[u8]> {
        match &self.script {
            Some(bytes) => Some(bytes.as_slice()),
            None => None,
        }
    }
}

/// A walk over a run. It goes over the marks and the script once, however many moments are asked for.
#[derive(Clone, Copy)]
pub struct Walk<'a> {
    // the marks of the commands that have not begun, ascending
    ahead: &'a [u64],
    // how many have
    begun: u64,
    // whether the program made the script, by its words
    is_made: bool,
    // the script from the last of these on; none where it is not known
    lines: Option<ScriptLines<'a>>,
}

impl<'a> Walk<'a> {
    /// Where the run was when the device had counted so many calls, which are no fewer than at the last question.
    pub fn moment_of(&mut self, call: u64) -> Moment<'a> {
        let newly = self.ahead.iter().take_while(|mark| **mark <= call).count();
        self.ahead = self.ahead.get(newly..).unwrap_or(&[]);
        self.begun = self.begun.saturating_add(newly as u64);
        let begun = self.begun;
        if begun == 0 {
            return Moment::Opening;
        }
        if self.is_made {
            return Moment::Made(begun);
        }
        let Some(lines) = &mut self.lines else {
            return Moment::Command(begun, None);
        };
        // Each line is a command.
        match lines.go_to(begun) {
            Some(line) => Moment::Command(begun, Some(line.text)),
            None => Moment::Command(begun, None),
        }
    }
}
