// The texts that do not hang on a run.
ghost use Rattle.std.specs.Prelude.{◌≡◌, ◌≤◌, IsSome, IsNone};

/// What `--help` prints.
pub const HELP: &str = "\
Keeps records in an archive, driven by a script of commands on standard input.

usage: archive_cli DIR prunable ITEMS < SCRIPT
       archive_cli DIR prunable ITEMS make N
       archive_cli --help | --version

  DIR       the folder that keeps the archive, made when it is needed; with -
            the archive is kept in memory, and is gone when the program ends
  prunable  the kind of the archive
  ITEMS     how many indices a section has room for, from 1 to 1048576
  make N    runs a script of N records, from 1 to 100000, that the program
            makes itself, and prints one line that sums up the replies,
            or the error alone

A script has one command a line, and each gets one line of reply:

  put INDEX KEY VALUE         keep VALUE under INDEX and KEY, unless INDEX is
                              taken: ok
  multi INDEX KEY VALUE       the same, also where INDEX is taken: ok
  putsync, multisync ..       the same, and make all that was put durable: ok
  putstart, multistart ..     the same, by a sync that is started: ok
  get INDEX, getk KEY         value VALUE, or none
  all INDEX                   values VALUE .., in the order of puts, or none
  has INDEX, hask KEY         yes or no
  hasat INDEX KEY             yes or no: one record has both
  gap INDEX                   gap END NEXT: the end of the run of taken indices
                              that holds INDEX, and the start of the next; or -
  missing INDEX COUNT         items and the least COUNT indices from INDEX on
                              that are not taken, below one that is
  ranges, rangesfrom INDEX    ranges and each run of taken indices as FIRST-LAST
                              (of the second those that end at INDEX or later)
  first, last                 index and the least or the greatest taken index,
                              or none
  sync, start                 make all that was put durable: ok
  prune INDEX                 remove each section below that of INDEX: ok
  reopen                      give up what is not durable yet, but for what was
                              written, and open the archive again: ok
  destroy                     remove the archive; then each command but reopen
                              gets closed: ok

INDEX is a decimal number below 2^64, KEY has 16 lower-case hexadecimal digits,
and VALUE is lower-case hexadecimal of at most 65536 bytes, or - for the empty
value. COUNT is at most 65536. What was put and not synced is lost when the
program ends, but for what was written by then.

status: 0 done, 1 usage, 2 bad script, 3 read fault, 4 write fault, 5 store
        error, 6 no memory, 7 input longer than 16777216 bytes";

/// How the program is called.
pub const USAGE: &str = "usage: archive_cli DIR prunable ITEMS < SCRIPT, or .. ITEMS make N \
(archive_cli --help says more)";

/// What `--version` prints.
pub const VERSION: &str = "archive_cli 0.1.0";

/// What a status other than 0 means.
pub fn fault_text(status: u8) -> Option<&'static str>
    ensures silent { status ≡ 0 → IsNone result }
    ensures said { 1 ≤ status → status ≤ 7 → IsSome result }
{
    match status {
        1 => Some(USAGE),
        2 => Some("the script has a bad line, whose number is on standard output"),
        3 => Some("standard input could not be read"),
        4 => Some("standard output could not be written"),
        5 => Some("the archive failed or refused, as standard output says"),
        6 => Some("out of memory"),
        7 => Some("the script is longer than 16777216 bytes"),
        _ => None,
    }
}
