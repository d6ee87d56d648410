//! Words for people: what is wrong with the words of a command line or with a line of a script, and what a run took off its blobs.
//!
//! Nothing here decides. The words are judged by `archive_program` and the lines by `archive_service`; this crate reads what
//! they refused a second time, only to explain it. [`Noting`] and [`Keeping`] pass each call on as it is, so that a run over
//! them is the run over the device and the source that they hold.
#![tactic(auto)]

mod command_line;
mod hexadecimal;
mod keeping;
mod notebook;
mod noting;
mod number;
mod script_line;
mod script_text;
mod shown;

pub use command_line::{MOST_ITEMS, MOST_MADE, WordsComplaint, complaint_of_words};
pub use hexadecimal::{DigitsComplaint, complaint_of_key, complaint_of_value};
pub use keeping::Keeping;
pub use notebook::{Loss, MOST_NOTES, Note, Notebook};
pub use noting::Noting;
pub use number::{NumberComplaint, complaint_of_number};
pub use script_line::{Arguments, LineComplaint, MOST_COUNTED, complaint_of_line};
pub use script_text::{ScriptLine, ScriptLines, line_at};
pub use shown::Shown;
