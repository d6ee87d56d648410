//! Scripts of commands: how they are read, served and answered.
//!
//! `specs/Serves.antt` has what a run of commands promises, at every moment; `specs/Texts.antt` the text of each command and reply,
//! `specs/ErrorTexts.antt` that of each error, and `specs/Script.antt` the grammar of scripts.
#![tactic(auto)]

mod ended;
mod error_text;
mod laws;
mod made;
mod marks;
pub mod plain;
mod replies;
mod script;
mod serving;
mod settings;
mod store;
mod text;
mod words;

pub use ended::{Ended, Status};
pub use error_text::{write_error, write_error_line};
pub use laws::run_laws;
pub use made::{make, write_summary};
pub use marks::Marks;
pub use replies::{End, Replies, Served};
pub use script::{Script, ScriptError, read_script, reading_is_exact};
pub use serving::{StoreConfig, serve, serve_from};
pub use settings::Settings;
pub use store::{Openable, Store};
pub use text::{write_bad_line, write_reply};
pub use words::index_of;
