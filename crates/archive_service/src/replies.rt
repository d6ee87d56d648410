// What a run of commands gives.
ghost use Rattle.std.specs.Prelude.{◌≡◌, [], ◌∷◌, ◌++◌, OnOk, OnErr};

use crate::Marks;
use archives::{Error, Reply};
use std::alloc::{AllocError, Global};
use std::marker::Model;

/// The replies to commands, in their order.
#[derive(Debug, Drop)]
pub struct Replies<V> {
    // one for each command that was answered, entered as it was
    replies: Vec<Reply<V>>,
}

impl<V> Model for Replies<V> {
    ghost use Rattle.std.specs.Prelude.{List};
    ghost use Rattle.archives.specs.declared.commands.Reply.{Reply};

    ghost Value = { List (Reply V) };

    ghost view = { λ r. r.replies.items };
}

impl<V> Replies<V> {
    /// No replies. It takes no memory.
    pub(crate) fn new(alloc: Global) -> Replies<V>
        ensures { result ≡ [] }
    {
        Replies {
            replies: Vec::new(alloc),
        }
    }

    /// One reply more.
    pub(crate) fn push(&mut self, reply: Reply<V>) -> Result<(), AllocError>
    where
        V: Drop,
        ensures ok { OnOk result (self.new ≡ self.old ++ reply ∷ []) }
        ensures err { OnErr result (self.new ≡ self.old) }
    {
        self.replies.push(reply)?;
        Ok(())
    }

    /// The replies, in order.
    pub fn as_slice(&self) -> &[Reply<V>]
        ensures { result.now ≡ self.now }
    {
        self.replies.as_slice()
    }
}

/// How a run of commands ended.
#[derive(Debug, Drop)]
pub enum End {
    /// Each command has a reply.
    Done,
    /// The opening, or the command behind the last reply, ended in this error.
    Failed(Error),
}

/// What a run of commands gave: the replies, when the commands began, and how it ended.
#[derive(Debug, Drop)]
pub struct Served<V> {
    /// The replies, also where the run failed.
    pub replies: Replies<V>,
    /// A mark for each command that was begun.
    pub marks: Marks,
    /// How the run ended.
    pub end: End,
}
