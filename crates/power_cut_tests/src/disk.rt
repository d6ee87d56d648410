// A disk in memory that keeps, of each file and folder, what is there now and what was synced.
use crate::change::{FileChange, NameChange, Named, apply, apply_name, is_kept};
use crate::plan::Plan;
use blob_device::CrashChoice;
use std::alloc::{AllocError, Global};
use std::io;
use std::io::ErrorKind;

/// The number of the working folder, in which all paths begin.
pub const TOP: usize = 0;

/// A file: its bytes as they read, as they were synced last, and the changes since.
#[derive(Drop)]
pub struct FileNode {
    /// As a read finds them: each change is done to them at once.
    pub bytes: Vec<u8>,
    // What outlasts every power cut: the changes that were synced are done to them.
    synced: Vec<u8>,
    // In order, those since the last sync.
    unsynced: Vec<FileChange>,
    // How often it is open. What closing forgets goes when it is open no more.
    handles: u64,
}

/// A folder: its names as they read, as they were synced last, and the changes since.
#[derive(Drop)]
pub struct FolderNode {
    // The number of the folder that `..` names; the working folder's own is itself.
    parent: usize,
    /// As a look-up finds them: each change is done to them at once.
    pub names: Vec<Named>,
    // The names that outlast every power cut.
    synced: Vec<Named>,
    // In order, those since the last sync.
    unsynced: Vec<NameChange>,
}

impl FileNode {
    fn change(&mut self, change: FileChange) -> Result<(), AllocError> {
        apply(&mut self.bytes, &change, CrashChoice::AsRead)?;
        self.unsynced.push(change)?;
        Ok(())
    }

    // The changes that a sync writes are done to what outlasts a power cut.
    fn sync(&mut self) -> Result<(), AllocError> {
        for change in self.unsynced.iter() {
            apply(&mut self.synced, change, CrashChoice::AsRead)?;
        }
        Ok(())
    }
}

impl FolderNode {
    fn change(&mut self, change: NameChange) -> Result<(), AllocError> {
        apply_name(&mut self.names, &change)?;
        self.unsynced.push(change)?;
        Ok(())
    }

    fn sync(&mut self) -> Result<(), AllocError> {
        for change in self.unsynced.iter() {
            apply_name(&mut self.synced, change)?;
        }
        Ok(())
    }
}

/// What a number of the disk stands for.
#[derive(Drop)]
pub enum Node {
    File(FileNode),
    Folder(FolderNode),
}

/// A disk. Its calls end, or fail as its plan says.
#[derive(Drop)]
pub struct Disk {
    /// For all that it keeps.
    pub alloc: Global,
    // By their numbers. None is ever taken out, also where no name stands for it any more.
    nodes: Vec<Node>,
    /// How many changes there were; each has the number of those before it.
    changes: u64,
    /// How many calls there were.
    pub calls: u64,
    /// Which calls fail, and where the power goes.
    pub plan: Plan,
    /// Whether the call that fails alone was one that changes names or a length.
    pub has_failed_to_change: bool,
    /// How many files are open. One that is opened twice counts twice.
    open_files: u64,
    /// Whether what a file had not synced when it was closed is written by no later sync.
    pub closing_forgets: bool,
}

/// What a call answers that is carried out.
#[derive(Clone, Copy)]
pub enum Answer {
    /// That it is done.
    Done,
    /// An error, all the same.
    Fails,
}

impl Answer {
    /// Gives the answer.
    pub fn give(&self) -> io::Result<()> {
        match self {
            Answer::Done => Ok(()),
            Answer::Fails => Err(io::Error::from_raw_os_error(EIO)),
        }
    }
}

/// An error of this kind.
pub fn refused<T>(kind: ErrorKind) -> io::Result<T> {
    Err(io::Error::from(kind))
}

impl Disk {
    /// A disk on which only the working folder stands.
    pub fn new(alloc: Global) -> Result<Disk, AllocError> {
        let mut disk = Disk {
            alloc,
            nodes: Vec::new(alloc),
            changes: 0,
            calls: 0,
            plan: Plan::Whole,
            has_failed_to_change: false,
            open_files: 0,
            closing_forgets: false,
        };
        disk.nodes.push(Node::Folder(FolderNode {
            parent: TOP,
            names: Vec::new(alloc),
            synced: Vec::new(alloc),
            unsynced: Vec::new(alloc),
        }))?;
        Ok(disk)
    }

    /// A call begins. Where the power is gone, or the call fails, it is an Err.
    pub fn begin(&mut self) -> io::Result<()> {
        let nth = self.calls;
        self.calls = self.calls.saturating_add(1);
        if self.plan.refuses(nth) {
            return Err(io::Error::from_raw_os_error(EIO));
        }
        Ok(())
    }

    /// A call that changes names or a length begins. Where it is not carried out, it is an Err. What it answers when it is done comes
    /// with it.
    pub fn begin_change(&mut self) -> io::Result<Answer> {
        let nth = self.calls;
        match self.begin() {
            Ok(()) => Ok(Answer::Done),
            Err(_) if self.plan == Plan::DoneAndFails(nth) => Ok(Answer::Fails),
            Err(e) => {
                self.has_failed_to_change |= self.plan == Plan::Fails(nth);
                Err(e)
            }
        }
    }

    /// The number of what stands at a path.
    pub fn find(&self, path: &str) -> io::Result<usize> {
        if path.is_empty() {
            return refused(ErrorKind::NotFound);
        }
        let mut at = TOP;
        for word in path.split('/') {
            if !word.is_empty() && word != "." {
                at = self.child(at, word)?;
            }
        }
        Ok(at)
    }

    // The number of what has this name in a folder.
    fn child(&self, folder: usize, name: &str) -> io::Result<usize> {
        let Some(Node::Folder(folder)) = self.nodes.get(folder) else {
            return refused(ErrorKind::NotADirectory);
        };
        if name == ".." {
            return Ok(folder.parent);
        }
        for named in folder.names.iter() {
            if named.name.as_str() == name {
                return Ok(named.node);
            }
        }
        refused(ErrorKind::NotFound)
    }

    /// What has this number.
    pub fn node(&self, at: usize) -> Option<&Node> {
        self.nodes.get(at)
    }

    /// Whether the number is a folder's.
    pub fn is_folder(&self, at: usize) -> bool {
        matches!(self.nodes.get(at), Some(Node::Folder(_)))
    }

    /// The bytes of a file; none where the number is a folder's.
    pub fn bytes(&self, at: usize) -> &[u8] {
        match self.nodes.get(at) {
            Some(Node::File(file)) => file.bytes.as_slice(),
            _ => &[],
        }
    }

    // The folder and the name that a path is made of.
    fn split<'a>(&self, path: &'a str) -> io::Result<(usize, &'a str)> {
        let path = path.trim_end_matches('/');
        match path.rsplit_once('/') {
            Some(("", name)) => Ok((TOP, name)),
            Some((folder, name)) => Ok((self.find(folder)?, name)),
            None => Ok((TOP, path)),
        }
    }

    /// Makes an empty file, or a folder, at a path where nothing stands.
    pub fn make(&mut self, path: &str, is_folder: bool) -> io::Result<usize> {
        let (parent, name) = self.split(path)?;
        if name.is_empty() || name == "." || name == ".." || self.child(parent, name).is_ok() {
            return refused(ErrorKind::AlreadyExists);
        }
        if !self.is_folder(parent) {
            return refused(ErrorKind::NotADirectory);
        }
        let made = self.nodes.len();
        self.nodes.push(new_node(self.alloc, parent, is_folder))?;
        self.rename(parent, name, Some(made))?;
        Ok(made)
    }

    /// Takes the name of a file away.
    pub fn remove(&mut self, path: &str) -> io::Result<()> {
        let (parent, name) = self.split(path)?;
        let at = self.child(parent, name)?;
        if self.is_folder(at) {
            return refused(ErrorKind::IsADirectory);
        }
        self.rename(parent, name, None)
    }

    // Gives a name in a folder to another number, or to none.
    fn rename(&mut self, parent: usize, name: &str, node: Option<usize>) -> io::Result<()> {
        let number = self.next_number();
        let name = String::from_str(self.alloc, name)?;
        let Some(Node::Folder(folder)) = self.nodes.get_mut(parent) else {
            return refused(ErrorKind::NotADirectory);
        };
        folder.change(NameChange { number, name, node })?;
        Ok(())
    }

    fn next_number(&mut self) -> u64 {
        let number = self.changes;
        self.changes = self.changes.saturating_add(1);
        number
    }

    /// Writes bytes into a file.
    pub fn write(&mut self, at: usize, offset: u64, bytes: &[u8]) -> io::Result<()> {
        let bytes = bytes.to_vec(self.alloc)?;
        let number = self.next_number();
        self.change(
            at,
            FileChange {
                number,
                offset: offset as usize,
                bytes,
                len: None,
            },
        )
    }

    /// Cuts or extends a file.
    pub fn resize(&mut self, at: usize, len: u64) -> io::Result<()> {
        let number = self.next_number();
        let bytes = Vec::new(self.alloc);
        self.change(
            at,
            FileChange {
                number,
                offset: 0,
                bytes,
                len: Some(len as usize),
            },
        )
    }

    fn change(&mut self, at: usize, change: FileChange) -> io::Result<()> {
        let Some(Node::File(file)) = self.nodes.get_mut(at) else {
            return refused(ErrorKind::InvalidInput);
        };
        file.change(change)?;
        Ok(())
    }

    /// Makes what was changed outlast a power cut.
    pub fn sync(&mut self, at: usize) -> io::Result<()> {
        match self.nodes.get_mut(at) {
            Some(Node::File(file)) => file.sync()?,
            Some(Node::Folder(folder)) => folder.sync()?,
            None => return refused(ErrorKind::NotFound),
        }
        self.forget(at);
        Ok(())
    }

    /// No later sync writes what was changed so far. It still reads so, until the power goes.
    pub fn forget(&mut self, at: usize) {
        match self.nodes.get_mut(at) {
            Some(Node::File(file)) => file.unsynced.clear(),
            Some(Node::Folder(folder)) => folder.unsynced.clear(),
            None => {}
        }
    }

    /// A file is opened once more, unless as many are open as may be.
    pub fn open(&mut self, at: usize) -> io::Result<()> {
        if let Some(Node::File(file)) = self.nodes.get_mut(at) {
            if self.open_files >= MOST_OPEN {
                return Err(io::Error::from_raw_os_error(EMFILE));
            }
            self.open_files = self.open_files.saturating_add(1);
            file.handles = file.handles.saturating_add(1);
        }
        Ok(())
    }

    /// A file is closed once.
    pub fn close(&mut self, at: usize) {
        if let Some(Node::File(file)) = self.nodes.get_mut(at) {
            self.open_files = self.open_files.saturating_sub(1);
            file.handles = file.handles.saturating_sub(1);
            if self.closing_forgets && file.handles == 0 {
                file.unsynced.clear();
            }
        }
    }

    /// The same disk, with all synced, over which something is begun with this plan.
    pub fn begun_with(&self, plan: Plan) -> Result<Disk, AllocError> {
        let disk = self.after_power(CrashChoice::AsRead)?;
        Ok(Disk { plan, ..disk })
    }

    /// The disk when the power is back.
    pub fn after_power(&self, choice: CrashChoice) -> Result<Disk, AllocError> {
        let mut nodes = Vec::new(self.alloc);
        for node in self.nodes.iter() {
            nodes.push(left_of(self.alloc, node, choice)?)?;
        }
        Ok(Disk {
            alloc: self.alloc,
            nodes,
            changes: 0,
            calls: 0,
            plan: Plan::Whole,
            has_failed_to_change: false,
            open_files: 0,
            closing_forgets: self.closing_forgets,
        })
    }
}

/// The number of the error of a call that fails.
const EIO: i32 = 5;

/// The number of the error where too many files are open.
const EMFILE: i32 = 24;

/// So many files a device may have open. Folders do not count.
const MOST_OPEN: u64 = 256;

// An empty file, or a folder in this one.
fn new_node(alloc: Global, parent: usize, is_folder: bool) -> Node {
    if is_folder {
        return Node::Folder(FolderNode {
            parent,
            names: Vec::new(alloc),
            synced: Vec::new(alloc),
            unsynced: Vec::new(alloc),
        });
    }
    Node::File(FileNode {
        bytes: Vec::new(alloc),
        synced: Vec::new(alloc),
        unsynced: Vec::new(alloc),
        handles: 0,
    })
}

// What is left of a file or a folder.
fn left_of(alloc: Global, node: &Node, choice: CrashChoice) -> Result<Node, AllocError> {
    match node {
        Node::File(file) => {
            let mut bytes = file.synced.as_slice().to_vec(alloc)?;
            for change in file.unsynced.iter() {
                apply(&mut bytes, change, choice)?;
            }
            Ok(Node::File(FileNode {
                synced: bytes.as_slice().to_vec(alloc)?,
                bytes,
                unsynced: Vec::new(alloc),
                handles: 0,
            }))
        }
        Node::Folder(folder) => {
            let mut names = copied(alloc, &folder.synced)?;
            for change in folder.unsynced.iter() {
                if is_kept(choice, change.number) {
                    apply_name(&mut names, change)?;
                }
            }
            Ok(Node::Folder(FolderNode {
                parent: folder.parent,
                synced: copied(alloc, &names)?,
                names,
                unsynced: Vec::new(alloc),
            }))
        }
    }
}

// The same names.
fn copied(alloc: Global, names: &[Named]) -> Result<Vec<Named>, AllocError> {
    let mut copy = Vec::new(alloc);
    for named in names {
        copy.push(Named {
            name: String::from_str(alloc, named.name.as_str())?,
            node: named.node,
        })?;
    }
    Ok(copy)
}
