// The words of a step.
ghost use Rattle.std.specs.Prelude.{◌≤◌};

use scenario_text::Step;

/// A section, and an index in it.
#[derive(Clone, Copy)]
pub struct Place {
    /// The section: its first index.
    pub section: u64,
    /// An index from there on.
    pub index: u64,
    ghost ordered: { section ≤ index },
}

/// What a step asks for.
#[derive(Clone, Copy)]
pub enum Command {
    /// Adds a record with this key.
    Put(Place, u64),
    /// Forgets the sections below a bound.
    Prune(u64),
    /// Asks for the first position of an index.
    First(Place),
    /// Asks for all positions of an index.
    All(Place),
    /// Asks for the places of the records with a key's word.
    Key(u64),
    /// Asks for their handles.
    Handles(u64),
    /// Asks for the runs of all indices.
    Indices,
    /// Makes so many changes by chance, over new tables.
    Mixed {
        /// What the changes are made from.
        seed: u64,
        /// How many they are.
        count: u64,
    },
}

/// Why a step asks for nothing.
#[derive(Clone, Copy)]
pub enum Refusal {
    /// No command has its name.
    Unknown,
    /// Its command takes other words.
    Misspelt,
    /// Its index is below its section.
    Below,
}

impl Refusal {
    /// What is said of it.
    pub fn text(self) -> &'static str {
        match self {
            Refusal::Unknown => "refused: no such command",
            Refusal::Misspelt => "refused: not the words of this command",
            Refusal::Below => "refused: an index below its section",
        }
    }
}

impl Place {
    /// The index in this section.
    pub fn new(section: u64, index: u64) -> Result<Place, Refusal> {
        if index < section {
            return Err(Refusal::Below);
        }
        Ok(Place { section, index })
    }
}

/// What a step asks for.
pub fn command_of(step: &Step) -> Result<Command, Refusal> {
    match step.word() {
        "put" => match numbers(step) {
            (3, Some(section), Some(index), Some(key)) => {
                Ok(Command::Put(Place::new(section, index)?, key))
            }
            _ => Err(Refusal::Misspelt),
        },
        "first" => Ok(Command::First(place_in(step)?)),
        "all" => Ok(Command::All(place_in(step)?)),
        "prune" => Ok(Command::Prune(number_in(step)?)),
        "key" => Ok(Command::Key(number_in(step)?)),
        "handles" => Ok(Command::Handles(number_in(step)?)),
        "indices" if step.rest().is_empty() => Ok(Command::Indices),
        "indices" => Err(Refusal::Misspelt),
        "mixed" => {
            let (seed, count) = pair_in(step)?;
            Ok(Command::Mixed { seed, count })
        }
        _ => Err(Refusal::Unknown),
    }
}

// How many words stand behind the first one, and the first three of them as numbers.
fn numbers(step: &Step) -> (usize, Option<u64>, Option<u64>, Option<u64>) {
    let count = step.rest().len();
    (count, step.number(0), step.number(1), step.number(2))
}

// The one number behind the first word.
fn number_in(step: &Step) -> Result<u64, Refusal> {
    match numbers(step) {
        (1, Some(number), _, _) => Ok(number),
        _ => Err(Refusal::Misspelt),
    }
}

// The two numbers behind the first word.
fn pair_in(step: &Step) -> Result<(u64, u64), Refusal> {
    match numbers(step) {
        (2, Some(first), Some(second), _) => Ok((first, second)),
        _ => Err(Refusal::Misspelt),
    }
}

// The section and the index behind the first word.
fn place_in(step: &Step) -> Result<Place, Refusal> {
    let (section, index) = pair_in(step)?;
    Place::new(section, index)
}
