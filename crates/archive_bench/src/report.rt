// What was measured, as it is printed.

use crate::counts::Tally;
use crate::looking::Looked;
use std::fmt;

/// What single puts cost.
#[derive(Clone, Copy, Debug, PartialEq, Eq)]
pub struct PutCosts {
    /// How many puts were made.
    pub puts: u64,
    /// How many of them made no call of the device.
    pub without_call: u64,
    /// The most calls that one put made.
    pub most_calls: u64,
}

impl PutCosts {
    /// No puts.
    pub const NONE: PutCosts = PutCosts {
        puts: 0,
        without_call: 0,
        most_calls: 0,
    };

    /// One put more, which made so many calls.
    pub fn enter(&mut self, calls: u64) {
        self.puts = self.puts.saturating_add(1);
        if calls == 0 {
            self.without_call = self.without_call.saturating_add(1);
        }
        self.most_calls = self.most_calls.max(calls);
    }
}

impl fmt::Display for PutCosts {
    fn fmt<W: fmt::Write>(&self, f: &mut fmt::Formatter<W>) -> fmt::Result {
        writeln!(f, "puts {}", self.puts)?;
        writeln!(f, "puts without a call {}", self.without_call)?;
        write!(f, "most calls of one put {}", self.most_calls)
    }
}

/// What was measured.
#[derive(Drop)]
pub struct Report {
    /// What single puts cost.
    pub costs: PutCosts,
    /// The calls of the first opening, of all puts and of all syncs.
    pub filling: Tally,
    /// The calls of all prunes.
    pub pruning: Tally,
    /// How many bytes the blobs had once all was put.
    pub blob_bytes: u64,
    /// The most bytes that they had at once up to then.
    pub most_bytes: u64,
    /// How many bytes the records have of as many whole sections as are held. None where all sections are.
    pub held_bytes: Option<u64>,
    /// The calls of the opening after the last sync.
    pub opening: Tally,
    /// The calls of one opening more, right behind that one.
    pub opening_again: Tally,
    /// How many records the archive had at the end.
    pub records: u64,
    /// How many bytes these have, in the index and as values.
    pub record_bytes: u64,
    /// How many pages the index blobs have.
    pub index_pages: u64,
    /// What each phase of lookups made, if there were any.
    pub looked: Vec<Looked>,
}

impl fmt::Display for Report {
    fn fmt<W: fmt::Write>(&self, f: &mut fmt::Formatter<W>) -> fmt::Result {
        writeln!(f, "{}", self.costs)?;
        write_phase("filling", &self.filling, f)?;
        if self.pruning.calls() > 0 {
            write_phase("pruning", &self.pruning, f)?;
        }
        write_phase("opening", &self.opening, f)?;
        write_phase("opening again", &self.opening_again, f)?;
        writeln!(f, "records {}", self.records)?;
        writeln!(
            f,
            "bytes of records {} and of blobs {}, at most {}",
            self.record_bytes, self.blob_bytes, self.most_bytes
        )?;
        if let Some(held) = self.held_bytes {
            let is_within = self.most_bytes <= held.saturating_mul(2);
            let said = if is_within { "yes" } else { "no" };
            writeln!(f, "within twice the {held} bytes of records held: {said}")?;
        }
        write!(f, "index pages {}", self.index_pages)?;
        for looked in &self.looked {
            write!(f, "\n{looked}")?;
        }
        Ok(())
    }
}

// The lines of one phase.
fn write_phase<W: fmt::Write>(
    phase: &str,
    tally: &Tally,
    f: &mut fmt::Formatter<W>,
) -> fmt::Result {
    writeln!(f, "{phase}: calls {}", tally.calls())?;
    writeln!(f, "{phase}: markers: {}", tally.markers)?;
    writeln!(f, "{phase}: index: {}", tally.index)?;
    writeln!(f, "{phase}: values: {}", tally.values)?;
    writeln!(f, "{phase}: index pages read {}", tally.index_pages)
}
