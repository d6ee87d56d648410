//! A plain, slow set of numbers: a list, asked by the definitions of runs, gaps and absent numbers.
//!
//! It looks at all its numbers at each call, and keeps nothing but them. The range set is compared with it.
ghost use Rattle.std.specs.Prelude.{◌≡◌, ℕ, ◌+◌, ◌≤◌, ◌↔◌, List, [], ◌∷◌, ◌++◌, IsTrue, IsNone, IfSome, IfOk, OnOk, All, Contains};
ghost use Rattle.ordinal_store.specs.Indices.{IsGap};
ghost use Rattle.ordinal_store.specs.Numbers.{AddsNumber, AreMissing, AreRunsFrom, IsGreatest, IsLeast, IsNextRun, IsRun, IsRunAround, IsRunEnd, TakesAway};
ghost use Rattle.ordinal_store.specs.Plain.{listed, IsNextAmong, IsWalked};

use crate::{Numbers, RMapError};
use std::alloc::Global;

/// A set of numbers, kept as a list.
#[derive(Drop)]
pub struct PlainSet {
    // for the numbers, and for answers that are lists
    alloc: Global,
    /// The numbers of the set, in any order.
    pub numbers: Vec<u64>,
}

impl PlainSet {
    /// The empty set.
    pub fn new(alloc: Global) -> PlainSet
        ensures { result.numbers.items ≡ [] }
    {
        PlainSet {
            alloc,
            numbers: Vec::new(alloc),
        }
    }

    /// Whether `number` is in the set.
    fn has(&self, number: u64) -> bool
        ensures { result ≡ listed self.now.numbers.items number }
    {
        self.numbers.contains(&number)
    }

    /// Puts `number` into the set.
    pub fn insert(&mut self, number: u64) -> Result<(), RMapError>
        ensures { OnOk result
            (AddsNumber (listed self.old.numbers.items) (listed self.new.numbers.items) number) }
    {
        if !self.has(number) {
            self.numbers.push(number)?;
        }
        Ok(())
    }

    /// Takes the numbers from `start` to `end` out of the set, both of them too.
    pub fn remove(&mut self, start: u64, end: u64) -> Result<(), RMapError>
        ensures { OnOk result
            (TakesAway (listed self.old.numbers.items) (listed self.new.numbers.items) start end) }
    {
        let mut kept = Vec::new(self.alloc);
        for number in &self.numbers {
            if *number < start || end < *number {
                kept.push(*number)?;
            }
        }
        self.numbers = kept;
        Ok(())
    }

    /// Where the run that holds `number` begins: from there down, as long as the set goes on.
    fn start_of(&self, number: u64) -> u64
        requires { IsTrue (listed self.now.numbers.items number) }
        ensures upto { result ≤ number }
        ensures inside { (i : ℕ) → result ≤ i → i ≤ number → IsTrue (listed self.now.numbers.items i) }
        ensures begins { (i : ℕ) → i + 1 ≡ result → ¬ IsTrue (listed self.now.numbers.items i) }
    {
        for below in (0..number).rev() {
            if !self.has(below) {
                return below + 1;
            }
        }
        0
    }

    /// Where the run that holds `number` ends: from there up, as long as the set goes on.
    fn end_of(&self, number: u64) -> u64
        requires { IsTrue (listed self.now.numbers.items number) }
        ensures from { number ≤ result }
        ensures inside { (i : ℕ) → number ≤ i → i ≤ result → IsTrue (listed self.now.numbers.items i) }
        ensures ends { ¬ IsTrue (listed self.now.numbers.items (result + 1)) }
    {
        let Some(last) = self.last() else {
            return number;
        };
        for end in number..last {
            if !self.has(end + 1) {
                return end;
            }
        }
        last
    }

    /// The run that holds `number`.
    pub fn get(&self, number: u64) -> Option<(u64, u64)>
        ensures { IsRunAround (listed self.now.numbers.items) number result }
    {
        if !self.has(number) {
            return None;
        }
        Some((self.start_of(number), self.end_of(number)))
    }

    /// Whether a run begins at `number`.
    fn begins(&self, number: u64) -> bool
        ensures { IsTrue result ↔ ((end : ℕ) × IsRun (listed self.now.numbers.items) number end) }
    {
        match self.get(number) {
            Some((start, _)) => start == number,
            None => false,
        }
    }

    /// The end of the run that holds `number`.
    fn end_around(&self, number: u64) -> Option<u64>
        ensures { IsRunEnd (listed self.now.numbers.items) number result }
    {
        let (_, end) = self.get(number)?;
        Some(end)
    }

    /// The end of the run that holds `number`, and the start of the first run that begins above it.
    pub fn next_gap(&self, number: u64) -> (Option<u64>, Option<u64>)
        ensures { IsGap (listed self.now.numbers.items) number result }
    {
        (self.end_around(number), self.next_start(number))
    }

    /// The start of the first run that begins above `number`.
    fn next_start(&self, number: u64) -> Option<u64>
        ensures { IsNextRun (listed self.now.numbers.items) number result }
    {
        let mut next = None;
        for start in &self.numbers {
            next = self.nearer(number, next, *start);
        }
        next
    }

    /// `start` in the place of `next`, if a run begins there, above `number` and below `next`.
    fn nearer(&self, number: u64, next: Option<u64>, start: u64) -> Option<u64>
        ensures { (xs : List ℕ) → IsNextAmong (listed self.now.numbers.items) number xs next
            → IsNextAmong (listed self.now.numbers.items) number (xs ++ start ∷ []) result }
    {
        if start <= number || !self.begins(start) {
            return next;
        }
        match next {
            Some(least) if least <= start => next,
            _ => Some(start),
        }
    }

    /// The least number of the set.
    pub fn first(&self) -> Option<u64>
        ensures { IsLeast (listed self.now.numbers.items) result }
    {
        least(&self.numbers)
    }

    /// The greatest number of the set.
    pub fn last(&self) -> Option<u64>
        ensures { IsGreatest (listed self.now.numbers.items) result }
    {
        greatest(&self.numbers)
    }

    /// The first `max` numbers from `start` on that are not in the set and have a number of the set above
    /// them, or all of these.
    pub fn missing(&self, start: u64, max: usize) -> Result<Numbers, RMapError>
        ensures { IfOk result (AreMissing (listed self.now.numbers.items) start max) }
    {
        let mut missing = Vec::new(self.alloc);
        let Some(last) = self.last() else {
            return Ok(Numbers::from_vec(missing));
        };
        for number in start..last {
            if missing.len() == max {
                return Ok(Numbers::from_vec(missing));
            }
            if !self.has(number) {
                missing.push(number)?;
            }
        }
        Ok(Numbers::from_vec(missing))
    }

    /// The runs that end at `from` or later, ascending: from one to the next.
    pub fn runs_from(&self, from: u64) -> Result<Vec<(u64, u64)>, RMapError>
        ensures { IfOk result
            (λ runs. AreRunsFrom (listed self.now.numbers.items) from runs.items) }
    {
        let mut runs = Vec::new(self.alloc);
        self.add_run(from, 0, &mut runs)?;
        let mut at = 0;
        while let Some(start) = self.next_start(at) {
            self.add_run(from, start, &mut runs)?;
            at = start;
        }
        Ok(runs)
    }

    /// Adds the run that begins at `at`, if one does and it ends at `from` or later.
    fn add_run(&self, from: u64, at: u64, runs: &mut Vec<(u64, u64)>) -> Result<(), RMapError>
        ensures { OnOk result (IsWalked (listed self.now.numbers.items) from at runs.old.items
            → IsWalked (listed self.now.numbers.items) from (at + 1) runs.new.items) }
    {
        match self.get(at) {
            Some((start, end)) if start == at && from <= end => {
                runs.push((start, end))?;
                Ok(())
            }
            _ => Ok(()),
        }
    }
}

/// The least of these numbers.
fn least(numbers: &[u64]) -> Option<u64>
    ensures empty { IsNone result ↔ (numbers.now ≡ []) }
    ensures contained { IfSome result (Contains numbers.now) }
    ensures least { IfSome result (λ n. All (λ m. n ≤ m) numbers.now) }
{
    numbers.iter().copied().min()
}

/// The greatest of these numbers.
fn greatest(numbers: &[u64]) -> Option<u64>
    ensures empty { IsNone result ↔ (numbers.now ≡ []) }
    ensures contained { IfSome result (Contains numbers.now) }
    ensures greatest { IfSome result (λ n. All (λ m. m ≤ n) numbers.now) }
{
    numbers.iter().copied().max()
}
