// A replay by its cursor, as a layer above uses it: several items are looked at before they are passed, and a
// section that was gone over may be cut once more.
ghost use Rattle.std.specs.Prelude.{◌≡◌, ◌<◌, ◌≤◌, ◌*◌, false, IfOk, Ok, Some, IsSome, IsTrue};
ghost use Rattle.segments.specs.FixedReplay.{IsDrained, first_of};
ghost use Rattle.segments.specs.FixedWalking.{walk_of};
ghost use Rattle.segments_tests.specs.Cursors.{HasGoneOver, HasPassed, IsBetween, MayGoOn, stands_in};
ghost use Rattle.segments_tests.specs.Stores.{IsOpen};

use crate::items::Low;
use crate::journals::Lows;
use crate::replays::{Walk, finished};
use crate::said::{Part, Said};
use crate::store::Store;
use crate::words::number;
use blob_device::Memory;
use scenario_text::Step;
use segments::journal::Error;
use std::alloc::Global;
use value_codec::Codec;

/// How many sections are gone over at most, how many groups of items of each, and how long a group is.
const MOST: u64 = 64;

/// To how many items a section may be cut at most.
const MOST_KEPT: u64 = 4_294_967_296;

/// How many bytes an item has.
const SIZE: u64 = 8;

/// How a journal is gone over.
#[derive(Drop)]
struct Plan {
    /// How many items are looked at at once.
    count: usize,
    /// The section that is cut once more, where it owed a replay and has more items than are kept.
    section: u64,
    /// How many items of it are kept.
    keep: u64,
}

/// Goes over all items of a journal by a cursor, and says them. Then it gives the journal back. The step
/// says the length of a piece, how many items are looked at at once, which section is cut once more, and
/// how many items of it are kept.
pub fn scan(
    alloc: Global,
    journal: Lows,
    dev: &mut Memory,
    step: &Step,
) -> Result<(Store, Said), Error>
    requires { IsOpen dev.old (Store.Items journal) }
    ensures { IfOk result (λ r. IsOpen dev.new r.0) }
{
    let plan = plan_of(step);
    if plan.keep * SIZE < journal.floor_of(plan.section) {
        return Ok((Store::Items(journal), Said::Text("below the floor")));
    }
    let mut walk = journal.replay(dev, 0, 0, number(step, 0) as usize)?;
    let mut row = Vec::new(alloc);
    go_over(alloc, &mut walk, dev, &plan, &mut row);
    match finished(walk, dev) {
        Ok(journal) => {
            let _ = row.push(Part::Text("done"));
            Ok((Store::Items(journal), Said::Row(row)))
        }
        Err(error) => {
            let _ = row.push(Part::Refused(error));
            Ok((Store::Closed, Said::Row(row)))
        }
    }
}

// What the step says; all items are kept where it does not say how many.
fn plan_of(step: &Step) -> Plan
    ensures count { result.count ≤ 64 }
    ensures keep { result.keep ≤ 4294967296 }
{
    Plan {
        count: number(step, 1).min(MOST) as usize,
        section: number(step, 2),
        keep: step.number(3).unwrap_or(MOST_KEPT).min(MOST_KEPT),
    }
}

// Goes over the sections one after another.
fn go_over(alloc: Global, walk: &mut Walk, dev: &mut Memory, plan: &Plan, row: &mut Vec<Part>)
    requires count { plan.now.count ≤ 64 }
    requires keep { plan.now.keep ≤ 4294967296 }
    requires between { IsBetween dev.old plan.now.section plan.now.keep (walk_of walk.old) }
    ensures { MayGoOn dev.new (walk_of walk.new) }
{
    'sections: for _ in 0..MOST {
        if walk.is_over() {
            return;
        }
        go_on(alloc, walk, dev, plan, row);
    }
}

// Goes over the next section. An error of the cursor is given, so it is noted: the journal is not given back
// then.
fn go_on(alloc: Global, walk: &mut Walk, dev: &mut Memory, plan: &Plan, row: &mut Vec<Part>)
    requires count { plan.now.count ≤ 64 }
    requires keep { plan.now.keep ≤ 4294967296 }
    requires between { IsBetween dev.old plan.now.section plan.now.keep (walk_of walk.old) }
    requires going { (walk_of walk.old).ended ≡ false }
    requires more { IsDrained (walk_of walk.old) → ⊥ }
    ensures { HasGoneOver dev.new (Ok tt) (walk_of walk.old) (walk_of walk.new) }
{
    let Err(error) = gone_over(alloc, walk, dev, plan, row) else {
        return;
    };
    walk.fail();
    let _ = row.push(Part::Given(error));
}

// Goes over the next section.
fn gone_over(
    alloc: Global,
    walk: &mut Walk,
    dev: &mut Memory,
    plan: &Plan,
    row: &mut Vec<Part>,
) -> Result<(), Error>
    requires count { plan.now.count ≤ 64 }
    requires keep { plan.now.keep ≤ 4294967296 }
    requires between { IsBetween dev.old plan.now.section plan.now.keep (walk_of walk.old) }
    requires going { (walk_of walk.old).ended ≡ false }
    requires more { IsDrained (walk_of walk.old) → ⊥ }
    ensures { HasGoneOver dev.new result (walk_of walk.old) (walk_of walk.new) }
{
    walk.enter(dev)?;
    passed(alloc, walk, dev, plan.count, row)?;
    // What is fewer than a group goes one by one: the section ends behind its last item.
    passed(alloc, walk, dev, 1, row)?;
    let Some((section, position)) = walk.place() else {
        return Ok(());
    };
    close(walk, dev, plan, section, position)
}

// Passes over groups of so many items, as long as there are.
fn passed(
    alloc: Global,
    walk: &mut Walk,
    dev: &mut Memory,
    count: usize,
    row: &mut Vec<Part>,
) -> Result<(), Error>
    requires goes { MayGoOn dev.old (walk_of walk.old) }
    requires going { (walk_of walk.old).ended ≡ false }
    requires count { count ≤ 64 }
    ensures { HasPassed dev.new result (walk_of walk.old) (walk_of walk.new) }
{
    'groups: for _ in 0..MOST {
        if walk.place().is_none() {
            return Ok(());
        }
        let goes_on = pass_group(alloc, walk, dev, count, row)?;
        if !goes_on {
            return Ok(());
        }
    }
    Ok(())
}

// Passes over so many items, and says them. The answer is whether there were as many.
fn pass_group(
    alloc: Global,
    walk: &mut Walk,
    dev: &mut Memory,
    count: usize,
    row: &mut Vec<Part>,
) -> Result<bool, Error>
    requires goes { MayGoOn dev.old (walk_of walk.old) }
    requires going { (walk_of walk.old).ended ≡ false }
    requires stands { IsSome (walk_of walk.old).place }
    requires count { count ≤ 64 }
    ensures { HasPassed dev.new result (walk_of walk.old) (walk_of walk.new) }
{
    let enough = walk.fill(dev, count)?;
    if !enough {
        return Ok(false);
    }
    if let Err(error) = tell(alloc, walk, count, row) {
        // The items are none: the section is left, and so is the rest of it.
        walk.leave();
        let _ = row.push(Part::Given(error));
        return Ok(false);
    }
    walk.pass(count);
    Ok(true)
}

// Says the first items at hand.
fn tell(alloc: Global, walk: &Walk, count: usize, row: &mut Vec<Part>) -> Result<(), Error> {
    let Some((section, position)) = walk.place() else {
        return Ok(());
    };
    for (nth, bytes) in walk.at_hand().chunks_exact(8).take(count).enumerate() {
        let item = Low::decode_cfg(alloc, bytes, ())?;
        let place = position.saturating_add(nth as u64);
        let _ = row.push(Part::Item(section, place, item.number));
    }
    Ok(())
}

// Ends the section in which it stands, and cuts it once more if it is the one of the plan.
fn close(
    walk: &mut Walk,
    dev: &mut Memory,
    plan: &Plan,
    section: u64,
    position: u64,
) -> Result<(), Error>
    requires keep { plan.now.keep ≤ 4294967296 }
    requires goes { MayGoOn dev.old (walk_of walk.old) }
    requires floor { (walk_of walk.old).journal.floor_of plan.now.section ≤ plan.now.keep * 8 }
    requires going { (walk_of walk.old).ended ≡ false }
    requires at { stands_in (walk_of walk.old).place ≡ Some (section, position) }
    ensures { HasGoneOver dev.new result (walk_of walk.old) (walk_of walk.new) }
{
    let more = walk.fill(dev, 1)?;
    if more {
        // More groups than are passed at most: what is left is not gone over.
        walk.leave();
        return Ok(());
    }
    walk.end(dev)?;
    if !is_cut_again(walk, plan, section, position) {
        return Ok(());
    }
    // Behind the section's own cut, which left it sealed.
    walk.shorten(dev, section, plan.keep * SIZE)
}

// Whether a section that was ended at this position is cut once more.
fn is_cut_again(walk: &Walk, plan: &Plan, section: u64, position: u64) -> bool
    ensures same { IsTrue result → section ≡ plan.now.section }
    ensures fewer { IsTrue result → plan.now.keep < position }
    ensures owes { IsTrue result → IsTrue ((walk_of walk.now).journal.unrecovered section) }
    ensures first { IsTrue result → first_of (walk_of walk.now) section ≤ plan.now.keep }
{
    section == plan.section
        && plan.keep < position
        && walk.owes(section)
        && walk.first_position(section) <= plan.keep
}
