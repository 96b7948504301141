//! Which draft comes first: one that not only calls of LESSP suggest, that no other disturbs, with the greatest share of the
//! arguments. After all come those that were merged into others, each by itself, with the fewest changed variables first.

use crate::draft::Draft;
use crate::merging::merge;
use crate::pairing::pair;
use crate::subsuming::subsume;
use crate::terms::{are_apart, function_of};
use nq_bank::{Bank, TermId, ground};
use std::alloc::{AllocError, Global};

/// What speaks for a draft.
#[derive(Clone, Copy, Debug, PartialEq, Eq)]
struct Weight {
    /// Whether it was merged into another, and stands by itself here.
    apart: bool,
    /// Whether another draft changes one of its variables, or keeps one that it changes.
    flawed: bool,
    /// Whether only comparisons of numbers suggest it.
    compares: bool,
    /// Its score.
    score: u64,
    /// Whether its measured variables become nests of accessors of themselves.
    by_parts: bool,
    /// How many of its calls are of functions that are not of the ground history.
    calls: u64,
    /// How many variables it changes.
    changed: u64,
    /// Its place among those that the goal suggests.
    order: u64,
    /// Its place among the drafts.
    place: usize,
}

/// Does another draft change a variable that a draft changes, or keep it?
fn disturbs(other: &Draft, draft: &Draft) -> bool {
    let changed = draft.changed.as_slice();
    !other.gone
        && !(are_apart(changed, other.changed.as_slice())
            && are_apart(changed, other.still.as_slice()))
}

/// Is there another draft, among so many, that disturbs the one at a place?
fn is_flawed(drafts: &[Draft], whole: usize, i: usize) -> bool {
    for j in 0..drafts.len() {
        if j < whole && i < drafts.len() && i != j && disturbs(&drafts[j], &drafts[i]) {
            return true;
        }
    }
    false
}

/// Is a term a call of a function of the ground history?
fn is_ground_call(bank: &Bank, t: TermId) -> bool {
    if t.0 < bank.len() {
        match function_of(bank, t) {
            Some(f) => f.0 <= ground::ORDINALP.0,
            None => true,
        }
    } else {
        true
    }
}

/// How many of these calls are of functions that are not of the ground history?
fn own_calls(bank: &Bank, calls: &[TermId]) -> u64 {
    let mut count: u64 = 0;
    for t in calls {
        if !is_ground_call(bank, *t) {
            count = count.saturating_add(1);
        }
    }
    count
}

/// Is a term a call of LESSP?
fn is_comparison(bank: &Bank, t: TermId) -> bool {
    if t.0 < bank.len() {
        match function_of(bank, t) {
            Some(f) => f.0 == ground::LESSP.0,
            None => false,
        }
    } else {
        false
    }
}

/// Are all of these calls of LESSP?
fn are_comparisons(bank: &Bank, calls: &[TermId]) -> bool {
    for t in calls {
        if !is_comparison(bank, *t) {
            return false;
        }
    }
    true
}

/// The weights of the drafts that are still there, of which so many stand by themselves, and so many come before those that were
/// merged. Between the two are pairs.
fn weights_of(
    bank: &Bank,
    drafts: &[Draft],
    single: usize,
    whole: usize,
) -> Result<Vec<Weight>, AllocError> {
    let mut weights = Vec::new(bank.alloc());
    for place in 0..drafts.len() {
        let draft = &drafts[place];
        if !draft.gone {
            weights.push(Weight {
                apart: place >= whole,
                flawed: draft.score == 0
                    || ((place < single || place >= whole) && is_flawed(drafts, single, place)),
                compares: are_comparisons(bank, draft.calls.as_slice()),
                score: draft.score,
                by_parts: draft.by_parts,
                calls: own_calls(bank, draft.calls.as_slice()),
                changed: draft.changed.len() as u64,
                order: draft.order,
                place,
            })?;
        }
    }
    Ok(weights)
}

/// Does one draft come before another?
fn is_before(one: &Weight, other: &Weight) -> bool {
    if one.apart != other.apart {
        return other.apart;
    }
    if one.apart && one.changed != other.changed {
        return one.changed < other.changed;
    }
    if one.flawed != other.flawed {
        return other.flawed;
    }
    if one.compares != other.compares {
        return other.compares;
    }
    if one.score != other.score {
        return one.score > other.score;
    }
    if one.by_parts != other.by_parts {
        return other.by_parts;
    }
    if one.calls != other.calls {
        return one.calls > other.calls;
    }
    if one.changed != other.changed {
        return one.changed > other.changed;
    }
    one.order < other.order
}

/// How many come before one?
fn count_before(weights: &[Weight], one: &Weight) -> u32 {
    let mut count: u32 = 0;
    for other in weights {
        if is_before(other, one) {
            count = count.saturating_add(1);
        }
    }
    count
}

/// The place of the draft before which so many come.
fn place_of(weights: &[Weight], turn: u32) -> Option<usize> {
    for one in weights {
        if count_before(weights, one) == turn {
            return Some(one.place);
        }
    }
    None
}

/// Was the draft at a place merged into another, or another into it?
fn is_merged(drafts: &[Draft], place: usize, draft: &Draft) -> bool {
    place < drafts.len()
        && !draft.gone
        && (drafts[place].gone || drafts[place].calls.len() != draft.calls.len())
}

/// Adds those drafts that were merged, as they were before.
fn add_apart(drafts: &mut Vec<Draft>, mut apart: Vec<Draft>) -> Result<(), AllocError> {
    for _ in 0..apart.len() {
        if let Some(draft) = apart.pop() {
            if is_merged(drafts.as_slice(), apart.len(), &draft) {
                drafts.push(draft)?;
            }
        }
    }
    Ok(())
}

/// Subsumes and merges the drafts of a goal's calls, adds pairs of them and those that were merged, from a second list of the same
/// drafts, and tells the place of the one of this number.
pub fn choose(
    bank: &Bank,
    goal: &[TermId],
    drafts: &mut Vec<Draft>,
    mut apart: Vec<Draft>,
    turn: u32,
) -> Result<Option<usize>, AllocError> {
    let alloc = bank.alloc();
    subsume(alloc, drafts)?;
    merge(alloc, drafts)?;
    subsume(alloc, &mut apart)?;
    let single = drafts.len();
    pair(bank, goal, drafts, single)?;
    let whole = drafts.len();
    add_apart(drafts, apart)?;
    let weights = weights_of(bank, drafts.as_slice(), single, whole)?;
    Ok(place_of(weights.as_slice(), turn))
}
