//! DROP lines: each line of a block is dropped as soon as it is used no more.
//!
//! A line that a checker was told to drop takes no memory of it. Directly after each rule line stand the DROP lines of those
//! that it is the last to cite, and of itself where nothing cites it; what the closing line cites is not dropped.
#![tactic(auto)]

// which lines each line cites, and where each is used last
mod uses;

// which lines end after each
mod ends;

// the lines of a text
mod reading;

// the block's text
mod dropping;

ghost use Rattle.nq_drops.specs.Laws.{DropsKeepClaim, DropsStand};

pub use dropping::write_dropped;

/// A block claims with such DROP lines what it claims without them, and they stand where they belong.
pub fn dropped_blocks()
    ensures claim { DropsKeepClaim }
    ensures stand { DropsStand }
{}
