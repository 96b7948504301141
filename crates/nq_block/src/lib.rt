//! The text of a log: the block of one event, from the lines of the kernel and the terms that they use.
//!
//! [`write_block`] writes a block: each term once, just before the first line that uses it, each line of the log in its
//! order, DROP lines, and the closing line. Its contract says that the block is right, what it claims, and that its DROP
//! lines stand directly after the last use of each line. The first line and the last of a whole log are written by
//! [`write_header`] and [`write_end`], and by the law of [`open_log`] a first line, blocks and a last line are a right log,
//! whose claims are those of the blocks.
#![tactic(auto)]

ghost use Rattle.nq_block.specs.Names.{SymbolsBegin, SymbolsGrow, SymbolsStay};
ghost use Rattle.nq_block.specs.OpenLogs.{LogBegins, BlockFollows, LogEnds};

// the closing line
mod closing;

// a block in writing: its lines, and the numbers of its terms
mod writer;

// the lines of terms
mod terms;

// the lines of rules
mod bindings;
mod inductions;
mod rules;
mod sums;

// the closing lines
mod closings;
mod recursions;
mod shells;

// the block, and the first and the last line of a log
mod block;

pub use block::{write_block, write_end, write_header};
pub use closing::{Closing, Measured};

/// A log that is written from its front goes on block by block, and is right with its last line.
pub fn open_log()
    ensures begins { LogBegins }
    ensures follows { BlockFollows }
    ensures ends { LogEnds }
{}

/// The names of a history are such as a log can spell: at first, after one more such event, and after an undo.
pub fn spelled_names()
    ensures begins { SymbolsBegin }
    ensures grows { SymbolsGrow }
    ensures stays { SymbolsStay }
{}
