//! The lines of a log: the grammar of each line, and its one spelling.
//!
//! A log is the written proof of a run: each line gives a term, gives a clause by a rule, or ends a block with an event.
//! This crate knows how each line is spelled and nothing of what it says. [`write_line`] writes a line, [`parse_line`]
//! reads it: no text spells two lines ([`one_spelling`]), what was written is read as it was, and a text that spells no
//! line gives `None`.
#![tactic(auto)]

mod closing_lines;
mod fields;
mod item;
mod line;
mod number;
mod parts;
mod reading;
mod rule_lines;
mod stop;
mod symbol;
mod term_lines;
mod text;
mod word;
mod writing;

pub use line::{Binding, LogLine, Mode, Multiple, Sign, Version};
pub use reading::{one_spelling, parse_line};
pub use text::Text;
pub use word::Word;
pub use writing::write_line;
