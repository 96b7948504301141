//! The commentary of a run: the lines of each form's report, and the closing lines.
//!
//! The contract that the layer above uses: `render_report` and `render_closing` give exactly the
//! lines of the definitions, for each report and for the totals of all.
#![tactic(auto)]

mod answer;
mod counting;
mod counts;
mod goal_lines;
mod kind;
mod report;
mod step;
mod text;
mod trial_lines;

pub use answer::{FormAnswer, Quick, Refusal, Trial};
pub use counts::Counts;
pub use kind::Kind;
pub use report::{FormReport, SyntaxFault, render_closing, render_report, shown_word};
pub use step::{Cause, Move, ShownStep};
