//! The legal mover of the waterfall: each goal is led on by a legal move, or told to be left over where no move leads on.
//!
//! A goal that is not in normal form is simplified, where what is left is. One that is, and to which ELIM led, is simplified too, where
//! that changes it: else it might be led to itself by ELIM again. Any other in normal form is led on by SUBST, ELIM, FERT, GEN or IRR
//! where it has a candidate: of ELIM one by the rule of a shell, or else one by that of an enabled axiom or lemma. Where no move has one,
//! it is left over by the first cause that holds, or led on by an induction. No way back is kept of an induction: where all of its goals
//! are proved, the goal is too, and a closer is asked for its line.
//!
//! Nothing is told of a goal whose simplification is not in normal form, for which no scheme of an induction is found, or of which the
//! closer finds no line.
#![tactic(auto)]

// what closes goals that inductions led to proved ones
mod closer;

// what is kept of a move
mod way;

// goals in normal form
mod plain;

// simplification
mod simplifying;
mod thinning;

// SUBST, FERT and IRR
mod moving;

// ELIM and GEN
mod eliminating;
mod generalizing;

// the goals above
mod above;

// whether a goal is false or in normal form
mod form;

// why a goal is left over
mod leaving;
mod suggesting;

// induction
mod inducting;

// the way back
mod closing;

// the mover
mod legal;

pub use closer::{Closer, NoCloser};
pub use inducting::{Inductor, NoInductor};
pub use legal::Legal;
pub use suggesting::suggests;
pub use way::Way;
