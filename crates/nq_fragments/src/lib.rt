//! The fragments of lemmas that are proved at once, before any search. Definitions, no code.
//!
//! Read `specs/Tautologies`, `specs/Evaluation` and `specs/Instances`: a lemma is in the first fragment where it is a small
//! tautology, in the second where it is ground and has a value other than F, and in the third where it is an instance of an
//! axiom or lemma of the history. `specs/Outcomes` and `specs/Openings` say what a value is found by, and `examples` shows
//! evaluation at work. `specs/Fragments` puts the fragments in their order. The contract of every prover cites them, and so
//! does the definition of a run.
#![tactic(auto)]

mod connective;
pub mod examples;

pub use connective::Connective;
