//! A closer of the legal mover: the free search, with a share of the steps that are left.
#![tactic(auto)]

mod closing;

pub use closing::SearchCloser;
