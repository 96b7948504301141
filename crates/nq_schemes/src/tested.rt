//! Lists of tests, and what tests say.

use crate::parted::{Saying, Test};
use crate::terms::{argument_of, is_call_of};
use nq_bank::{Bank, Sym, TermId, ground};
use std::alloc::{AllocError, Global};

/// Is a test among these?
pub fn has_test(tests: &[Test], test: Test) -> bool {
    for t in tests {
        if t.term.0 == test.term.0 && t.holds == test.holds {
            return true;
        }
    }
    false
}

/// Does one of these tests say this?
fn is_said(tests: &[Test], saying: Saying) -> bool {
    for t in tests {
        let other = t.saying;
        if other.term.0 == saying.term.0
            && other.pair == saying.pair
            && other.holds == saying.holds
        {
            return true;
        }
    }
    false
}

/// Do others say all that these tests say?
pub fn are_within(tests: &[Test], others: &[Test]) -> bool {
    for t in tests {
        if !is_said(others, t.saying) {
            return false;
        }
    }
    true
}

/// Does one of these tests hold where one of the others fails?
pub fn exclude(tests: &[Test], others: &[Test]) -> bool {
    for t in tests {
        let turned = Saying {
            holds: !t.saying.holds,
            ..t.saying
        };
        if is_said(others, turned) {
            return true;
        }
    }
    false
}

/// Is a term a call of this function?
fn is_called(bank: &Bank, f: Sym, t: TermId) -> bool {
    t.0 < bank.len() && is_call_of(bank, f, t)
}

/// What it says that a term holds, or that it fails.
pub fn saying_of(bank: &Bank, t: TermId, holds: bool) -> Saying {
    if let Some(a) = argument_of(bank, t, 0) {
        if is_called(bank, ground::LISTP, t) {
            return Saying {
                pair: true,
                term: a,
                holds,
            };
        }
        if is_called(bank, ground::NLISTP, t) {
            return Saying {
                pair: true,
                term: a,
                holds: !holds,
            };
        }
    }
    Saying {
        pair: false,
        term: t,
        holds,
    }
}

/// Some tests, and those of others that are not among them.
pub fn joined_tests(
    alloc: Global,
    tests: &[Test],
    others: &[Test],
) -> Result<Vec<Test>, AllocError> {
    let mut joined = Vec::from_slice(alloc, tests)?;
    for t in others {
        if !has_test(tests, *t) {
            joined.push(*t)?;
        }
    }
    Ok(joined)
}
