//! Instances of patterns, and sides that differ by an exchange of variables.
ghost use Rattle.std.specs.Prelude.{◌≡◌, ◌&&◌, IfOk};
ghost use Rattle.nq_logic.specs.RuleShapes.{variables_of};
ghost use Rattle.nq_logic.specs.Admissible.{has_variables};
ghost use Rattle.nq_bank.specs.Content.{Stands, term_at};
ghost use Rattle.nq_goals.specs.Matching.{is_instance, is_permutative};

use crate::barred::is_both;
use crate::variables::has_own;
use nq_bank::{Bank, TermId};
use nq_clause::match_term;
use std::alloc::AllocError;
use std::collections::HashMap;

/// Is a term an instance of the pattern?
pub fn is_instance(bank: &Bank, pattern: TermId, t: TermId) -> Result<bool, AllocError>
    requires pattern { Stands bank.now pattern }
    requires stands { Stands bank.now t }
    ensures { IfOk result (λ answer. answer ≡ is_instance (term_at bank.now pattern) (term_at bank.now t)) }
{
    let mut bindings = Vec::new(bank.alloc());
    let found = match_term(bank, pattern, t, &mut bindings)?;
    Ok(found)
}

/// Is the left term an instance of the right one, which has no other variables?
fn is_exchanged(bank: &Bank, left: TermId, right: TermId) -> Result<bool, AllocError>
    requires left { Stands bank.now left }
    requires right { Stands bank.now right }
    ensures { IfOk result (λ answer. answer ≡ (is_instance (term_at bank.now right) (term_at bank.now left) && has_variables (variables_of (term_at bank.now left)) (term_at bank.now right))) }
{
    let back = is_instance(bank, right, left)?;
    let mut known = HashMap::new(bank.alloc());
    let own = has_own(bank, &mut known, Some(left), right)?;
    Ok(is_both(back, own))
}

/// Is the right term the left one with its variables exchanged?
pub fn is_permutative(bank: &Bank, left: TermId, right: TermId) -> Result<bool, AllocError>
    requires left { Stands bank.now left }
    requires right { Stands bank.now right }
    ensures { IfOk result (λ answer. answer ≡ is_permutative (term_at bank.now left) (term_at bank.now right)) }
{
    // few right sides are instances of their left sides, so that this is asked first
    if is_instance(bank, left, right)? {
        is_exchanged(bank, left, right)
    } else {
        Ok(false)
    }
}
