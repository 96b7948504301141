//! The test that a line has only some literals.
ghost use Rattle.std.specs.Prelude.{◌≡◌, nat_eq, true};
ghost use Rattle.std.specs.List.{list_all, list_any};
ghost use Rattle.nq_bank.specs.Content.{terms_at};
ghost use Rattle.nq_kernel.specs.Growing.{WorkStands};
ghost use Rattle.nq_lines.specs.Lines.{LineHasOnly};

use nq_bank::TermId;
use nq_history::History;
use nq_kernel::Work;

/// Is a term among these?
pub fn has_id(ids: &[TermId], t: TermId) -> bool
    ensures { result ≡ list_any (λ u. nat_eq u.0 t.0) ids.now }
{
    ids.iter().any(|u| u.0 == t.0)
}

/// Are all of these among others?
fn are_among(found: &[TermId], literals: &[TermId]) -> bool
    ensures { result ≡ list_all (λ t. list_any (λ u. nat_eq u.0 t.0) literals.now) found.now }
{
    found.iter().all(|t| has_id(literals, *t))
}

/// Does a line stand that has only these literals?
pub fn has_only(work: &Work, history: &History, line: u64, literals: &[TermId]) -> bool
    requires { WorkStands history.now work.now }
    ensures { result ≡ true → LineHasOnly work.now line (terms_at work.now.bank literals.now) }
{
    match work.log.cited(line) {
        Some(found) => are_among(found, literals),
        None => false,
    }
}
