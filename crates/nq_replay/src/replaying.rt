//! The lines of a law.
ghost use Rattle.std.specs.Prelude.{◌≡◌, All, IfOk, OnOk, IsSome, Some};
ghost use Rattle.nq_bank.specs.Content.{terms_at};
ghost use Rattle.nq_bank.specs.Shells.{texts_at};
ghost use Rattle.nq_kernel.specs.Meaning.{clause_at};
ghost use Rattle.nq_kernel.specs.Growing.{WorkStands, LineStands};
ghost use Rattle.nq_replay.specs.Uncounted.{GrowsUncounted};
ghost use Rattle.nq_replay.specs.Replaying.{law_line, after_rules, last_of, law_clause};
ghost use Rattle.nq_replay.specs.Parts.{PartsStand, lines_held};

use crate::lines::add_line;
use crate::parts::{Parts, parts_of};
use crate::rules::{number_at, rule_of};
use crate::table::{Law, LawRule};
use nq_history::History;
use nq_kernel::Work;
use std::alloc::AllocError;

/// Adds a rule line of a law, after lines of these numbers.
fn add_rule(
    work: &mut Work,
    history: &History,
    parts: &Parts,
    numbers: &[u64],
    rule: LawRule,
) -> Result<u64, AllocError>
    requires stands { WorkStands history.now work.old }
    requires parts { PartsStand work.old.bank parts.now }
    requires lines { All (LineStands work.old) numbers.now }
    requires rule { IsSome (law_line (texts_at work.old.bank parts.now.names.items) (terms_at work.old.bank parts.now.terms.items) (lines_held work.old numbers.now) rule) }
    ensures line { IfOk result (λ n. clause_at work.new.bank work.new.log n ≡ law_line (texts_at work.old.bank parts.now.names.items) (terms_at work.old.bank parts.now.terms.items) (lines_held work.old numbers.now) rule) }
    ensures grows { GrowsUncounted history.now work.old work.new }
{
    let made = rule_of(&work.bank, parts, numbers, rule)?;
    add_line(work, history, made)
}

/// Adds rule lines of a law, after lines of these numbers.
fn add_rules(
    work: &mut Work,
    history: &History,
    parts: &Parts,
    numbers: &mut Vec<u64>,
    rules: &[LawRule],
) -> Result<(), AllocError>
    requires stands { WorkStands history.now work.old }
    requires parts { PartsStand work.old.bank parts.now }
    requires lines { All (LineStands work.old) numbers.old.items }
    requires rules { IsSome (after_rules (texts_at work.old.bank parts.now.names.items) (terms_at work.old.bank parts.now.terms.items) (lines_held work.old numbers.old.items) rules.now) }
    ensures lines { OnOk result (All (LineStands work.new) numbers.new.items) }
    ensures clauses { OnOk result (after_rules (texts_at work.old.bank parts.now.names.items) (terms_at work.old.bank parts.now.terms.items) (lines_held work.old numbers.old.items) rules.now ≡ Some (lines_held work.new numbers.new.items)) }
    ensures grows { GrowsUncounted history.now work.old work.new }
{
    for rule in rules {
        let n = add_rule(work, history, parts, numbers.as_slice(), *rule)?;
        numbers.push(n)?;
    }
    Ok(())
}

/// The last line of rule lines of a law, after lines that are known.
fn last_line(
    work: &mut Work,
    history: &History,
    parts: &Parts,
    known: &[u64],
    rules: &[LawRule],
) -> Result<u64, AllocError>
    requires stands { WorkStands history.now work.old }
    requires parts { PartsStand work.old.bank parts.now }
    requires lines { All (LineStands work.old) known.now }
    requires rules { IsSome (last_of (after_rules (texts_at work.old.bank parts.now.names.items) (terms_at work.old.bank parts.now.terms.items) (lines_held work.old known.now) rules.now)) }
    ensures line { IfOk result (λ n. clause_at work.new.bank work.new.log n ≡ last_of (after_rules (texts_at work.old.bank parts.now.names.items) (terms_at work.old.bank parts.now.terms.items) (lines_held work.old known.now) rules.now)) }
    ensures grows { GrowsUncounted history.now work.old work.new }
{
    let mut numbers = Vec::from_slice(work.bank.alloc(), known)?;
    add_rules(work, history, parts, &mut numbers, rules)?;
    let last = numbers.len() as u64;
    Ok(number_at(numbers.as_slice(), last))
}

/// Adds the lines of a law, after lines that are known, and tells the number of the last, which holds the law's clause.
pub fn replay(
    work: &mut Work,
    history: &History,
    law: Law,
    known: &[u64],
) -> Result<u64, AllocError>
    requires stands { WorkStands history.now work.old }
    requires known { All (LineStands work.old) known.now }
    requires law { IsSome (law_clause law (lines_held work.old known.now)) }
    ensures line { IfOk result (λ n. clause_at work.new.bank work.new.log n ≡ law_clause law (lines_held work.old known.now)) }
    ensures grows { GrowsUncounted history.now work.old work.new }
{
    let parts = parts_of(work, history, law)?;
    last_line(work, history, &parts, known, law.rules)
}
