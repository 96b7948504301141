//! Facts that are told of the terms of a goal, together with instances of lemmas.
ghost use Rattle.std.specs.Prelude.{◌≡◌, ◌∷◌, ◌++◌, [], All, IfOk, OnOk, Err};
ghost use Rattle.nq_instances.specs.Parts.{IsLine};

use nq_history::History;
use nq_kernel::{Stop, Work};
use nq_lines::Fact;

/// Adds a fact.
fn push(facts: &mut Vec<Fact>, fact: Fact) -> Result<(), Stop>
    ensures ok { OnOk result (facts.new.items ≡ facts.old.items ++ fact ∷ []) }
    ensures memory { result ≡ Err Stop.OutOfSteps → ⊥ }
{
    match facts.push(fact) {
        Ok(()) => Ok(()),
        Err(_) => Err(Stop::Memory),
    }
}

/// Adds facts.
fn add_facts(
    work: &Work,
    history: &History,
    facts: &mut Vec<Fact>,
    more: &[Fact],
) -> Result<(), Stop>
    requires facts { All (IsLine history.now work.now) facts.old.items }
    requires more { All (IsLine history.now work.now) more.now }
    ensures facts { OnOk result (All (IsLine history.now work.now) facts.new.items) }
    ensures memory { result ≡ Err Stop.OutOfSteps → ⊥ }
{
    let _ = (work.bank.alloc(), history.len());
    for fact in more {
        push(facts, *fact)?;
    }
    Ok(())
}

/// What is told, and instances of lemmas after it.
pub fn with_told(
    work: &Work,
    history: &History,
    told: &[Fact],
    instances: &[Fact],
) -> Result<Vec<Fact>, Stop>
    requires told { All (IsLine history.now work.now) told.now }
    requires instances { All (IsLine history.now work.now) instances.now }
    ensures facts { IfOk result (λ fs. All (IsLine history.now work.now) fs.items) }
    ensures memory { result ≡ Err Stop.OutOfSteps → ⊥ }
{
    let mut facts = Vec::new(work.bank.alloc());
    add_facts(work, history, &mut facts, told)?;
    add_facts(work, history, &mut facts, instances)?;
    Ok(facts)
}
