//! Lines that are added without counting steps, each told by the literals that it may hold.
ghost use Rattle.std.specs.Prelude.{◌≡◌, ◌≤◌, ◌∷◌, [], IfOk, IsTrue, Some, codes};
ghost use Rattle.nq_logic.specs.Sizes.{depth_of};
ghost use Rattle.nq_logtext.specs.Symbols.{is_symbol};
ghost use Rattle.nq_bank.specs.Content.{NamesText, term_at};
ghost use Rattle.nq_clause.specs.Substitution.{substitution_at};
ghost use Rattle.nq_rule.specs.Results.{instance_of};
ghost use Rattle.nq_kernel.specs.Growing.{WorkStands, LineStands, held};
ghost use Rattle.nq_lines.specs.Lines.{IsTermIn, CutsTo};
ghost use Rattle.nq_lines.specs.Instances.{ArePairsIn, InstancesTo};
ghost use Rattle.nq_replay.specs.Uncounted.{IsShallow, GrowsUncounted};
ghost use Rattle.nq_part_lines.specs.LawLines.{IsLaw, term_room};
ghost use Rattle.nq_part_lines.specs.Pairs.{three_pairs};

use nq_bank::{Sym, TermId};
use nq_clause::Pair;
use nq_history::History;
use nq_kernel::{Rule, Work};
use nq_replay::add_line;
use std::alloc::AllocError;

/// Adds the line that is cut from two by t: the first without t, and the second without `(NOT t)`.
pub fn cut(work: &mut Work, history: &History, a: u64, b: u64, t: TermId) -> Result<u64, AllocError>
    requires stands { WorkStands history.now work.old }
    requires first { LineStands work.old a }
    requires second { LineStands work.old b }
    requires term { IsTermIn history.now work.old t }
    ensures line { IfOk result (λ n. CutsTo work.old work.new (term_at work.old.bank t) a b n) }
    ensures stands { IfOk result (λ n. LineStands work.new n) }
    ensures grows { GrowsUncounted history.now work.old work.new }
{
    work.bank.is_sound();
    add_line(work, history, Rule::Cut(a, b, t))
}

/// Adds an instance of a line that has no term that is too deep.
pub fn instance(
    work: &mut Work,
    history: &History,
    line: u64,
    pairs: Vec<Pair>,
) -> Result<u64, AllocError>
    requires stands { WorkStands history.now work.old }
    requires line { LineStands work.old line }
    requires pairs { ArePairsIn history.now work.old pairs.items }
    requires shallow { IsShallow (Some (instance_of (substitution_at work.old.bank pairs.items) (held work.old line))) }
    ensures line { IfOk result (λ n. InstancesTo work.old work.new (substitution_at work.old.bank pairs.items) line n) }
    ensures grows { GrowsUncounted history.now work.old work.new }
{
    add_line(work, history, Rule::Instance(line, pairs))
}

/// The symbol of a text in upper case.
pub fn symbol(work: &mut Work, history: &History, text: &[u8]) -> Result<Sym, AllocError>
    requires stands { WorkStands history.now work.old }
    requires symbol { IsTrue (is_symbol text.now) }
    ensures name { IfOk result (λ s. NamesText work.new.bank s text.now) }
    ensures grows { GrowsUncounted history.now work.old work.new }
{
    work.bank.name(text)
}

/// Adds a law over the variable X, with a term in its place.
pub fn at_term(work: &mut Work, history: &History, line: u64, y: TermId) -> Result<u64, AllocError>
    requires stands { WorkStands history.now work.old }
    requires line { LineStands work.old line }
    requires law { IsLaw (held work.old line) }
    requires term { IsTermIn history.now work.old y }
    requires room { depth_of (term_at work.old.bank y) ≤ term_room }
    ensures line { IfOk result (λ n. InstancesTo work.old work.new ((codes "X", term_at work.old.bank y) ∷ []) line n) }
    ensures grows { GrowsUncounted history.now work.old work.new }
{
    let variable = symbol(work, history, b"X")?;
    let pairs = vec![in work.bank.alloc(); Pair { variable, term: y }]?;
    instance(work, history, line, pairs)
}

/// The pairs of X, Y and Z and three terms.
fn pairs_of_three(
    work: &mut Work,
    history: &History,
    x: TermId,
    y: TermId,
    z: TermId,
) -> Result<Vec<Pair>, AllocError>
    requires stands { WorkStands history.now work.old }
    requires first { IsTermIn history.now work.old x }
    requires second { IsTermIn history.now work.old y }
    requires third { IsTermIn history.now work.old z }
    ensures pairs { IfOk result (λ ps. substitution_at work.new.bank ps.items ≡ three_pairs (term_at work.old.bank x) (term_at work.old.bank y) (term_at work.old.bank z)) }
    ensures over { IfOk result (λ ps. ArePairsIn history.now work.new ps.items) }
    ensures grows { GrowsUncounted history.now work.old work.new }
{
    let a = symbol(work, history, b"X")?;
    let b = symbol(work, history, b"Y")?;
    let c = symbol(work, history, b"Z")?;
    let first = Pair {
        variable: a,
        term: x,
    };
    let second = Pair {
        variable: b,
        term: y,
    };
    let third = Pair {
        variable: c,
        term: z,
    };
    let pairs = vec![in work.bank.alloc(); first, second, third]?;
    Ok(pairs)
}

/// Adds a law over the variables X, Y and Z, with terms in their places.
pub fn at_three(
    work: &mut Work,
    history: &History,
    line: u64,
    x: TermId,
    y: TermId,
    z: TermId,
) -> Result<u64, AllocError>
    requires stands { WorkStands history.now work.old }
    requires line { LineStands work.old line }
    requires law { IsLaw (held work.old line) }
    requires first { IsTermIn history.now work.old x }
    requires second { IsTermIn history.now work.old y }
    requires third { IsTermIn history.now work.old z }
    requires first_room { depth_of (term_at work.old.bank x) ≤ term_room }
    requires second_room { depth_of (term_at work.old.bank y) ≤ term_room }
    requires third_room { depth_of (term_at work.old.bank z) ≤ term_room }
    ensures line { IfOk result (λ n. InstancesTo work.old work.new (three_pairs (term_at work.old.bank x) (term_at work.old.bank y) (term_at work.old.bank z)) line n) }
    ensures grows { GrowsUncounted history.now work.old work.new }
{
    let pairs = pairs_of_three(work, history, x, y, z)?;
    instance(work, history, line, pairs)
}
