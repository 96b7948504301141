//! Whether a term stands on both sides of an equation or an inequality.
ghost use Rattle.std.specs.Prelude.{◌≡◌, ◌∷◌, [], ◌&&◌, false, All, IfOk, Err};
ghost use Rattle.nq_logic.specs.Terms.{call};
ghost use Rattle.nq_logic.specs.Values.{is_value};
ghost use Rattle.nq_bank.specs.Content.{Stands, IsNamed, term_at, terms_at, text_at};
ghost use Rattle.nq_goals.specs.Generalizing.{is_on_both_sides};
ghost use Rattle.nq_goals.specs.Replacing.{stands_in};

use crate::answers::is_both;
use nq_bank::{Bank, Node, Sym, TermId};
use nq_kernel::Stop;
use nq_moves::stands_in_these;
use nq_stuck::is_comparison;

/// Is a the term, or does it stand in it? It is no value.
pub fn stands_inside(bank: &Bank, a: TermId, t: TermId) -> Result<bool, Stop>
    requires first { Stands bank.now a }
    requires second { Stands bank.now t }
    requires other { is_value (term_at bank.now a) ≡ false }
    ensures answer { IfOk result (λ b. b ≡ stands_in (term_at bank.now a) (term_at bank.now t)) }
    ensures memory { result ≡ Err Stop.OutOfSteps → ⊥ }
{
    match stands_in_these(bank, a, &[t]) {
        Ok(found) => Ok(found),
        Err(_) => Err(Stop::Memory),
    }
}

/// Does a term that is no value stand in both?
fn stands_in_both(bank: &Bank, a: TermId, left: TermId, right: TermId) -> Result<bool, Stop>
    requires term { Stands bank.now a }
    requires left { Stands bank.now left }
    requires right { Stands bank.now right }
    requires other { is_value (term_at bank.now a) ≡ false }
    ensures answer { IfOk result (λ b. b ≡ (stands_in (term_at bank.now a) (term_at bank.now left) && stands_in (term_at bank.now a) (term_at bank.now right))) }
    ensures memory { result ≡ Err Stop.OutOfSteps → ⊥ }
{
    let first = stands_inside(bank, a, left)?;
    let second = stands_inside(bank, a, right)?;
    Ok(is_both(first, second))
}

fn stands_on_both(bank: &Bank, a: TermId, f: Sym, left: TermId, right: TermId) -> Result<bool, Stop>
    requires term { Stands bank.now a }
    requires function { IsNamed bank.now f }
    requires left { Stands bank.now left }
    requires right { Stands bank.now right }
    requires other { is_value (term_at bank.now a) ≡ false }
    ensures answer { IfOk result (λ b. b ≡ is_on_both_sides (term_at bank.now a) (call (text_at bank.now f) (terms_at bank.now (left ∷ right ∷ [])))) }
    ensures memory { result ≡ Err Stop.OutOfSteps → ⊥ }
{
    if is_comparison(bank, f) {
        stands_in_both(bank, a, left, right)
    } else {
        Ok(false)
    }
}

fn stands_on_sides(bank: &Bank, a: TermId, f: Sym, arguments: &[TermId]) -> Result<bool, Stop>
    requires term { Stands bank.now a }
    requires function { IsNamed bank.now f }
    requires arguments { All (Stands bank.now) arguments.now }
    requires other { is_value (term_at bank.now a) ≡ false }
    ensures answer { IfOk result (λ b. b ≡ is_on_both_sides (term_at bank.now a) (call (text_at bank.now f) (terms_at bank.now arguments.now))) }
    ensures memory { result ≡ Err Stop.OutOfSteps → ⊥ }
{
    match arguments {
        [left, right] => stands_on_both(bank, a, f, *left, *right),
        _ => Ok(false),
    }
}

/// Does a term that is no value stand on both sides of a call of EQUAL or LESSP?
pub fn is_on_both_sides(bank: &Bank, a: TermId, t: TermId) -> Result<bool, Stop>
    requires first { Stands bank.now a }
    requires second { Stands bank.now t }
    requires other { is_value (term_at bank.now a) ≡ false }
    ensures answer { IfOk result (λ b. b ≡ is_on_both_sides (term_at bank.now a) (term_at bank.now t)) }
    ensures memory { result ≡ Err Stop.OutOfSteps → ⊥ }
{
    match bank.node(t) {
        Node::App(f, _) => stands_on_sides(bank, a, f, bank.args(t)),
        Node::Num(_) => Ok(false),
        Node::Var(_) => Ok(false),
    }
}
