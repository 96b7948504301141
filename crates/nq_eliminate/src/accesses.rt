//! Eliminations by the rules of shells: where a goal calls an accessor on a variable.
ghost use Rattle.std.specs.Prelude.{◌≡◌, ◌∷◌, [], All, IfOk, Err, MatchOption, false};
ghost use Rattle.std.specs.List.{list_any};
ghost use Rattle.nq_logic.specs.Names.{has_name};
ghost use Rattle.nq_logic.specs.Terms.{call};
ghost use Rattle.nq_logic.specs.Values.{is_value};
ghost use Rattle.nq_bank.specs.Content.{IsNamed, Stands, term_at, terms_at, text_at};
ghost use Rattle.nq_bank.specs.Shells.{shells_at, ShellStands};
ghost use Rattle.nq_history.specs.Events.{events_at, HistoryStands};
ghost use Rattle.nq_goals.specs.Functions.{accessors};
ghost use Rattle.nq_goals.specs.Replacing.{stands_in_one};
ghost use Rattle.nq_stuck.specs.Destructors.{is_accessor_call};
ghost use Rattle.nq_eliminate.specs.Shells.{HasAccessor, HasNoneOfShells, IsAccess, IsAccessIn, IsShellCandidate, is_access_in};

use nq_bank::{Bank, Node, Shell, Sym, TermId};
use nq_history::History;
use nq_kernel::Stop;
use nq_moves::stands_in_these;
use nq_stuck::{calls_in, is_part};

/// A variable on which a goal calls an accessor, and the shell of the accessor.
#[derive(Clone, Copy)]
pub struct Access<'a> {
    /// The shell.
    pub shell: &'a Shell,
    /// The name of the variable.
    pub variable: Sym,
}

/// The first of these shells that has an accessor of this name.
fn shell_of<'a>(bank: &Bank, shells: &'a [Shell], f: Sym) -> Option<&'a Shell>
    requires shells { All (ShellStands bank.now) shells.now }
    requires name { IsNamed bank.now f }
    ensures { MatchOption result (has_name (text_at bank.now f) (accessors (shells_at bank.now shells.now)) ≡ false) (λ s. HasAccessor bank.now (shells_at bank.now shells.now) (text_at bank.now f) s.now) }
{
    match shells {
        [] => None,
        [first, rest @ ..] => {
            if is_part(bank, first.parts.as_slice(), f) {
                Some(first)
            } else {
                shell_of(bank, rest, f)
            }
        }
    }
}

/// What the call of a function on a term accesses.
fn access_on<'a>(bank: &Bank, shells: &'a [Shell], f: Sym, t: TermId) -> Option<Access<'a>>
    requires shells { All (ShellStands bank.now) shells.now }
    requires name { IsNamed bank.now f }
    requires term { Stands bank.now t }
    ensures { MatchOption result (is_accessor_call (shells_at bank.now shells.now) (call (text_at bank.now f) (term_at bank.now t ∷ [])) ≡ false) (IsAccess bank.now (shells_at bank.now shells.now) (call (text_at bank.now f) (term_at bank.now t ∷ []))) }
{
    match bank.node(t) {
        Node::Var(variable) => match shell_of(bank, shells, f) {
            Some(shell) => Some(Access { shell, variable }),
            None => None,
        },
        Node::Num(_) => None,
        Node::App(_, _) => None,
    }
}

/// What the call of a function on these terms accesses.
fn access_by<'a>(
    bank: &Bank,
    shells: &'a [Shell],
    f: Sym,
    arguments: &[TermId],
) -> Option<Access<'a>>
    requires shells { All (ShellStands bank.now) shells.now }
    requires name { IsNamed bank.now f }
    requires arguments { All (Stands bank.now) arguments.now }
    ensures { MatchOption result (is_accessor_call (shells_at bank.now shells.now) (call (text_at bank.now f) (terms_at bank.now arguments.now)) ≡ false) (IsAccess bank.now (shells_at bank.now shells.now) (call (text_at bank.now f) (terms_at bank.now arguments.now))) }
{
    match arguments {
        [] => None,
        [only] => access_on(bank, shells, f, *only),
        [_, _, ..] => None,
    }
}

/// What a term accesses, where it is a call of an accessor on a variable.
fn access_of<'a>(bank: &Bank, shells: &'a [Shell], t: TermId) -> Option<Access<'a>>
    requires shells { All (ShellStands bank.now) shells.now }
    requires term { Stands bank.now t }
    ensures { MatchOption result (is_accessor_call (shells_at bank.now shells.now) (term_at bank.now t) ≡ false) (IsAccess bank.now (shells_at bank.now shells.now) (term_at bank.now t)) }
{
    match bank.node(t) {
        Node::App(f, _) => access_by(bank, shells, f, bank.args(t)),
        Node::Num(_) => None,
        Node::Var(_) => None,
    }
}

/// Does a term that is no value stand in the goal?
fn stands_here(bank: &Bank, t: TermId, goal: &[TermId]) -> Result<bool, Stop>
    requires term { Stands bank.now t }
    requires goal { All (Stands bank.now) goal.now }
    requires other { is_value (term_at bank.now t) ≡ false }
    ensures answer { IfOk result (λ b. b ≡ stands_in_one (term_at bank.now t) (terms_at bank.now goal.now)) }
    ensures memory { result ≡ Err Stop.OutOfSteps → ⊥ }
{
    match stands_in_these(bank, t, goal) {
        Ok(found) => Ok(found),
        Err(_) => Err(Stop::Memory),
    }
}

/// What a term accesses, where it is a call of an accessor on a variable and stands in the goal.
fn access_in<'a>(
    bank: &Bank,
    shells: &'a [Shell],
    goal: &[TermId],
    t: TermId,
) -> Result<Option<Access<'a>>, Stop>
    requires shells { All (ShellStands bank.now) shells.now }
    requires goal { All (Stands bank.now) goal.now }
    requires term { Stands bank.now t }
    ensures access { IfOk result (λ found. MatchOption found (is_access_in (shells_at bank.now shells.now) (terms_at bank.now goal.now) (term_at bank.now t) ≡ false) (IsAccessIn bank.now (shells_at bank.now shells.now) (terms_at bank.now goal.now))) }
    ensures memory { result ≡ Err Stop.OutOfSteps → ⊥ }
{
    match access_of(bank, shells, t) {
        Some(access) => {
            if stands_here(bank, t, goal)? {
                Ok(Some(access))
            } else {
                Ok(None)
            }
        }
        None => Ok(None),
    }
}

/// What the first of these terms accesses that is a call of an accessor on a variable and stands in the goal.
fn first_access<'a>(
    bank: &Bank,
    shells: &'a [Shell],
    goal: &[TermId],
    terms: &[TermId],
) -> Result<Option<Access<'a>>, Stop>
    requires shells { All (ShellStands bank.now) shells.now }
    requires goal { All (Stands bank.now) goal.now }
    requires terms { All (Stands bank.now) terms.now }
    ensures access { IfOk result (λ found. MatchOption found (list_any (is_access_in (shells_at bank.now shells.now) (terms_at bank.now goal.now)) (terms_at bank.now terms.now) ≡ false) (IsAccessIn bank.now (shells_at bank.now shells.now) (terms_at bank.now goal.now))) }
    ensures memory { result ≡ Err Stop.OutOfSteps → ⊥ }
{
    for t in terms {
        if let Some(access) = access_in(bank, shells, goal, *t)? {
            return Ok(Some(access));
        }
    }
    Ok(None)
}

/// A variable that the rule of a shell eliminates from a goal. It is none exactly where no rule of a shell has a candidate in it.
pub fn find_access<'a>(
    bank: &Bank,
    history: &'a History,
    goal: &[TermId],
) -> Result<Option<Access<'a>>, Stop>
    requires history { HistoryStands bank.now history.now }
    requires goal { All (Stands bank.now) goal.now }
    ensures access { IfOk result (λ found. MatchOption found (HasNoneOfShells (events_at bank.now history.now) (terms_at bank.now goal.now)) (IsShellCandidate bank.now (events_at bank.now history.now) (terms_at bank.now goal.now))) }
    ensures memory { result ≡ Err Stop.OutOfSteps → ⊥ }
{
    match calls_in(bank, goal, usize::MAX) {
        Ok(calls) => first_access(bank, history.shells(), goal, calls.as_slice()),
        Err(_) => Err(Stop::Memory),
    }
}
