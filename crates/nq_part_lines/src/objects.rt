//! What the accessor takes from an object that a shell's constructor makes of its variables is smaller than the object.
ghost use Rattle.std.specs.Prelude.{◌≡◌, ◌≤◌, ◌<◌, ◌∷◌, [], All, IfOk, MatchOption, Some, bytes_eq, codes, false, true, length, slice_get};
ghost use Rattle.nq_logic.specs.Terms.{Applied, Function, IsAmong};
ghost use Rattle.nq_logic.specs.Ground.{symbols_of};
ghost use Rattle.nq_logic.specs.ShellPrinciple.{shells_of};
ghost use Rattle.nq_logic.specs.Sizes.{depth_of};
ghost use Rattle.nq_logic.specs.Words.{not_term, true_term};
ghost use Rattle.nq_logic.specs.Histories.{Part};
ghost use Rattle.nq_logic.specs.Shells.{made};
ghost use Rattle.nq_arith.specs.Nests.{is_smaller};
ghost use Rattle.nq_bank.specs.Content.{IsIdOf, IsNamed, term_at, text_at};
ghost use Rattle.nq_bank.specs.Shells.{ShellStands, shell_at, shells_at};
ghost use Rattle.nq_part_lines.specs.Defaults.{has_base, is_free};
ghost use Rattle.nq_history.specs.Events.{events_at};
ghost use Rattle.nq_kernel.specs.Growing.{WorkStands, LineHolds};
ghost use Rattle.nq_lines.specs.Lines.{LineHasOnly};
ghost use Rattle.nq_replay.specs.Uncounted.{GrowsUncounted};
ghost use Rattle.nq_part_lines.specs.Known.{HasKnownRows, IsKnownShell, row_room};
ghost use Rattle.nq_part_lines.specs.Objects.{HasThisBase, IsAccessed, IsSized, IsTaken, IsZeroBase};
ghost use Rattle.nq_part_lines.specs.Small.{IsSmallIn};

use crate::defaulted::truth_default_line;
use crate::free::is_free;
use crate::lines::cut;
use crate::piece::Piece;
use crate::reading::{only_literal, read_piece, small_argument};
use crate::rows::row_line;
use crate::taken::{allowed_line, base_line};
use nq_bank::{Bank, BankFault, Shell, Sym, TermId, ground, ground_name, is_same_name};
use nq_history::History;
use nq_kernel::Work;
use nq_shell_parts::summands_found;
use std::alloc::AllocError;

const PART_OF_MADE: u64 = 6;

const WRONG_PART_OF_MADE: u64 = 7;

const SIZE_OF_MADE: u64 = 14;

const SIZE_OF_BASE: u64 = 15;

/// An equation of the size of an object, with its line.
#[derive(Clone, Copy, Debug, PartialEq, Eq)]
pub struct Sized {
    /// The terms in it.
    pub piece: Piece,
    /// The line.
    pub line: u64,
}

/// A base, the equation of its size and 0, and the line of that.
#[derive(Clone, Copy, Debug, PartialEq, Eq)]
pub struct ZeroBase {
    /// The base.
    pub base: TermId,
    /// The equation.
    pub none: TermId,
    /// The line.
    pub line: u64,
}

/// An object that a shell's constructor makes of its variables, with the line that what an accessor takes from it is smaller.
#[derive(Clone, Copy, Debug, PartialEq, Eq)]
pub struct Taken {
    /// The object.
    pub object: TermId,
    /// The line.
    pub line: u64,
}

/// Makes the call of a function of one argument.
pub fn call_on(work: &mut Work, history: &History, f: Sym, t: TermId) -> Result<TermId, AllocError>
    requires stands { WorkStands history.now work.old }
    requires named { IsNamed work.old.bank f }
    requires symbol { IsAmong (text_at work.old.bank f, 1) (symbols_of (events_at work.old.bank history.now)) }
    requires term { IsSmallIn history.now work.old t }
    requires low { depth_of (term_at work.old.bank t) ≤ row_room }
    ensures call { IfOk result (λ u. IsIdOf work.new.bank u (Applied (Function (text_at work.old.bank f)) (term_at work.old.bank t))) }
    ensures small { IfOk result (λ u. IsSmallIn history.now work.new u) }
    ensures grows { GrowsUncounted history.now work.old work.new }
{
    match work.bank.app(f, &[t]) {
        Ok(u) => Ok(u),
        Err(BankFault::Memory) => Err(AllocError),
        Err(BankFault::Deep) => unreachable!(),
    }
}

/// Makes the call of the accessor of the part at a place, of the object that the constructor makes of its variables.
fn accessor_call(
    work: &mut Work,
    history: &History,
    shell: &Shell,
    place: usize,
    object: TermId,
) -> Result<TermId, AllocError>
    requires stands { WorkStands history.now work.old }
    requires shell { ShellStands work.old.bank shell.now }
    requires known { IsKnownShell (events_at work.old.bank history.now) (shell_at work.old.bank shell.now) }
    requires place { place < length shell.now.parts.items }
    requires object { IsSmallIn history.now work.old object }
    requires object_is { term_at work.old.bank object ≡ made (shell_at work.old.bank shell.now) }
    ensures accessed { IfOk result (λ t. IsAccessed history.now work.new (shell_at work.old.bank shell.now) place t) }
    ensures grows { GrowsUncounted history.now work.old work.new }
{
    let part = &shell.parts[place];
    call_on(work, history, part.accessor, object)
}

/// Adds the line of the size of an object of a shell, and reads from it what the part at a place adds.
fn size_line(
    work: &mut Work,
    history: &History,
    shell: &Shell,
    place: usize,
) -> Result<Sized, AllocError>
    requires stands { WorkStands history.now work.old }
    requires shell { ShellStands work.old.bank shell.now }
    requires known { IsKnownShell (events_at work.old.bank history.now) (shell_at work.old.bank shell.now) }
    requires rows { HasKnownRows (events_at work.old.bank history.now) }
    requires place { place < length shell.now.parts.items }
    ensures sized { IfOk result (IsSized history.now work.new (shell_at work.old.bank shell.now) place) }
    ensures grows { GrowsUncounted history.now work.old work.new }
{
    summands_found();
    let more = shell.parts.len() - place - 1;
    let line = row_line(work, history, shell.constructor, SIZE_OF_MADE, 0)?;
    let equation = only_literal(work, history, line);
    let piece = read_piece(work, history, equation, place, more);
    Ok(Sized { piece, line })
}

/// The constructor of the shell that has a base, among shells.
fn shell_of_base(bank: &Bank, shells: &[Shell], d: Sym) -> Option<Sym>
    requires shells { All (ShellStands bank.now) shells.now }
    requires name { IsNamed bank.now d }
    ensures { MatchOption result (has_base (text_at bank.now d) (shells_at bank.now shells.now) ≡ false) (HasThisBase bank.now (shells_at bank.now shells.now) (text_at bank.now d)) }
{
    match shells {
        [] => None,
        [first, rest @ ..] => match first.base {
            None => shell_of_base(bank, rest, d),
            Some(b) => {
                if is_same_name(bank, d, b) {
                    Some(first.constructor)
                } else {
                    shell_of_base(bank, rest, d)
                }
            }
        },
    }
}

/// The constructor of the history's shell that has a base.
fn constructor_of_base(work: &Work, history: &History, d: Sym) -> Sym
    requires stands { WorkStands history.now work.now }
    requires named { IsNamed work.now.bank d }
    requires base { has_base (text_at work.now.bank d) (shells_of (events_at work.now.bank history.now)) ≡ true }
    ensures { HasThisBase work.now.bank (shells_of (events_at work.now.bank history.now)) (text_at work.now.bank d) result }
{
    match shell_of_base(&work.bank, history.shells(), d) {
        Some(constructor) => constructor,
        None => unreachable!(),
    }
}

/// Adds the line that the size of a base is 0.
fn zero_base(work: &mut Work, history: &History, d: Sym) -> Result<ZeroBase, AllocError>
    requires stands { WorkStands history.now work.old }
    requires rows { HasKnownRows (events_at work.old.bank history.now) }
    requires named { IsNamed work.old.bank d }
    requires base { has_base (text_at work.old.bank d) (shells_of (events_at work.old.bank history.now)) ≡ true }
    ensures base { IfOk result (IsZeroBase history.now work.new (text_at work.old.bank d)) }
    ensures grows { GrowsUncounted history.now work.old work.new }
{
    let constructor = constructor_of_base(work, history, d);
    let line = row_line(work, history, constructor, SIZE_OF_BASE, 0)?;
    let none = only_literal(work, history, line);
    let count = small_argument(work, history, none, 1);
    let base = small_argument(work, history, count, 1);
    Ok(ZeroBase { base, none, line })
}

/// Adds the line that a part that is allowed is smaller, with the NOT of that it is.
fn part_line(
    work: &mut Work,
    history: &History,
    shell: &Shell,
    sized: Sized,
    taken: TermId,
    place: usize,
) -> Result<u64, AllocError>
    requires stands { WorkStands history.now work.old }
    requires shell { ShellStands work.old.bank shell.now }
    requires known { IsKnownShell (events_at work.old.bank history.now) (shell_at work.old.bank shell.now) }
    requires place { place < length shell.now.parts.items }
    requires sized { IsSized history.now work.old (shell_at work.old.bank shell.now) place sized }
    requires taken { IsAccessed history.now work.old (shell_at work.old.bank shell.now) place taken }
    ensures line { IfOk result (λ n. LineHasOnly work.new n (not_term (term_at work.old.bank sized.piece.allowed) ∷ is_smaller (term_at work.old.bank taken) (term_at work.old.bank sized.piece.object) ∷ [])) }
    ensures grows { GrowsUncounted history.now work.old work.new }
{
    let more = shell.parts.len() - place - 1;
    let part = row_line(
        work,
        history,
        shell.constructor,
        PART_OF_MADE,
        place as u64 + 1,
    )?;
    allowed_line(
        work,
        history,
        sized.piece,
        taken,
        place,
        more,
        sized.line,
        part,
    )
}

/// Adds the row that says of T that it is true.
fn truth_line(work: &mut Work, history: &History) -> Result<u64, AllocError>
    requires stands { WorkStands history.now work.old }
    ensures line { IfOk result (λ n. LineHolds work.new n (true_term ∷ [])) }
    ensures grows { GrowsUncounted history.now work.old work.new }
{
    let truth = ground_name(&work.bank, ground::TRUE);
    row_line(work, history, truth, 1, 0)
}

/// Adds the line that a part is allowed or smaller, where the accessor's default is a base: that is what it takes in place of a part
/// that is not allowed.
fn default_line(
    work: &mut Work,
    history: &History,
    shell: &Shell,
    sized: Sized,
    taken: TermId,
    place: usize,
) -> Result<u64, AllocError>
    requires stands { WorkStands history.now work.old }
    requires shell { ShellStands work.old.bank shell.now }
    requires known { IsKnownShell (events_at work.old.bank history.now) (shell_at work.old.bank shell.now) }
    requires rows { HasKnownRows (events_at work.old.bank history.now) }
    requires place { place < length shell.now.parts.items }
    requires sized { IsSized history.now work.old (shell_at work.old.bank shell.now) place sized }
    requires taken { IsAccessed history.now work.old (shell_at work.old.bank shell.now) place taken }
    requires base { (part : Part) → slice_get (shell_at work.old.bank shell.now).parts place ≡ Some part → has_base part.default (shells_of (events_at work.old.bank history.now)) ≡ true }
    ensures line { IfOk result (λ n. LineHasOnly work.new n (term_at work.old.bank sized.piece.allowed ∷ is_smaller (term_at work.old.bank taken) (term_at work.old.bank sized.piece.object) ∷ [])) }
    ensures grows { GrowsUncounted history.now work.old work.new }
{
    let part = &shell.parts[place];
    let zero = zero_base(work, history, part.default)?;
    let wrong = row_line(
        work,
        history,
        shell.constructor,
        WRONG_PART_OF_MADE,
        place as u64 + 1,
    )?;
    let more = shell.parts.len() - place - 1;
    base_line(
        work,
        history,
        sized.piece,
        taken,
        zero.base,
        zero.none,
        place,
        more,
        zero.line,
        sized.line,
        wrong,
    )
}

/// Is T the default? Else it is F, where it is one of them.
fn is_truth(work: &Work, default: Sym) -> bool
    requires named { IsNamed work.now.bank default }
    ensures { result ≡ bytes_eq (text_at work.now.bank default) (codes "TRUE") }
{
    is_same_name(&work.bank, default, ground_name(&work.bank, ground::TRUE))
}

/// Adds the line that a part is allowed or smaller, where it has a restriction.
fn restricted_line(
    work: &mut Work,
    history: &History,
    shell: &Shell,
    sized: Sized,
    taken: TermId,
    place: usize,
) -> Result<u64, AllocError>
    requires stands { WorkStands history.now work.old }
    requires shell { ShellStands work.old.bank shell.now }
    requires known { IsKnownShell (events_at work.old.bank history.now) (shell_at work.old.bank shell.now) }
    requires rows { HasKnownRows (events_at work.old.bank history.now) }
    requires place { place < length shell.now.parts.items }
    requires sized { IsSized history.now work.old (shell_at work.old.bank shell.now) place sized }
    requires taken { IsAccessed history.now work.old (shell_at work.old.bank shell.now) place taken }
    requires restricted { (part : Part) → slice_get (shell_at work.old.bank shell.now).parts place ≡ Some part → is_free part.restriction ≡ false }
    ensures line { IfOk result (λ n. LineHasOnly work.new n (term_at work.old.bank sized.piece.allowed ∷ is_smaller (term_at work.old.bank taken) (term_at work.old.bank sized.piece.object) ∷ [])) }
    ensures grows { GrowsUncounted history.now work.old work.new }
{
    let default = shell.parts[place].default;
    match shell_of_base(&work.bank, history.shells(), default) {
        Some(_) => default_line(work, history, shell, sized, taken, place),
        None => {
            let yes = is_truth(work, default);
            truth_default_line(work, history, shell, sized, taken, place, yes)
        },
    }
}

/// Adds the line that a part is allowed, where it has no restriction, or else that it is allowed or smaller.
fn other_line(
    work: &mut Work,
    history: &History,
    shell: &Shell,
    sized: Sized,
    taken: TermId,
    place: usize,
) -> Result<u64, AllocError>
    requires stands { WorkStands history.now work.old }
    requires shell { ShellStands work.old.bank shell.now }
    requires known { IsKnownShell (events_at work.old.bank history.now) (shell_at work.old.bank shell.now) }
    requires rows { HasKnownRows (events_at work.old.bank history.now) }
    requires place { place < length shell.now.parts.items }
    requires sized { IsSized history.now work.old (shell_at work.old.bank shell.now) place sized }
    requires taken { IsAccessed history.now work.old (shell_at work.old.bank shell.now) place taken }
    ensures line { IfOk result (λ n. LineHasOnly work.new n (term_at work.old.bank sized.piece.allowed ∷ is_smaller (term_at work.old.bank taken) (term_at work.old.bank sized.piece.object) ∷ [])) }
    ensures grows { GrowsUncounted history.now work.old work.new }
{
    let part = &shell.parts[place];
    if is_free(part) {
        truth_line(work, history)
    } else {
        restricted_line(work, history, shell, sized, taken, place)
    }
}

/// Adds the line that what an accessor takes from an object that a shell's constructor makes of its variables is smaller than the
/// object.
pub fn taken_line(
    work: &mut Work,
    history: &History,
    shell: &Shell,
    place: usize,
) -> Result<Taken, AllocError>
    requires stands { WorkStands history.now work.old }
    requires shell { ShellStands work.old.bank shell.now }
    requires known { IsKnownShell (events_at work.old.bank history.now) (shell_at work.old.bank shell.now) }
    requires rows { HasKnownRows (events_at work.old.bank history.now) }
    requires place { place < length shell.now.parts.items }
    ensures taken { IfOk result (IsTaken history.now work.new (shell_at work.old.bank shell.now) place) }
    ensures grows { GrowsUncounted history.now work.old work.new }
{
    let sized = size_line(work, history, shell, place)?;
    let piece = sized.piece;
    let taken = accessor_call(work, history, shell, place, piece.object)?;
    let part = part_line(work, history, shell, sized, taken, place)?;
    let other = other_line(work, history, shell, sized, taken, place)?;
    let line = cut(work, history, other, part, piece.allowed)?;
    Ok(Taken {
        object: piece.object,
        line,
    })
}
