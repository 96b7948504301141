//! What an accessor takes from an object just made is smaller than the object, where T or F is the default of the part.
//!
//! The variable in the part's place is smaller than the object where it is allowed. So the default, which is allowed, is smaller than
//! the object with the default in that place. Where the variable is not allowed the two objects are equal, and the accessor takes the
//! default.
ghost use Rattle.std.specs.Prelude.{◌≡◌, ◌≤◌, ◌<◌, ◌∷◌, [], IfOk, Some, false, length, slice_get};
ghost use Rattle.nq_logic.specs.Terms.{Function, IsAmong, Name, Variable};
ghost use Rattle.nq_logic.specs.Ground.{symbols_of};
ghost use Rattle.nq_logic.specs.Histories.{Part as PartOfTexts};
ghost use Rattle.nq_logic.specs.ShellPrinciple.{listed};
ghost use Rattle.nq_logic.specs.Shells.{made, made_with, part_variable};
ghost use Rattle.nq_logic.specs.Sizes.{depth_of};
ghost use Rattle.nq_logic.specs.Words.{equal_term, not_term};
ghost use Rattle.nq_arith.specs.Nests.{accessor_of, is_smaller};
ghost use Rattle.nq_bank.specs.Content.{IsIdOf, IsNamed, Stands, term_at, text_at};
ghost use Rattle.nq_bank.specs.Shells.{PartStands, ShellStands, part_at, shell_at};
ghost use Rattle.nq_clause.specs.Substitution.{PairStands, substitution_at};
ghost use Rattle.nq_history.specs.Events.{events_at};
ghost use Rattle.nq_kernel.specs.Growing.{WorkStands};
ghost use Rattle.nq_kernel.specs.Ready.{recognizer_limit};
ghost use Rattle.nq_lines.specs.Instances.{ArePairsIn};
ghost use Rattle.nq_lines.specs.Lines.{LineHasOnly};
ghost use Rattle.nq_replay.specs.Uncounted.{GrowsUncounted};
ghost use Rattle.nq_part_lines.specs.Defaulted.{IsDefaulted, IsLowPiece, IsPut, IsVariableTerm, put};
ghost use Rattle.nq_part_lines.specs.Defaults.{HasTruthDefault, is_free, truth_term};
ghost use Rattle.nq_part_lines.specs.Known.{HasKnownRows, IsKnownShell, allowed, row_room};
ghost use Rattle.nq_part_lines.specs.Objects.{IsAccessed, IsSized};
ghost use Rattle.nq_part_lines.specs.Pieces.{IsPiece};
ghost use Rattle.nq_part_lines.specs.Small.{IsSmallIn};
ghost use Rattle.nq_part_lines.specs.Wholes.{part_name};

use crate::five::Five;
use crate::lines::{at_term, cut, instance};
use crate::meets::default_meets;
use crate::objects::Sized;
use crate::others::others_line;
use crate::own::base_term;
use crate::piece::Piece;
use crate::rows::row_line;
use crate::taken::allowed_line;
use nq_bank::{BankFault, Node, Part, Shell, TermId};
use nq_clause::{Pair, substitute};
use nq_history::History;
use nq_kernel::Work;
use nq_shell_parts::same_is_equal;
use std::alloc::AllocError;

const WRONG_PART_OF_MADE: u64 = 7;

const WRONG_PART: u64 = 10;

/// The default of a part, the object with the default in the part's place, and the line that the default is smaller than it.
#[derive(Clone, Copy, Debug, PartialEq, Eq)]
pub struct Defaulted {
    /// The default.
    pub default: TermId,
    /// The object.
    pub object: TermId,
    /// The line.
    pub line: u64,
}

/// Adds the line that the variable in the part's place is smaller than the object, with the NOT of that it is allowed.
fn variable_line(
    work: &mut Work,
    history: &History,
    piece: Piece,
    place: usize,
    more: usize,
    size: u64,
) -> Result<u64, AllocError>
    requires stands { WorkStands history.now work.old }
    requires piece { IsPiece history.now work.old place more piece }
    requires size { LineHasOnly work.old size (term_at work.old.bank piece.equation ∷ []) }
    ensures line { IfOk result (λ n. LineHasOnly work.new n (not_term (term_at work.old.bank piece.allowed) ∷ is_smaller (term_at work.old.bank piece.variable) (term_at work.old.bank piece.object) ∷ [])) }
    ensures grows { GrowsUncounted history.now work.old work.new }
{
    let law = same_is_equal(work, history)?;
    let same = at_term(work, history, law, piece.variable)?;
    allowed_line(
        work,
        history,
        piece,
        piece.variable,
        place,
        more,
        size,
        same,
    )
}

/// A variable, with a term.
fn pair_with(work: &Work, variable: TermId, term: TermId) -> Pair
    requires variable { Stands work.now.bank variable }
    requires is { IsVariableTerm (term_at work.now.bank variable) }
    requires term { Stands work.now.bank term }
    ensures stands { PairStands work.now.bank result }
    ensures variable { Variable (text_at work.now.bank result.variable) ≡ term_at work.now.bank variable }
    ensures term { result.term ≡ term }
{
    match work.bank.node(variable) {
        Node::Var(name) => Pair {
            variable: name,
            term,
        },
        Node::App(_, _) => unreachable!(),
        Node::Num(_) => unreachable!(),
    }
}

/// A term with a constant in the place of a variable.
fn term_with(
    work: &mut Work,
    history: &History,
    t: TermId,
    variable: TermId,
    default: TermId,
) -> Result<TermId, AllocError>
    requires stands { WorkStands history.now work.old }
    requires term { IsSmallIn history.now work.old t }
    requires low { depth_of (term_at work.old.bank t) ≤ row_room }
    requires variable { IsSmallIn history.now work.old variable }
    requires is { IsVariableTerm (term_at work.old.bank variable) }
    requires default { IsSmallIn history.now work.old default }
    requires shallow { depth_of (term_at work.old.bank default) ≤ row_room }
    ensures term { IfOk result (λ u. (x : Name) → term_at work.old.bank variable ≡ Variable x → IsIdOf work.new.bank u (put x (term_at work.old.bank default) (term_at work.old.bank t))) }
    ensures small { IfOk result (λ u. IsSmallIn history.now work.new u) }
    ensures grows { GrowsUncounted history.now work.old work.new }
{
    let pair = pair_with(work, variable, default);
    match substitute(&mut work.bank, t, &[pair]) {
        Ok(u) => Ok(u),
        Err(BankFault::Memory) => Err(AllocError),
        Err(BankFault::Deep) => unreachable!(),
    }
}

/// The pair of a variable and a term.
fn pairs_with(
    work: &Work,
    history: &History,
    variable: TermId,
    term: TermId,
) -> Result<Vec<Pair>, AllocError>
    requires variable { IsSmallIn history.now work.now variable }
    requires is { IsVariableTerm (term_at work.now.bank variable) }
    requires term { IsSmallIn history.now work.now term }
    ensures pairs { IfOk result (λ ps. (x : Name) → term_at work.now.bank variable ≡ Variable x → substitution_at work.now.bank ps.items ≡ (x, term_at work.now.bank term) ∷ []) }
    ensures over { IfOk result (λ ps. ArePairsIn history.now work.now ps.items) }
{
    let pair = pair_with(work, variable, term);
    let pairs = vec![in work.bank.alloc(); pair]?;
    Ok(pairs)
}

/// Adds the line that a constant is smaller than the object with the constant in the place of the variable, with the NOT of that it is
/// allowed.
fn line_with(
    work: &mut Work,
    history: &History,
    piece: Piece,
    line: u64,
    default: TermId,
) -> Result<u64, AllocError>
    requires stands { WorkStands history.now work.old }
    requires low { IsLowPiece history.now work.old piece default }
    requires line { LineHasOnly work.old line (not_term (term_at work.old.bank piece.allowed) ∷ is_smaller (term_at work.old.bank piece.variable) (term_at work.old.bank piece.object) ∷ []) }
    ensures line { IfOk result (λ n. (x : Name) → term_at work.old.bank piece.variable ≡ Variable x → LineHasOnly work.new n (not_term (put x (term_at work.old.bank default) (term_at work.old.bank piece.allowed)) ∷ is_smaller (term_at work.old.bank default) (put x (term_at work.old.bank default) (term_at work.old.bank piece.object)) ∷ [])) }
    ensures grows { GrowsUncounted history.now work.old work.new }
{
    let pairs = pairs_with(work, history, piece.variable, default)?;
    instance(work, history, line, pairs)
}

/// Puts a constant in the place of the variable of a part: in the object, and in the line that the variable is smaller.
fn put_default(
    work: &mut Work,
    history: &History,
    piece: Piece,
    line: u64,
    default: TermId,
) -> Result<Defaulted, AllocError>
    requires stands { WorkStands history.now work.old }
    requires low { IsLowPiece history.now work.old piece default }
    requires line { LineHasOnly work.old line (not_term (term_at work.old.bank piece.allowed) ∷ is_smaller (term_at work.old.bank piece.variable) (term_at work.old.bank piece.object) ∷ []) }
    ensures put { IfOk result (λ z. (x : Name) → term_at work.old.bank piece.variable ≡ Variable x → IsPut history.now work.new x (term_at work.old.bank default) (term_at work.old.bank piece.allowed) (term_at work.old.bank piece.object) z) }
    ensures grows { GrowsUncounted history.now work.old work.new }
{
    let object = term_with(work, history, piece.object, piece.variable, default)?;
    let line = line_with(work, history, piece, line, default)?;
    Ok(Defaulted {
        default,
        object,
        line,
    })
}

/// Makes the default of a part, and puts it in the place of the part's variable.
fn put_part(
    work: &mut Work,
    history: &History,
    part: &Part,
    sized: Sized,
    place: usize,
    more: usize,
) -> Result<Defaulted, AllocError>
    requires stands { WorkStands history.now work.old }
    requires named { IsNamed work.old.bank part.now.default }
    requires symbol { IsAmong (text_at work.old.bank part.now.default, 0) (symbols_of (events_at work.old.bank history.now)) }
    requires piece { IsPiece history.now work.old place more sized.piece }
    requires size { LineHasOnly work.old sized.line (term_at work.old.bank sized.piece.equation ∷ []) }
    requires object_low { depth_of (term_at work.old.bank sized.piece.object) ≤ row_room }
    requires allowed_low { depth_of (term_at work.old.bank sized.piece.allowed) ≤ row_room }
    requires variable_is { term_at work.old.bank sized.piece.variable ≡ part_variable place }
    ensures put { IfOk result (IsPut history.now work.new (part_name place) (Function (text_at work.old.bank part.now.default)) (term_at work.old.bank sized.piece.allowed) (term_at work.old.bank sized.piece.object)) }
    ensures grows { GrowsUncounted history.now work.old work.new }
{
    let line = variable_line(work, history, sized.piece, place, more, sized.line)?;
    let default = base_term(work, history, part.default)?;
    put_default(work, history, sized.piece, line, default)
}

/// Adds the line that the default of a part, which is T or F, is smaller than the object with the default in the part's place.
fn smaller_default(
    work: &mut Work,
    history: &History,
    part: &Part,
    sized: Sized,
    place: usize,
    more: usize,
    yes: bool,
) -> Result<Defaulted, AllocError>
    requires stands { WorkStands history.now work.old }
    requires rows { HasKnownRows (events_at work.old.bank history.now) }
    requires part { PartStands work.old.bank part.now }
    requires restricted { is_free (part_at work.old.bank part.now).restriction ≡ false }
    requires default { HasTruthDefault (events_at work.old.bank history.now) (part_at work.old.bank part.now) yes }
    requires few { length (listed (part_at work.old.bank part.now).restriction) ≤ recognizer_limit }
    requires piece { IsPiece history.now work.old place more sized.piece }
    requires size { LineHasOnly work.old sized.line (term_at work.old.bank sized.piece.equation ∷ []) }
    requires object_low { depth_of (term_at work.old.bank sized.piece.object) ≤ row_room }
    requires allowed_low { depth_of (term_at work.old.bank sized.piece.allowed) ≤ row_room }
    requires allowed_is { term_at work.old.bank sized.piece.allowed ≡ allowed place (part_at work.old.bank part.now) }
    requires variable_is { term_at work.old.bank sized.piece.variable ≡ part_variable place }
    ensures smaller { IfOk result (IsDefaulted history.now work.new (part_name place) (truth_term yes) (term_at work.old.bank sized.piece.object)) }
    ensures grows { GrowsUncounted history.now work.old work.new }
{
    let met = default_meets(work, history, part, yes)?;
    let put = put_part(work, history, part, sized, place, more)?;
    let line = cut(work, history, met.line, put.line, met.term)?;
    Ok(Defaulted {
        default: put.default,
        object: put.object,
        line,
    })
}

/// Adds the row that the object is the one with the default in the part's place, unless the part is allowed.
fn same_line(
    work: &mut Work,
    history: &History,
    shell: &Shell,
    place: usize,
) -> Result<u64, AllocError>
    requires stands { WorkStands history.now work.old }
    requires shell { ShellStands work.old.bank shell.now }
    requires known { IsKnownShell (events_at work.old.bank history.now) (shell_at work.old.bank shell.now) }
    requires place { place < length shell.now.parts.items }
    ensures line { IfOk result (λ n. (part : PartOfTexts) → slice_get (shell_at work.old.bank shell.now).parts place ≡ Some part → LineHasOnly work.new n (allowed place part ∷ equal_term (made (shell_at work.old.bank shell.now)) (made_with (shell_at work.old.bank shell.now) place (Function part.default)) ∷ [])) }
    ensures grows { GrowsUncounted history.now work.old work.new }
{
    row_line(
        work,
        history,
        shell.constructor,
        WRONG_PART,
        place as u64 + 1,
    )
}

/// Adds the row that the accessor takes the default from the object, unless the part is allowed.
fn wrong_line(
    work: &mut Work,
    history: &History,
    shell: &Shell,
    place: usize,
) -> Result<u64, AllocError>
    requires stands { WorkStands history.now work.old }
    requires shell { ShellStands work.old.bank shell.now }
    requires known { IsKnownShell (events_at work.old.bank history.now) (shell_at work.old.bank shell.now) }
    requires place { place < length shell.now.parts.items }
    ensures line { IfOk result (λ n. (part : PartOfTexts) → slice_get (shell_at work.old.bank shell.now).parts place ≡ Some part → LineHasOnly work.new n (allowed place part ∷ equal_term (accessor_of part (made (shell_at work.old.bank shell.now))) (Function part.default) ∷ [])) }
    ensures grows { GrowsUncounted history.now work.old work.new }
{
    row_line(
        work,
        history,
        shell.constructor,
        WRONG_PART_OF_MADE,
        place as u64 + 1,
    )
}

/// Adds the line that a part is allowed or smaller, from the line that its default is smaller than the object with the default in the
/// part's place.
fn line_of_default(
    work: &mut Work,
    history: &History,
    shell: &Shell,
    sized: Sized,
    taken: TermId,
    place: usize,
    small: Defaulted,
) -> Result<u64, AllocError>
    requires stands { WorkStands history.now work.old }
    requires shell { ShellStands work.old.bank shell.now }
    requires known { IsKnownShell (events_at work.old.bank history.now) (shell_at work.old.bank shell.now) }
    requires place { place < length shell.now.parts.items }
    requires sized { IsSized history.now work.old (shell_at work.old.bank shell.now) place sized }
    requires taken { IsAccessed history.now work.old (shell_at work.old.bank shell.now) place taken }
    requires small { (part : PartOfTexts) → slice_get (shell_at work.old.bank shell.now).parts place ≡ Some part → IsDefaulted history.now work.old (part_name place) (Function part.default) (made (shell_at work.old.bank shell.now)) small }
    ensures line { IfOk result (λ n. LineHasOnly work.new n (term_at work.old.bank sized.piece.allowed ∷ is_smaller (term_at work.old.bank taken) (term_at work.old.bank sized.piece.object) ∷ [])) }
    ensures grows { GrowsUncounted history.now work.old work.new }
{
    let same = same_line(work, history, shell, place)?;
    let wrong = wrong_line(work, history, shell, place)?;
    let terms = Five {
        a: taken,
        b: sized.piece.object,
        x: small.default,
        y: small.object,
        z: sized.piece.allowed,
    };
    others_line(work, history, terms, small.line, same, wrong)
}

/// Adds the line that a part is allowed or smaller, where T or F is its default.
pub fn truth_default_line(
    work: &mut Work,
    history: &History,
    shell: &Shell,
    sized: Sized,
    taken: TermId,
    place: usize,
    yes: bool,
) -> Result<u64, AllocError>
    requires stands { WorkStands history.now work.old }
    requires shell { ShellStands work.old.bank shell.now }
    requires known { IsKnownShell (events_at work.old.bank history.now) (shell_at work.old.bank shell.now) }
    requires rows { HasKnownRows (events_at work.old.bank history.now) }
    requires place { place < length shell.now.parts.items }
    requires sized { IsSized history.now work.old (shell_at work.old.bank shell.now) place sized }
    requires taken { IsAccessed history.now work.old (shell_at work.old.bank shell.now) place taken }
    requires restricted { (part : PartOfTexts) → slice_get (shell_at work.old.bank shell.now).parts place ≡ Some part → is_free part.restriction ≡ false }
    requires default { (part : PartOfTexts) → slice_get (shell_at work.old.bank shell.now).parts place ≡ Some part → HasTruthDefault (events_at work.old.bank history.now) part yes }
    ensures line { IfOk result (λ n. LineHasOnly work.new n (term_at work.old.bank sized.piece.allowed ∷ is_smaller (term_at work.old.bank taken) (term_at work.old.bank sized.piece.object) ∷ [])) }
    ensures grows { GrowsUncounted history.now work.old work.new }
{
    let part = &shell.parts[place];
    let more = shell.parts.len() - place - 1;
    let small = smaller_default(work, history, part, sized, place, more, yes)?;
    line_of_default(work, history, shell, sized, taken, place, small)
}
