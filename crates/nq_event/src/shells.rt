//! The parts of shells.
ghost use Rattle.std.specs.Prelude.{◌≡◌, ◌∷◌, [], is_some};
ghost use Rattle.std.specs.List.{list_all};
ghost use Rattle.std.specs.Option.{option_and_then};
ghost use Rattle.nq_events.specs.Parts.{symbol_in, at_most, restriction_by, restriction_in, part_of, part_in, each_in, shell_parts_in};
ghost use Rattle.nq_sexp.specs.Tree.{tree};
ghost use Rattle.nq_event.specs.Reads.{read_each, read_if, value_or};
ghost use Rattle.nq_event.specs.Shapes.{names_at, restriction_if, part_at, part_if, no_part};

use crate::lists::{elements_of, name_of, symbol_of, symbols_of};
use nq_sexp::Sexp;

/// The greatest number of recognizers in a restriction.
const MOST_RECOGNIZERS: usize = 100;

/// The greatest number of parts of a shell.
const MOST_PARTS: usize = 20;

/// What a part must be.
#[derive(Clone, Copy)]
pub struct RestrictionOutline<'a> {
    /// Whether one of the recognizers must hold of the part (ONE-OF), or none of them may (NONE-OF).
    pub one_of: bool,
    /// Symbols.
    pub recognizers: &'a [Sexp<'a>],
}

/// A part of a shell.
#[derive(Clone, Copy)]
pub struct PartOutline<'a> {
    pub accessor: &'a [u8],
    pub restriction: RestrictionOutline<'a>,
    pub default: &'a [u8],
}

/// A shell.
#[derive(Clone, Copy)]
pub struct ShellOutline<'a> {
    pub constructor: &'a [u8],
    pub base: Option<&'a [u8]>,
    pub recognizer: &'a [u8],
    /// Each is read as a part.
    pub parts: &'a [Sexp<'a>],
}

/// The restriction of this word.
fn restriction_by<'a>(word: &[u8], recognizers: &'a [Sexp<'a>]) -> Option<RestrictionOutline<'a>>
    ensures { restriction_if result ≡ restriction_by word.now (names_at recognizers.now) }
{
    if word == b"ONE-OF".as_slice() {
        Some(RestrictionOutline {
            one_of: true,
            recognizers,
        })
    } else if word == b"NONE-OF".as_slice() {
        Some(RestrictionOutline {
            one_of: false,
            recognizers,
        })
    } else {
        None
    }
}

/// A restriction: a list of ONE-OF or NONE-OF, and of symbols, of which there are not too many.
fn restriction_of<'a>(form: &Sexp<'a>) -> Option<RestrictionOutline<'a>>
    ensures { restriction_if result ≡ restriction_in (tree form.now) }
{
    match symbols_of(form)? {
        [] => None,
        [word, recognizers @ ..] => {
            if recognizers.len() <= MOST_RECOGNIZERS {
                restriction_by(symbol_of(word)?, recognizers)
            } else {
                None
            }
        }
    }
}

/// The part of three forms.
fn part_between<'a>(
    accessor: &Sexp<'a>,
    restriction: &Sexp<'a>,
    default: &Sexp<'a>,
) -> Option<PartOutline<'a>>
    ensures { part_if result ≡ part_of (tree accessor.now ∷ tree restriction.now ∷ tree default.now ∷ []) }
{
    let accessor = name_of(accessor)?;
    let restriction = restriction_of(restriction)?;
    let default = symbol_of(default)?;
    Some(PartOutline {
        accessor,
        restriction,
        default,
    })
}

/// A part: a list of an accessor's name, a restriction and a symbol.
pub fn part_of<'a>(form: &Sexp<'a>) -> Option<PartOutline<'a>>
    ensures { part_if result ≡ part_in (tree form.now) }
{
    match elements_of(form)? {
        [accessor, restriction, default] => part_between(accessor, restriction, default),
        _ => None,
    }
}

/// The part of a form. Any other form is one of empty names.
pub fn part_or_none<'a>(form: &Sexp<'a>) -> PartOutline<'a>
    ensures { part_at result ≡ value_or no_part (part_in (tree form.now)) }
{
    match part_of(form) {
        Some(part) => part,
        None => PartOutline {
            accessor: b"",
            restriction: RestrictionOutline {
                one_of: false,
                recognizers: &[],
            },
            default: b"",
        },
    }
}

fn is_part(form: &Sexp<'_>) -> bool
    ensures { result ≡ is_some (part_in (tree form.now)) }
{
    part_of(form).is_some()
}

fn are_parts(forms: &[Sexp<'_>]) -> bool
    ensures { result ≡ list_all (λ form. is_some (part_in (tree form))) forms.now }
{
    forms.iter().all(|form| is_part(form))
}

fn any_parts_of<'a>(form: &Sexp<'a>) -> Option<&'a [Sexp<'a>]>
    ensures { read_if part_in no_part result ≡ each_in part_in (tree form.now) }
{
    let forms = elements_of(form)?;
    if are_parts(forms) { Some(forms) } else { None }
}

/// The parts of a shell, of which there are not too many.
pub fn shell_parts_of<'a>(form: &Sexp<'a>) -> Option<&'a [Sexp<'a>]>
    ensures { read_if part_in no_part result ≡ shell_parts_in (tree form.now) }
{
    let forms = any_parts_of(form)?;
    if forms.len() <= MOST_PARTS {
        Some(forms)
    } else {
        None
    }
}
