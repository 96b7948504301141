//! What other variables make of a rule's destructor calls, where they make a call of one.
//!
//! As `(REMAINDER X Y)` becomes `(REMAINDER A A)`, both `X` and `Y` become `A`, so that `(QUOTIENT X Y)` and `(QUOTIENT Y X)` would be
//! one call. What a variable that the first call does not have becomes is not known; it can be a new variable.
ghost use Rattle.std.specs.Prelude.{◌≡◌, All, IfSome, Some, true, false};
ghost use Rattle.std.specs.Option.{option_map};
ghost use Rattle.nq_logic.specs.Terms.{call};
ghost use Rattle.nq_bank.specs.Content.{IsNamed, Stands, term_at, terms_at, text_at};
ghost use Rattle.nq_proof.specs.Clauses.{same_term};
ghost use Rattle.nq_eliminate.specs.Images as spec;
ghost use Rattle.nq_eliminate.specs.Images.{BecomeOne, BecomesOneOf, MakesCopies, StayApart, StayDistinct, StaysApart};

use nq_bank::{Bank, Node, Sym, TermId, is_same_name};

/// Are two terms one?
fn is_one(bank: &Bank, left: TermId, right: TermId) -> bool
    requires left { Stands bank.now left }
    requires right { Stands bank.now right }
    ensures { result ≡ same_term (term_at bank.now left) (term_at bank.now right) }
{
    bank.is_sound();
    left.0 == right.0
}

/// What a term becomes, where these terms become those.
pub fn image(bank: &Bank, from: &[TermId], to: &[TermId], t: TermId) -> Option<TermId>
    requires from { All (Stands bank.now) from.now }
    requires to { All (Stands bank.now) to.now }
    requires term { Stands bank.now t }
    ensures is { option_map (term_at bank.now) result ≡ spec.image (terms_at bank.now from.now) (terms_at bank.now to.now) (term_at bank.now t) }
    ensures stands { IfSome result (Stands bank.now) }
{
    match from {
        [] => None,
        [first, rest @ ..] => match to {
            [] => None,
            [into, more @ ..] => {
                if is_one(bank, t, *first) {
                    Some(*into)
                } else {
                    image(bank, rest, more, t)
                }
            }
        },
    }
}

/// Does a term become this one, where these terms become those?
fn becomes(bank: &Bank, from: &[TermId], to: &[TermId], t: TermId, known: TermId) -> bool
    requires from { All (Stands bank.now) from.now }
    requires to { All (Stands bank.now) to.now }
    requires term { Stands bank.now t }
    requires known { Stands bank.now known }
    ensures { result ≡ spec.same_known (spec.image (terms_at bank.now from.now) (terms_at bank.now to.now) (term_at bank.now t)) (Some (term_at bank.now known)) }
{
    match image(bank, from, to, t) {
        Some(u) => is_one(bank, u, known),
        None => false,
    }
}

/// Do two terms become one, where these terms become those?
fn become_one(bank: &Bank, from: &[TermId], to: &[TermId], t: TermId, u: TermId) -> bool
    requires from { All (Stands bank.now) from.now }
    requires to { All (Stands bank.now) to.now }
    requires left { Stands bank.now t }
    requires right { Stands bank.now u }
    ensures { result ≡ spec.become_one (terms_at bank.now from.now) (terms_at bank.now to.now) (term_at bank.now t) (term_at bank.now u) }
{
    if is_one(bank, t, u) {
        return true;
    }
    match image(bank, from, to, u) {
        Some(known) => becomes(bank, from, to, t, known),
        None => false,
    }
}

/// Does each of these terms become what the one in its place does?
fn become_same(bank: &Bank, from: &[TermId], to: &[TermId], ts: &[TermId], us: &[TermId]) -> bool
    requires from { All (Stands bank.now) from.now }
    requires to { All (Stands bank.now) to.now }
    requires left { All (Stands bank.now) ts.now }
    requires right { All (Stands bank.now) us.now }
    ensures { result ≡ spec.become_same (terms_at bank.now from.now) (terms_at bank.now to.now) (terms_at bank.now ts.now) (terms_at bank.now us.now) }
{
    match ts {
        [] => match us {
            [] => true,
            [_, ..] => false,
        },
        [t, more @ ..] => match us {
            [] => false,
            [u, others @ ..] => {
                if become_one(bank, from, to, *t, *u) {
                    become_same(bank, from, to, more, others)
                } else {
                    false
                }
            }
        },
    }
}

/// Does the call of a function on these terms become what another call does?
fn becomes_call(
    bank: &Bank,
    from: &[TermId],
    to: &[TermId],
    f: Sym,
    ts: &[TermId],
    u: TermId,
) -> bool
    requires from { All (Stands bank.now) from.now }
    requires to { All (Stands bank.now) to.now }
    requires name { IsNamed bank.now f }
    requires arguments { All (Stands bank.now) ts.now }
    requires other { Stands bank.now u }
    ensures same { result ≡ true → BecomeOne (terms_at bank.now from.now) (terms_at bank.now to.now) (call (text_at bank.now f) (terms_at bank.now ts.now)) (term_at bank.now u) }
    ensures apart { result ≡ false → StayApart (terms_at bank.now from.now) (terms_at bank.now to.now) (call (text_at bank.now f) (terms_at bank.now ts.now)) (term_at bank.now u) }
{
    match bank.node(u) {
        Node::App(g, _) => {
            let arguments = bank.args(u);
            if is_same_name(bank, f, g) {
                become_same(bank, from, to, ts, arguments)
            } else {
                false
            }
        }
        Node::Num(_) => false,
        Node::Var(_) => false,
    }
}

/// Do two calls become one?
fn is_same_call(bank: &Bank, from: &[TermId], to: &[TermId], t: TermId, u: TermId) -> bool
    requires from { All (Stands bank.now) from.now }
    requires to { All (Stands bank.now) to.now }
    requires left { Stands bank.now t }
    requires right { Stands bank.now u }
    ensures same { result ≡ true → BecomeOne (terms_at bank.now from.now) (terms_at bank.now to.now) (term_at bank.now t) (term_at bank.now u) }
    ensures apart { result ≡ false → StayApart (terms_at bank.now from.now) (terms_at bank.now to.now) (term_at bank.now t) (term_at bank.now u) }
{
    match bank.node(t) {
        Node::App(f, _) => {
            let arguments = bank.args(t);
            becomes_call(bank, from, to, f, arguments, u)
        }
        Node::Num(_) => false,
        Node::Var(_) => false,
    }
}

/// Does a call become what one of these does?
fn has_same(bank: &Bank, from: &[TermId], to: &[TermId], t: TermId, calls: &[TermId]) -> bool
    requires from { All (Stands bank.now) from.now }
    requires to { All (Stands bank.now) to.now }
    requires term { Stands bank.now t }
    requires calls { All (Stands bank.now) calls.now }
    ensures same { result ≡ true → BecomesOneOf (terms_at bank.now from.now) (terms_at bank.now to.now) (term_at bank.now t) (terms_at bank.now calls.now) }
    ensures apart { result ≡ false → StaysApart (terms_at bank.now from.now) (terms_at bank.now to.now) (term_at bank.now t) (terms_at bank.now calls.now) }
{
    match calls {
        [] => false,
        [first, rest @ ..] => {
            if is_same_call(bank, from, to, t, *first) {
                true
            } else {
                has_same(bank, from, to, t, rest)
            }
        }
    }
}

/// Do two of these calls become one?
pub fn has_copies(bank: &Bank, from: &[TermId], to: &[TermId], calls: &[TermId]) -> bool
    requires from { All (Stands bank.now) from.now }
    requires to { All (Stands bank.now) to.now }
    requires calls { All (Stands bank.now) calls.now }
    ensures same { result ≡ true → MakesCopies (terms_at bank.now from.now) (terms_at bank.now to.now) (terms_at bank.now calls.now) }
    ensures apart { result ≡ false → StayDistinct (terms_at bank.now from.now) (terms_at bank.now to.now) (terms_at bank.now calls.now) }
{
    match calls {
        [] => false,
        [first, rest @ ..] => {
            if has_same(bank, from, to, *first, rest) {
                true
            } else {
                has_copies(bank, from, to, rest)
            }
        }
    }
}

/// Does a term other than the variable become this one?
pub fn has_other(
    bank: &Bank,
    from: &[TermId],
    to: &[TermId],
    variable: TermId,
    known: TermId,
) -> bool
    requires from { All (Stands bank.now) from.now }
    requires to { All (Stands bank.now) to.now }
    requires variable { Stands bank.now variable }
    requires known { Stands bank.now known }
    ensures { result ≡ spec.has_other (terms_at bank.now from.now) (terms_at bank.now to.now) (term_at bank.now variable) (term_at bank.now known) }
{
    match from {
        [] => false,
        [first, rest @ ..] => match to {
            [] => false,
            [into, more @ ..] => {
                let same = is_one(bank, *into, known);
                let own = is_one(bank, *first, variable);
                if same && !own {
                    true
                } else {
                    has_other(bank, rest, more, variable, known)
                }
            }
        },
    }
}
