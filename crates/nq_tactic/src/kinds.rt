//! Of what kind the calls of the functions of a goal are: what their definitions tell is proved by the search itself, and its line is
//! known from then on.
ghost use Rattle.std.specs.Prelude.{◌≡◌, ◌++◌, ◌∷◌, [], IfOk, OnOk, OnErr, Err};
ghost use Rattle.nq_bank.specs.Content.{IsNamed};
ghost use Rattle.nq_history.specs.Events.{events_at};
ghost use Rattle.nq_kernel.specs.Growing.{LineStands, WorkGrows, WorkStands};
ghost use Rattle.nq_kernel.specs.Ready.{IsReady};
ghost use Rattle.nq_lines.specs.Facts.{IsFact};
ghost use Rattle.nq_lines.specs.Lines.{IsTermIn};
ghost use Rattle.nq_search.specs.Goals.{CanSearch};

use crate::guessing::{functions_of, guessed_place, has_name, is_declared, recognizer_at};
use crate::order::TURNS;
use crate::tactic::Waterfall;
use crate::truth_lines::learn_truth;
use crate::truths::asked_in;
use nq_bank::{Sym, TermId, ground};
use nq_history::{Hints, History};
use nq_kernel::{Prescription, Stop, Work, ready_histories};
use nq_lines::{Fact, row_fact, sides_of};
use nq_ready::own_terms;
use nq_rewrite::{kind_line, one_call, told_kind};
use nq_rule_table::Rules;
use nq_search::{Plan, seek};

/// Into how many parts the steps are divided of which the search for one kind gets one.
const KIND_PART: u64 = 60;

/// What is learnt of functions.
#[derive(Clone, Copy, Debug, PartialEq, Eq)]
enum Lesson {
    /// Of what kind their calls are.
    Kind,
    /// That their calls are T or F.
    Truth,
}

/// The plan of the search for a kind.
pub fn plan_of_kind(work: &Work) -> Plan {
    let used = work.counter.used();
    Plan {
        levels: 20,
        inductions: 1,
        turns: TURNS,
        whole: false,
        simplified: false,
        inducted: false,
        eliminations: 0,
        until: used.saturating_add(work.counter.limit() / KIND_PART),
    }
}

/// Learns of what kind the calls of the functions of a goal are, the oldest first.
pub fn learn_kinds(
    work: &mut Work,
    history: &History,
    hints: &Hints,
    rules: &Rules,
    goal: &[TermId],
) -> Result<(), Stop>
    requires can { CanSearch history.now hints.now work.old }
    ensures grows { WorkGrows history.now work.old work.new }
    ensures out { result ≡ Err Stop.OutOfSteps → work.new.counter.used ≡ work.new.counter.limit }
{
    match functions_of(&work.bank, history, goal) {
        Ok(names) => learn_among(work, history, hints, rules, Lesson::Kind, names.as_slice()),
        Err(_) => Err(Stop::Memory),
    }
}

/// Learns of which functions of the arguments of calls in a goal the values are T or F, the oldest first.
pub fn learn_truths(
    work: &mut Work,
    history: &History,
    hints: &Hints,
    rules: &Rules,
    goal: &[TermId],
) -> Result<(), Stop>
    requires can { CanSearch history.now hints.now work.old }
    ensures grows { WorkGrows history.now work.old work.new }
    ensures out { result ≡ Err Stop.OutOfSteps → work.new.counter.used ≡ work.new.counter.limit }
{
    match asked_in(&work.bank, history, goal) {
        Ok(names) => learn_among(work, history, hints, rules, Lesson::Truth, names.as_slice()),
        Err(_) => Err(Stop::Memory),
    }
}

/// The same, of these functions.
fn learn_among(
    work: &mut Work,
    history: &History,
    hints: &Hints,
    rules: &Rules,
    lesson: Lesson,
    names: &[Sym],
) -> Result<(), Stop>
    requires can { CanSearch history.now hints.now work.old }
    ensures grows { WorkGrows history.now work.old work.new }
    ensures out { result ≡ Err Stop.OutOfSteps → work.new.counter.used ≡ work.new.counter.limit }
{
    let count = history.len();
    for place in 0..count {
        learn_at(work, history, hints, rules, lesson, names, place)?;
    }
    Ok(())
}

/// The same, of the function that the event at a place defines.
fn learn_at(
    work: &mut Work,
    history: &History,
    hints: &Hints,
    rules: &Rules,
    lesson: Lesson,
    names: &[Sym],
    place: u64,
) -> Result<(), Stop>
    requires can { CanSearch history.now hints.now work.old }
    ensures can { IfOk result (λ _. CanSearch history.now hints.now work.new) }
    ensures grows { WorkGrows history.now work.old work.new }
    ensures out { result ≡ Err Stop.OutOfSteps → work.new.counter.used ≡ work.new.counter.limit }
{
    ready_histories();
    if place < history.len() {
        learn_named(
            work,
            history,
            hints,
            rules,
            lesson,
            names,
            history.entry(place).name,
        )?;
    }
    Ok(())
}

/// Learns of what kind the calls of a function are, if it is one of these.
fn learn_named(
    work: &mut Work,
    history: &History,
    hints: &Hints,
    rules: &Rules,
    lesson: Lesson,
    names: &[Sym],
    f: Sym,
) -> Result<(), Stop>
    requires can { CanSearch history.now hints.now work.old }
    requires function { IsNamed work.old.bank f }
    ensures grows { WorkGrows history.now work.old work.new }
    ensures out { result ≡ Err Stop.OutOfSteps → work.new.counter.used ≡ work.new.counter.limit }
{
    if is_new(work, history, names, f) {
        learn_lesson(work, history, hints, rules, lesson, f)
    } else {
        Ok(())
    }
}

/// Learns this of a function.
fn learn_lesson(
    work: &mut Work,
    history: &History,
    hints: &Hints,
    rules: &Rules,
    lesson: Lesson,
    f: Sym,
) -> Result<(), Stop>
    requires can { CanSearch history.now hints.now work.old }
    requires function { IsNamed work.old.bank f }
    ensures grows { WorkGrows history.now work.old work.new }
    ensures out { result ≡ Err Stop.OutOfSteps → work.new.counter.used ≡ work.new.counter.limit }
{
    match lesson {
        Lesson::Kind => learn_kind(work, history, hints, rules, f),
        Lesson::Truth => learn_truth(work, history, hints, rules, f),
    }
}

/// Is a function one of these, and is nothing known yet of the kind of its calls?
fn is_new(work: &Work, history: &History, names: &[Sym], f: Sym) -> bool
    requires { WorkStands history.now work.now }
{
    has_name(names, f) && kind_line(work, history, f).is_none()
}

/// Learns of what kind the calls of a function are, if its definition tells it.
fn learn_kind(
    work: &mut Work,
    history: &History,
    hints: &Hints,
    rules: &Rules,
    f: Sym,
) -> Result<(), Stop>
    requires can { CanSearch history.now hints.now work.old }
    requires function { IsNamed work.old.bank f }
    ensures grows { WorkGrows history.now work.old work.new }
    ensures out { result ≡ Err Stop.OutOfSteps → work.new.counter.used ≡ work.new.counter.limit }
{
    if f.0 == ground::COUNT.0 {
        return learn_size(work, history, f);
    }
    match guessed_place(work, history, f) {
        Some(place) => learn_placed(work, history, hints, rules, f, place),
        None => learn_declared(work, history, f),
    }
}

/// Learns of what kind sizes are: row 1 of COUNT says it.
fn learn_size(work: &mut Work, history: &History, f: Sym) -> Result<(), Stop>
    requires stands { WorkStands history.now work.old }
    requires ready { IsReady (events_at work.old.bank history.now) }
    requires function { IsNamed work.old.bank f }
    ensures grows { WorkGrows history.now work.old work.new }
    ensures out { result ≡ Err Stop.OutOfSteps → work.new.counter.used ≡ work.new.counter.limit }
{
    own_terms();
    match row_fact(work, history, f)? {
        Some(row) => remember(work, history, f, row.line),
        None => Ok(()),
    }
}

/// Learns of what kind the calls of a declared function are, if an axiom or a lemma says it.
fn learn_declared(work: &mut Work, history: &History, f: Sym) -> Result<(), Stop>
    requires stands { WorkStands history.now work.old }
    requires ready { IsReady (events_at work.old.bank history.now) }
    requires function { IsNamed work.old.bank f }
    ensures grows { WorkGrows history.now work.old work.new }
    ensures out { result ≡ Err Stop.OutOfSteps → work.new.counter.used ≡ work.new.counter.limit }
{
    if is_declared(history, f) {
        learn_as_told(work, history, f)
    } else {
        Ok(())
    }
}

/// The same, where it is declared.
fn learn_as_told(work: &mut Work, history: &History, f: Sym) -> Result<(), Stop>
    requires stands { WorkStands history.now work.old }
    requires ready { IsReady (events_at work.old.bank history.now) }
    requires function { IsNamed work.old.bank f }
    ensures grows { WorkGrows history.now work.old work.new }
    ensures out { result ≡ Err Stop.OutOfSteps → work.new.counter.used ≡ work.new.counter.limit }
{
    own_terms();
    match told_kind(work, history, f)? {
        Some(told) => remember(work, history, f, told.line),
        None => Ok(()),
    }
}

/// The same, where they may be of the kind of the shell at a place.
fn learn_placed(
    work: &mut Work,
    history: &History,
    hints: &Hints,
    rules: &Rules,
    f: Sym,
    place: usize,
) -> Result<(), Stop>
    requires can { CanSearch history.now hints.now work.old }
    requires function { IsNamed work.old.bank f }
    ensures grows { WorkGrows history.now work.old work.new }
    ensures out { result ≡ Err Stop.OutOfSteps → work.new.counter.used ≡ work.new.counter.limit }
{
    match recognizer_at(work, history, place) {
        Some(r) => learn_guessed(work, history, hints, rules, f, r),
        None => Ok(()),
    }
}

/// The same, where this recognizer may hold of them.
fn learn_guessed(
    work: &mut Work,
    history: &History,
    hints: &Hints,
    rules: &Rules,
    f: Sym,
    r: Sym,
) -> Result<(), Stop>
    requires can { CanSearch history.now hints.now work.old }
    requires function { IsNamed work.old.bank f }
    requires recognizer { IsNamed work.old.bank r }
    ensures grows { WorkGrows history.now work.old work.new }
    ensures out { result ≡ Err Stop.OutOfSteps → work.new.counter.used ≡ work.new.counter.limit }
{
    own_terms();
    ready_histories();
    match row_fact(work, history, f)? {
        Some(definition) => learn_defined(work, history, hints, rules, f, r, definition),
        None => Ok(()),
    }
}

/// The same, by the definition of the function.
fn learn_defined(
    work: &mut Work,
    history: &History,
    hints: &Hints,
    rules: &Rules,
    f: Sym,
    r: Sym,
    definition: Fact,
) -> Result<(), Stop>
    requires can { CanSearch history.now hints.now work.old }
    requires function { IsNamed work.old.bank f }
    requires recognizer { IsNamed work.old.bank r }
    requires definition { IsFact history.now work.old definition }
    ensures grows { WorkGrows history.now work.old work.new }
    ensures out { result ≡ Err Stop.OutOfSteps → work.new.counter.used ≡ work.new.counter.limit }
{
    match sides_of(work, history, definition.term) {
        Some(sides) => learn_call(work, history, hints, rules, f, r, sides.left),
        None => Ok(()),
    }
}

/// The same, by the call of the function on its formals.
fn learn_call(
    work: &mut Work,
    history: &History,
    hints: &Hints,
    rules: &Rules,
    f: Sym,
    r: Sym,
    call: TermId,
) -> Result<(), Stop>
    requires can { CanSearch history.now hints.now work.old }
    requires function { IsNamed work.old.bank f }
    requires recognizer { IsNamed work.old.bank r }
    requires call { IsTermIn history.now work.old call }
    ensures grows { WorkGrows history.now work.old work.new }
    ensures out { result ≡ Err Stop.OutOfSteps → work.new.counter.used ≡ work.new.counter.limit }
{
    ready_histories();
    match one_call(work, history, r, call)? {
        Some(t) => learn_told(work, history, hints, rules, f, t),
        None => Ok(()),
    }
}

/// The same, where this goal says it.
fn learn_told(
    work: &mut Work,
    history: &History,
    hints: &Hints,
    rules: &Rules,
    f: Sym,
    goal: TermId,
) -> Result<(), Stop>
    requires can { CanSearch history.now hints.now work.old }
    requires function { IsNamed work.old.bank f }
    requires goal { IsTermIn history.now work.old goal }
    ensures grows { WorkGrows history.now work.old work.new }
    ensures out { result ≡ Err Stop.OutOfSteps → work.new.counter.used ≡ work.new.counter.limit }
{
    let plan = plan_of_kind(work);
    let mut tactic = Waterfall::new(work.bank.alloc(), rules, 7);
    match seek(work, &mut tactic, history, hints, plan, &[goal])? {
        Some(line) => remember(work, history, f, line),
        None => Ok(()),
    }
}

/// Adds what is known of a function.
fn push_known(known: &mut Vec<Prescription>, more: Prescription) -> Result<(), Stop>
    ensures ok { OnOk result (known.new.items ≡ known.old.items ++ more ∷ []) }
    ensures err { OnErr result (known.new.items ≡ known.old.items) }
    ensures memory { result ≡ Err Stop.OutOfSteps → ⊥ }
{
    match known.push(more) {
        Ok(()) => Ok(()),
        Err(_) => Err(Stop::Memory),
    }
}

/// Keeps the number of the line that shows of what kind the calls of a function are.
pub fn remember(work: &mut Work, history: &History, f: Sym, line: u64) -> Result<(), Stop>
    requires stands { WorkStands history.now work.old }
    requires function { IsNamed work.old.bank f }
    requires line { LineStands work.old line }
    ensures grows { WorkGrows history.now work.old work.new }
    ensures memory { result ≡ Err Stop.OutOfSteps → ⊥ }
{
    let _ = history.len();
    push_known(&mut work.known, Prescription { function: f, line })?;
    Ok(())
}
