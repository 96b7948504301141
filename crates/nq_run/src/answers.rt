// The answers to forms that are not taken.
ghost use Rattle.std.specs.Prelude.{◌≡◌, [], ◌∷◌, IfOk, IsSome, Some};
ghost use Rattle.nq_comment.specs.Reports as model;
ghost use Rattle.nq_comment.specs.ReportViews.{answer_of, words_of};
ghost use Rattle.nq_bank.specs.Content.{text_at};
ghost use Rattle.nq_history.specs.Events.{class_of};
ghost use Rattle.nq_shell.specs.Admission.{refusal_at};
ghost use Rattle.nq_events.specs.Refusals.{FormalIsConstant, GroundEvent, NameInUse, NoSuchEvent, NotOfShape, OfShell, RepeatedFormal, TooManyEvents};
ghost use Rattle.nq_run.specs.Answers.{IsAnswerTo, fault_refusal, quick_of};
ghost use Rattle.nq_answers.specs.Steps.{refusal_answer, refused};

use nq_admit::AdmitFault;
use nq_bank::{Bank, Sym};
use nq_comment::{FormAnswer, Quick as ShownQuick, Refusal};
use nq_event::EventFault;
use nq_history::Class;
use nq_kernel::Quick;
use nq_shell::ShellFault;
use std::alloc::{AllocError, Global};

/// A refusal with this code and these words.
fn refused(code: u64, words: Vec<Vec<u8>>) -> FormAnswer
    ensures { answer_of result ≡ model.Refused code (words_of words.items) }
{
    FormAnswer::Refused(Refusal { code, words })
}

/// The answer to a form of which no event was read.
pub(crate) fn told(fault: EventFault) -> Result<FormAnswer, AllocError>
    ensures { IfOk result (IsAnswerTo fault) }
{
    match fault {
        EventFault::Refused(code, words) => Ok(refused(code as u64, words)),
        EventFault::Memory => Err(AllocError),
    }
}

/// A refusal with one word.
fn alone(alloc: Global, code: u64, word: &[u8]) -> Result<FormAnswer, AllocError>
    ensures { IfOk result (λ answer. answer_of answer ≡ model.Refused code (word.now ∷ [])) }
{
    let word = word.to_vec(alloc)?;
    let mut words = Vec::new(alloc);
    words.push(word)?;
    Ok(refused(code, words))
}

/// A refusal with a word and a name.
fn named(alloc: Global, code: u64, word: &[u8], name: &[u8]) -> Result<FormAnswer, AllocError>
    ensures { IfOk result (λ answer. answer_of answer ≡ model.Refused code (word.now ∷ name.now ∷ [])) }
{
    let word = word.to_vec(alloc)?;
    let name = name.to_vec(alloc)?;
    let mut words = Vec::new(alloc);
    words.push(word)?;
    words.push(name)?;
    Ok(refused(code, words))
}

/// The answer to a lemma that was proved in this fragment.
pub(crate) fn proved_by(way: Quick) -> FormAnswer
    ensures { answer_of result ≡ model.Proved (quick_of way) }
{
    let shown = match way {
        Quick::Taut => ShownQuick::Taut,
        Quick::Eval => ShownQuick::Eval,
        Quick::Inst => ShownQuick::Inst,
    };
    FormAnswer::Proved(shown)
}

/// The refusal of an undo, or of a name that is disabled or enabled, where no event has the name.
pub(crate) fn no_such_event(alloc: Global, name: &[u8]) -> Result<FormAnswer, AllocError>
    ensures { IfOk result (λ answer. answer_of answer ≡ refusal_answer (NoSuchEvent name.now)) }
{
    named(alloc, 30, b"NoSuchEvent".as_slice(), name)
}

/// The refusal of an undo of an event of the ground history.
pub(crate) fn ground_event(alloc: Global, name: &[u8]) -> Result<FormAnswer, AllocError>
    ensures { IfOk result (λ answer. answer_of answer ≡ refusal_answer (GroundEvent name.now)) }
{
    named(alloc, 31, b"GroundEvent".as_slice(), name)
}

/// The refusal of a new event under a name that is in use.
pub(crate) fn name_in_use(alloc: Global, name: &[u8]) -> Result<FormAnswer, AllocError>
    ensures { IfOk result (λ answer. answer_of answer ≡ refusal_answer (NameInUse name.now)) }
{
    named(alloc, 32, b"NameInUse".as_slice(), name)
}

/// The refusal of a new event where there is no room for one.
pub(crate) fn too_many_events(alloc: Global) -> Result<FormAnswer, AllocError>
    ensures { IfOk result (λ answer. answer_of answer ≡ refusal_answer TooManyEvents) }
{
    alone(alloc, 33, b"TooManyEvents".as_slice())
}

/// The refusal of an axiom or a lemma that is no rule of this class.
pub(crate) fn not_of_shape(alloc: Global, class: Class) -> Result<FormAnswer, AllocError>
    ensures { IfOk result (λ answer. answer_of answer ≡ refusal_answer (NotOfShape (class_of class))) }
{
    match class {
        Class::Rewrite => alone(alloc, 50, b"NotRewrite".as_slice()),
        Class::Elim => alone(alloc, 51, b"NotElim".as_slice()),
        Class::Generalize => alone(alloc, 52, b"NotGeneralize".as_slice()),
    }
}

/// The text of a name; none where the bank doesn't hold it.
fn text_of(bank: &Bank, name: Sym) -> &[u8]
    ensures { result.now ≡ text_at bank.now name }
{
    if name.0 < bank.mark().names {
        return bank.text(name);
    }
    b"".as_slice()
}

/// The refusal of a function with a formal that stands twice.
pub(crate) fn repeated_formal(alloc: Global, formal: &[u8]) -> Result<FormAnswer, AllocError>
    ensures { IfOk result (λ answer. answer_of answer ≡ refusal_answer (RepeatedFormal formal.now)) }
{
    named(alloc, 61, b"RepeatedFormal".as_slice(), formal)
}

/// The refusal of a function with a formal that is T, F or NIL.
pub(crate) fn formal_is_constant(alloc: Global, formal: &[u8]) -> Result<FormAnswer, AllocError>
    ensures { IfOk result (λ answer. answer_of answer ≡ refusal_answer (FormalIsConstant formal.now)) }
{
    named(alloc, 63, b"FormalIsConstant".as_slice(), formal)
}

/// The refusal of a definition of this name for this fault, which is one that refuses.
pub(crate) fn unadmitted(
    alloc: Global,
    bank: &Bank,
    name: Sym,
    fault: AdmitFault,
) -> Result<FormAnswer, AllocError>
    requires refuses { IsSome (fault_refusal bank.now (text_at bank.now name) fault) }
    ensures { IfOk result (λ answer. Some (answer_of answer) ≡ refused (fault_refusal bank.now (text_at bank.now name) fault)) }
{
    match fault {
        AdmitFault::NameInUse => named(alloc, 60, b"NameInUse".as_slice(), text_of(bank, name)),
        AdmitFault::RepeatedFormal(formal) => repeated_formal(alloc, text_of(bank, formal)),
        AdmitFault::FreeVariable(variable) => {
            named(
                alloc,
                62,
                b"FreeVariable".as_slice(),
                text_of(bank, variable),
            )
        }
        AdmitFault::FormalIsConstant(formal) => formal_is_constant(alloc, text_of(bank, formal)),
        AdmitFault::BadMeasureHint => alone(alloc, 65, b"BadMeasureHint".as_slice()),
        AdmitFault::TooManyEvents => too_many_events(alloc),
        AdmitFault::Memory => unreachable!(),
    }
}

/// The refusal of a shell for this fault.
pub(crate) fn shell_refused(
    alloc: Global,
    bank: &Bank,
    fault: ShellFault,
) -> Result<FormAnswer, AllocError>
    ensures { IfOk result (λ answer. answer_of answer ≡ refusal_answer (OfShell (refusal_at bank.now fault))) }
{
    match fault {
        ShellFault::NameInUse(name) => named(
            alloc,
            40,
            b"NameInUse".as_slice(),
            text_of(bank, name),
        ),
        ShellFault::RepeatedName(name) => named(
            alloc,
            41,
            b"RepeatedName".as_slice(),
            text_of(bank, name),
        ),
        ShellFault::UnknownRecognizer(name) => named(
            alloc,
            42,
            b"UnknownRecognizer".as_slice(),
            text_of(bank, name),
        ),
        ShellFault::BadDefault(name) => named(
            alloc,
            43,
            b"BadDefault".as_slice(),
            text_of(bank, name),
        ),
        ShellFault::TooManyShells => alone(alloc, 44, b"TooManyShells".as_slice()),
    }
}
