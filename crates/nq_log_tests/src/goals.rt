//! Goals, and whether they are terms over the functions of a history.
ghost use Rattle.std.specs.Prelude.{◌≡◌, ◌<◌, ◌≤◌, ◌∷◌, [], nat_lt, length, All, IfSome, true};
ghost use Rattle.nq_bank.specs.GroundNames.{ground_count};
ghost use Rattle.nq_bank.specs.declared.node.TermId.{TermId};
ghost use Rattle.nq_bank.specs.Content.{Stands};
ghost use Rattle.nq_history.specs.Events.{HistoryStands};
ghost use Rattle.nq_kernel.specs.Over.{IsVariable, TermIsIn};
ghost use Rattle.nq_lines.specs.Lines.{IsTermIn};

use nq_bank::{Bank, Node, Sym, TermId, ground, ground_name};
use nq_history::History;
use nq_kernel::Work;
use std::alloc::Global;
use std::process::Abort;
use std::test::Fail;

/// Is a term one of the bank's?
pub fn stands(bank: &Bank, t: TermId) -> bool
    ensures { result ≡ nat_lt t.0 (length bank.now.terms) }
{
    t.0 < bank.len()
}

fn all_stand(bank: &Bank, terms: &[TermId]) -> bool
    ensures { result ≡ true → All (Stands bank.now) terms.now }
{
    terms.iter().all(|t| stands(bank, *t))
}

/// Is a byte the text of a variable?
fn is_letter(byte: u8) -> bool
    ensures { result ≡ true → IsVariable (byte ∷ []) }
{
    match byte {
        b'A' | b'B' | b'C' | b'D' | b'E' | b'G' | b'H' | b'I' | b'P' | b'Q' | b'R' | b'X' => true,
        _ => false,
    }
}

fn is_variable(text: &[u8]) -> bool
    ensures { result ≡ true → IsVariable text.now }
{
    match text {
        [byte] => is_letter(*byte),
        _ => false,
    }
}

/// Is a term over the functions of a history, with such variables, where the terms before it are?
fn is_in_after(bank: &Bank, history: &History, t: TermId) -> bool
    requires history { HistoryStands bank.now history.now }
    requires term { Stands bank.now t }
    requires before { (u : TermId) → u.0 < t.0 → TermIsIn bank.now history.now u }
    ensures { result ≡ true → TermIsIn bank.now history.now t }
{
    bank.is_sound();
    match bank.node(t) {
        Node::App(f, _) => match history.arity(f) {
            Some(n) => bank.args(t).len() as u64 == n,
            None => false,
        },
        Node::Var(s) => is_variable(bank.text(s)),
        Node::Num(_) => true,
    }
}

/// Are the first terms of a bank so?
fn first_are_in(bank: &Bank, history: &History, count: u64) -> bool
    requires history { HistoryStands bank.now history.now }
    requires count { count ≤ length bank.now.terms }
    ensures { result ≡ true → (u : TermId) → u.0 < count → TermIsIn bank.now history.now u }
{
    if count == 0 {
        return true;
    }
    if first_are_in(bank, history, count - 1) {
        is_in_after(bank, history, TermId(count - 1))
    } else {
        false
    }
}

/// Is a term so, which is one of the first terms?
pub fn is_in(bank: &Bank, history: &History, count: u64, t: TermId) -> bool
    requires { HistoryStands bank.now history.now }
    ensures { result ≡ true → TermIsIn bank.now history.now t }
{
    if t.0 < count && count <= bank.len() {
        first_are_in(bank, history, count)
    } else {
        false
    }
}

/// Is a term one of the first ones, over the functions of the history?
pub fn is_term_in(work: &Work, history: &History, made: u64, t: TermId) -> bool
    requires { HistoryStands work.now.bank history.now }
    ensures { result ≡ true → IsTermIn history.now work.now t }
{
    stands(&work.bank, t) && is_in(&work.bank, history, made, t)
}

/// Are these such terms?
pub fn are_terms_in(work: &Work, history: &History, made: u64, terms: &[TermId]) -> bool
    requires { HistoryStands work.now.bank history.now }
    ensures { result ≡ true → All (IsTermIn history.now work.now) terms.now }
{
    terms.iter().all(|t| is_term_in(work, history, made, *t))
}

/// The function that a byte stands for.
fn function_of(byte: u8) -> Option<Sym>
    ensures { IfSome result (λ f. f.0 < ground_count) }
{
    match byte {
        b'1' => Some(ground::TRUE),
        b'0' => Some(ground::FALSE),
        b'!' => Some(ground::NOT),
        b'$' => Some(ground::CAR),
        b'+' => Some(ground::ADD1),
        b'~' => Some(ground::EQUAL),
        b'&' => Some(ground::AND),
        b'|' => Some(ground::OR),
        b'>' => Some(ground::IMPLIES),
        b'=' => Some(ground::IFF),
        b'?' => Some(ground::IF),
        b'-' => Some(ground::SUB1),
        b'.' => Some(ground::CONS),
        b'*' => Some(ground::PLUS),
        b'@' => Some(ground::LISTP),
        b'S' => Some(ground::ASSOC),
        b'd' => Some(ground::CDR),
        b'^' => Some(ground::APPEND),
        _ => None,
    }
}

/// How many arguments the function has that a byte stands for.
fn count_of(byte: u8) -> usize {
    match byte {
        b'!' | b'$' | b'+' | b'-' | b'@' | b'd' => 1,
        b'&' | b'|' | b'>' | b'=' | b'~' | b'.' | b'*' | b'^' | b'S' => 2,
        b'?' => 3,
        _ => 0,
    }
}

/// Takes the terms that were made last, the last first.
fn take_last(
    rt: &impl Abort,
    alloc: Global,
    made: &mut Vec<TermId>,
    count: usize,
) -> Result<Vec<TermId>, Fail> {
    let mut taken = Vec::new(alloc);
    for _ in 0..count {
        let t = made.pop();
        assert!(rt; t.is_some(), "an argument is missing");
        if let Some(t) = t {
            taken.push(t)?;
        }
    }
    Ok(taken)
}

/// Makes the term of a byte, with these arguments.
pub fn made_of(
    rt: &impl Abort,
    bank: &mut Bank,
    byte: u8,
    arguments: &[TermId],
) -> Result<TermId, Fail> {
    if byte >= b'2' && byte <= b'9' {
        return Ok(bank.num((byte - b'0') as u128)?);
    }
    match function_of(byte) {
        Some(f) => {
            assert!(rt; all_stand(bank, arguments));
            let name = ground_name(bank, f);
            Ok(bank.app(name, arguments)?)
        }
        None => {
            let name = bank.name(&[byte])?;
            Ok(bank.var(name)?)
        }
    }
}

/// Makes the term that is written with a byte for each function, before its arguments, for each variable, and for each numeral
/// from 2 to 9.
pub fn term(rt: &impl Abort, bank: &mut Bank, text: &[u8]) -> Result<TermId, Fail> {
    let mut made = Vec::new(bank.alloc());
    for byte in text.iter().rev() {
        let alloc = bank.alloc();
        let arguments = take_last(rt, alloc, &mut made, count_of(*byte))?;
        let t = made_of(rt, bank, *byte, arguments.as_slice())?;
        made.push(t)?;
    }
    assert!(rt; made.len() == 1);
    Ok(made[0])
}
