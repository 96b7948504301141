//! What rewritings learn that serves the later ones of the same proof: which openings were not kept. It decides only what is tried.
ghost use Rattle.std.specs.Prelude.{◌≡◌, Err};
ghost use Rattle.nq_bank.specs.Content.{Stands};

use crate::search::{ASSUMED, mixed};
use crate::terms::{MARK_LIMIT, has_id, variables_of};
use nq_bank::{Bank, Node, Sym, TermId, ground};
use nq_kernel::Stop;
use std::alloc::Global;
use std::collections::HashMap;

/// A number for each kind of mark of openings.
const WIDE: u64 = 0xBB67_AE85_84CA_A73B;

const CLOSE: u64 = 0xD807_AA98_A303_0242;

const SEEN: u64 = 0x428A_2F98_D728_AE22;

/// How many nodes a test of a body may have beside those of the call.
const TEST_NODES: u64 = 4;

/// The most nodes of an assumption that says of variables what they are.
const FACT_NODES: u64 = 4;

/// How often the openings of a call may come to nothing before only what is said of its arguments is looked at.
const LOSS_LIMIT: u32 = 2;

/// What rewritings learn that serves the later ones of the same proof.
#[derive(Drop)]
pub struct Learnt {
    /// The marks of openings that were not kept.
    lost: HashMap<u64, bool>,
    /// How many openings of a call were not kept.
    losses: HashMap<u64, u32>,
    /// The variables of terms that were looked at.
    variables: HashMap<u64, u64>,
    /// The lines of laws, by their numbers.
    laws: HashMap<u64, u64>,
}

/// What stands under the NOT of an assumption, or the assumption itself.
fn atom_of(bank: &Bank, a: TermId) -> TermId
    requires { Stands bank.now a }
    ensures { Stands bank.now result }
{
    match bank.node(a) {
        Node::App(f, _) => {
            if f.0 == ground::NOT.0 {
                match bank.args(a) {
                    [p] => *p,
                    [] => a,
                    _ => a,
                }
            } else {
                a
            }
        }
        Node::Num(_) => a,
        Node::Var(_) => a,
    }
}

/// Is a term an argument of a call, or are they both calls of this function?
fn has_one_of(bank: &Bank, arguments: &[TermId], t: TermId) -> bool
    requires { Stands bank.now t }
{
    for a in bank.args(t) {
        if has_id(arguments, *a) {
            return true;
        }
    }
    false
}

/// Is a function one of those that only ask something?
fn is_asking(f: Sym) -> bool {
    f.0 == ground::NOT.0
        || f.0 == ground::EQUAL.0
        || f.0 == ground::LESSP.0
        || f.0 == ground::LISTP.0
        || f.0 == ground::NUMBERP.0
        || f.0 == ground::AND.0
        || f.0 == ground::OR.0
        || f.0 == ground::IMPLIES.0
        || f.0 == ground::IF.0
}

/// May a term be an argument of a call, and not only ask something?
fn is_object(bank: &Bank, t: TermId) -> bool
    requires { Stands bank.now t }
{
    match bank.node(t) {
        Node::App(f, _) => !is_asking(f),
        Node::Num(_) => false,
        Node::Var(_) => true,
    }
}

impl Learnt {
    /// Nothing is learnt yet.
    pub fn new(alloc: Global) -> Learnt {
        Learnt {
            lost: HashMap::new(alloc),
            losses: HashMap::new(alloc),
            variables: HashMap::new(alloc),
            laws: HashMap::new(alloc),
        }
    }

    /// The variables of a term, each as one of 64 bits, and all bits where the term is not walked. They are kept; where memory is
    /// wanting they are looked for again.
    pub fn variables_of(&mut self, bank: &Bank, t: TermId) -> u64
        requires { Stands bank.now t }
    {
        if let Some(variables) = self.variables.get(&t.0) {
            return *variables;
        }
        let variables = variables_of(bank, t);
        let _ = self.variables.insert(t.0, variables);
        variables
    }

    /// Has a term only these variables, and at most so many nodes?
    fn is_all_in(&mut self, bank: &Bank, variables: u64, nodes: u64, t: TermId) -> bool
        requires { Stands bank.now t }
    {
        bank.size(t) <= nodes
            && bank.size(t) < MARK_LIMIT
            && self.variables_of(bank, t) & !variables == 0
    }

    /// The mark of a call that is opened where these are assumed, in a goal that has these terms. The tests of its body are about what
    /// stands in it, and so only the assumptions count that have no other variables and are hardly larger; and of the terms of the
    /// goal only those that may be arguments of its function's calls.
    pub fn wide_mark(&mut self, bank: &Bank, assumed: &[TermId], goal: &[TermId], t: TermId) -> u64
        requires { Stands bank.now t }
    {
        let variables = self.variables_of(bank, t);
        let nodes = bank.size(t);
        let mut sum: u64 = 0;
        for a in assumed {
            if a.0 < bank.len()
                && self.is_all_in(bank, variables, nodes.saturating_add(TEST_NODES), *a)
            {
                sum = sum.wrapping_add(mixed(ASSUMED, a.0));
            }
        }
        for g in goal {
            if g.0 < bank.len()
                && self.is_all_in(bank, variables, nodes, *g)
                && is_object(bank, *g)
            {
                sum = sum.wrapping_add(mixed(SEEN, g.0));
            }
        }
        mixed(mixed(WIDE, t.0), sum)
    }

    /// Does an assumption say what the variables of a call are, or is one of its arguments an argument of the call?
    fn is_fact(&mut self, bank: &Bank, f: Sym, variables: u64, t: TermId, a: TermId) -> bool
        requires call { Stands bank.now t }
        requires assumed { Stands bank.now a }
    {
        let atom = atom_of(bank, a);
        match bank.node(atom) {
            Node::App(g, _) => {
                g.0 != f.0
                    && (self.is_all_in(bank, variables, FACT_NODES, atom)
                        || has_one_of(bank, bank.args(t), atom))
            }
            Node::Num(_) => false,
            Node::Var(_) => true,
        }
    }

    /// The mark of a call of this function that is opened, of which only that counts that is said of its arguments and variables.
    pub fn close_mark(
        &mut self,
        bank: &Bank,
        assumed: &[TermId],
        goal: &[TermId],
        f: Sym,
        t: TermId,
    ) -> u64
        requires { Stands bank.now t }
    {
        let variables = self.variables_of(bank, t);
        let mut sum: u64 = 0;
        for a in assumed {
            if a.0 < bank.len() && self.is_fact(bank, f, variables, t, *a) {
                sum = sum.wrapping_add(mixed(ASSUMED, a.0));
            }
        }
        for g in goal {
            if g.0 < bank.len() && is_object(bank, *g) && has_one_of(bank, bank.args(t), *g) {
                sum = sum.wrapping_add(mixed(SEEN, g.0));
            }
        }
        mixed(mixed(CLOSE, t.0), sum)
    }

    /// The line of the law of this number, if one was added. It is a guess, which a test decides.
    pub fn law_line(&self, number: u64) -> Option<u64> {
        self.laws.get(&number).copied()
    }

    /// Keeps the line of the law of this number. Where memory is wanting it is not kept.
    pub fn keep_law(&mut self, number: u64, line: u64) {
        let _ = self.laws.insert(number, line);
    }

    /// Were so many openings of a call not kept that only what is said of its arguments counts?
    pub fn is_tired(&self, t: TermId) -> bool {
        match self.losses.get(&t.0) {
            Some(count) => *count >= LOSS_LIMIT,
            None => false,
        }
    }

    /// Was the opening that has this mark not kept?
    pub fn is_lost(&self, mark: u64) -> bool {
        self.lost.get(&mark).is_some()
    }

    /// The opening that has this mark is not kept.
    pub fn lose(&mut self, mark: u64) -> Result<(), Stop>
        ensures out { result ≡ Err Stop.OutOfSteps → ⊥ }
    {
        match self.lost.insert(mark, true) {
            Ok(_) => Ok(()),
            Err(_) => Err(Stop::Memory),
        }
    }

    /// One more opening of a call is not kept.
    pub fn count_loss(&mut self, t: TermId) -> Result<(), Stop>
        ensures out { result ≡ Err Stop.OutOfSteps → ⊥ }
    {
        let before = self.losses.get(&t.0).copied().unwrap_or(0);
        match self.losses.insert(t.0, before.saturating_add(1)) {
            Ok(_) => Ok(()),
            Err(_) => Err(Stop::Memory),
        }
    }
}
