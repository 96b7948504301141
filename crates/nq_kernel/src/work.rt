//! Work that provers do: a bank, a log, a counter, and the type prescriptions that are known.
ghost use Rattle.std.specs.Prelude.{◌≡◌, ◌+◌, ◌*◌, ◌≤◌, ◌<◌, ◌↔◌, ◌⊎◌, [], All, IfOk, IfSome, OnOk, IsOk, IsSome, IsTrue, Err, Some, length, min};
ghost use Rattle.nq_logic.specs.Terms.{call};
ghost use Rattle.nq_logic.specs.Sizes.{depth_of, depth_limit};
ghost use Rattle.nq_logic.specs.Ground.{symbols_of};
ghost use Rattle.nq_bank.specs.Content.{Stands, IsNamed, IsIdOf, text_at, term_at, terms_at};
ghost use Rattle.nq_clause.specs.Substitution.{substitution_at, PairStands};
ghost use Rattle.nq_proof.specs.Rules as tree;
ghost use Rattle.nq_proof.specs.Rules.{is_substitution};
ghost use Rattle.nq_history.specs.Events.{events_at};
ghost use Rattle.nq_rule.specs.Conclusions.{IsDeep};
ghost use Rattle.nq_rule.specs.Results.{cut_of, instance_of};
ghost use Rattle.nq_kernel.specs.Paths.{UsesUp};
ghost use Rattle.nq_kernel.specs.Steps.{steps_of};
ghost use Rattle.nq_kernel.specs.Meaning.{RuleStands, Adds, clause_at, conclusion_at};
ghost use Rattle.nq_kernel.specs.Over.{IsVariable, RuleIsOver, RuleIsIn, TermIsIn};
ghost use Rattle.nq_kernel.specs.Growing.{made_in, sum_of, IsWithin, PassesLimit, WorkStands, WorkGrows, LineStands, LineHolds, held};

use crate::counter::Counter;
use crate::log::Log;
use crate::numbers::steps_of_line;
use crate::prescription::Prescription;
use crate::rule::Rule;
use nq_bank::{Bank, BankFault, Sym, TermId};
use nq_clause::Pair;
use nq_history::History;

/// The most entries of the rewriter that are nested.
const DEPTH_LIMIT: u32 = 4000;

/// Why work stopped.
#[derive(Clone, Copy, Debug, PartialEq, Eq)]
pub enum Stop {
    /// The counter is at its limit.
    OutOfSteps,
    /// Memory is wanting.
    Memory,
}

/// What a prover works on.
#[derive(Drop)]
pub struct Work {
    /// The terms.
    pub bank: Bank,
    /// The lines.
    pub log: Log,
    /// The steps that are used.
    pub counter: Counter,
    /// The type prescriptions that lines of the log show.
    pub known: Vec<Prescription>,
}

/// The steps of a line, where one was added.
fn steps_if(added: bool, steps: u128) -> u128
    ensures { result ≤ steps }
{
    if added { steps } else { 0 }
}

impl Work {
    /// Work on a bank and a log, with no step used of so many, and nothing known.
    pub fn new(bank: Bank, log: Log, limit: u64) -> Work
        ensures bank { result.bank ≡ bank }
        ensures log { result.log ≡ log }
        ensures used { result.counter.used ≡ 0 }
        ensures limit { result.counter.limit ≡ limit }
        ensures known { result.known.items ≡ [] }
    {
        let known = Vec::new(bank.alloc());
        Work {
            bank,
            log,
            counter: Counter::new(limit),
            known,
        }
    }

    /// The call of a function; new terms are counted, and a call that is too deep uses the counter up.
    pub fn app(&mut self, history: &History, f: Sym, args: &[TermId]) -> Result<TermId, Stop>
        requires stands { WorkStands history.now self.old }
        requires function { IsNamed self.old.bank f }
        requires arguments { All (Stands self.old.bank) args.now }
        ensures call { IfOk result (λ t. IsIdOf self.new.bank t (call (text_at self.old.bank f) (terms_at self.old.bank args.now))) }
        ensures grows { WorkGrows history.now self.old self.new }
        ensures log { self.new.log ≡ self.old.log }
        ensures counted { OnOk result (self.new.counter.used ≡ min (self.old.counter.used + made_in self.old self.new) self.old.counter.limit) }

        // Steps run out exactly where the sum passes the limit or the call is too deep, unless memory is wanting first.
        ensures within { OnOk result (IsWithin self.old self.new 0) }
        ensures shallow { OnOk result (depth_of (call (text_at self.old.bank f) (terms_at self.old.bank args.now)) ≤ depth_limit) }
        ensures passes { result ≡ Err Stop.OutOfSteps → PassesLimit self.old self.new 0 ⊎ (depth_limit < depth_of (call (text_at self.old.bank f) (terms_at self.old.bank args.now))) }
        ensures out { result ≡ Err Stop.OutOfSteps → self.new.counter.used ≡ self.new.counter.limit }
    {
        let before = self.bank.len();
        match self.bank.app(f, args) {
            Ok(t) => {
                let made = self.bank.len().saturating_sub(before);
                if self.counter.count(u128::from(made)) {
                    Ok(t)
                } else {
                    Err(Stop::OutOfSteps)
                }
            }
            Err(BankFault::Deep) => {
                self.counter.use_up();
                Err(Stop::OutOfSteps)
            }
            Err(BankFault::Memory) => Err(Stop::Memory),
        }
    }

    /// Adds the line of an allowed rule over the history's functions, and tells its number. The line, each number in it and
    /// each new term are counted; a clause with a term that is too deep uses the counter up.
    pub fn add(&mut self, history: &History, rule: Rule) -> Result<u64, Stop>
        requires stands { WorkStands history.now self.old }
        requires rule { RuleStands self.old.bank rule }
        requires over { RuleIsIn self.old.bank history.now rule }
        requires allowed { IsSome (conclusion_at self.old.bank history.now self.old.log rule) }
        ensures line { IfOk result (λ n. clause_at self.new.bank self.new.log n ≡ conclusion_at self.old.bank history.now self.old.log rule) }
        ensures adds { IfOk result (λ n. Adds self.old.bank self.new.bank history.now self.old.log self.new.log rule n) }
        ensures grows { WorkGrows history.now self.old self.new }
        ensures counted { OnOk result (self.new.counter.used ≡ min (self.old.counter.used + made_in self.old self.new + steps_of rule) self.old.counter.limit) }

        // Steps run out exactly where the sum passes the limit or a term of the clause is too deep, unless memory is wanting
        // first.
        ensures within { OnOk result (IsWithin self.old self.new (steps_of rule)) }
        ensures shallow { OnOk result (IsDeep (conclusion_at self.old.bank history.now self.old.log rule) → ⊥) }
        ensures passes { result ≡ Err Stop.OutOfSteps → PassesLimit self.old self.new (steps_of rule) ⊎ IsDeep (conclusion_at self.old.bank history.now self.old.log rule) }
        ensures out { result ≡ Err Stop.OutOfSteps → self.new.counter.used ≡ self.new.counter.limit }
    {
        let before = self.bank.len();
        let steps = steps_of_line(&rule);
        let added = self.log.add(&mut self.bank, history, rule);
        let made = u128::from(self.bank.len().saturating_sub(before));
        match added {
            Ok(n) => {
                if self.counter.count(made.saturating_add(steps)) {
                    Ok(n)
                } else {
                    Err(Stop::OutOfSteps)
                }
            }
            Err(BankFault::Deep) => {
                self.counter.use_up();
                Err(Stop::OutOfSteps)
            }
            Err(BankFault::Memory) => {
                self.counter.count(made);
                Err(Stop::Memory)
            }
        }
    }

    /// The number of a line that has the clause which an allowed rule over the history's functions gives: of one that this call
    /// made before, or else of a new one, which is counted as `add` counts it.
    pub fn find_or_add(&mut self, history: &History, rule: Rule) -> Result<u64, Stop>
        requires stands { WorkStands history.now self.old }
        requires rule { RuleStands self.old.bank rule }
        requires over { RuleIsIn self.old.bank history.now rule }
        requires allowed { IsSome (conclusion_at self.old.bank history.now self.old.log rule) }
        ensures line { IfOk result (λ n. clause_at self.new.bank self.new.log n ≡ conclusion_at self.old.bank history.now self.old.log rule) }
        ensures grows { WorkGrows history.now self.old self.new }

        // Steps run out only where a new line would pass the limit, or a term of the clause is too deep.
        ensures shallow { OnOk result (IsDeep (conclusion_at self.old.bank history.now self.old.log rule) → ⊥) }
        ensures passes { result ≡ Err Stop.OutOfSteps → PassesLimit self.old self.new (steps_of rule) ⊎ IsDeep (conclusion_at self.old.bank history.now self.old.log rule) }
        ensures out { result ≡ Err Stop.OutOfSteps → self.new.counter.used ≡ self.new.counter.limit }
    {
        let terms = self.bank.len();
        let lines = self.log.len();
        let steps = steps_of_line(&rule);
        let placed = self.log.find_or_add(&mut self.bank, history, rule);
        let made = u128::from(self.bank.len().saturating_sub(terms));
        let added = steps_if(self.log.len() != lines, steps);
        match placed {
            Ok(line) => {
                if self.counter.count(made.saturating_add(added)) {
                    Ok(line)
                } else {
                    Err(Stop::OutOfSteps)
                }
            }
            Err(BankFault::Deep) => {
                self.counter.use_up();
                Err(Stop::OutOfSteps)
            }
            Err(BankFault::Memory) => {
                self.counter.count(made);
                Err(Stop::Memory)
            }
        }
    }

    /// The same of a line with terms in place of variables.
    pub fn find_instance(
        &mut self,
        history: &History,
        line: u64,
        pairs: Vec<Pair>,
    ) -> Result<u64, Stop>
        requires stands { WorkStands history.now self.old }
        requires line { LineStands self.old line }
        requires pairs { All (PairStands self.old.bank) pairs.items }
        requires distinct { IsTrue (is_substitution (substitution_at self.old.bank pairs.items)) }
        requires over { RuleIsOver IsVariable (symbols_of (events_at self.old.bank history.now)) (tree.Instance line (substitution_at self.old.bank pairs.items)) }
        ensures line { IfOk result (λ n. LineHolds self.new n (instance_of (substitution_at self.old.bank pairs.items) (held self.old line))) }
        ensures grows { WorkGrows history.now self.old self.new }
        ensures out { result ≡ Err Stop.OutOfSteps → self.new.counter.used ≡ self.new.counter.limit }
    {
        self.find_or_add(history, Rule::Instance(line, pairs))
    }

    /// The line that was last kept under a key, if it stands. What it says is for the caller to know.
    pub fn kept(&self, key: u64) -> Option<u64>
        ensures { IfSome result (LineStands self.now) }
    {
        self.log.kept(key)
    }

    /// Keeps a line under a key, so that it is found again. Where memory is wanting it is not kept.
    pub fn keep(&mut self, key: u64, line: u64)
        ensures { self.new ≡ self.old }
    {
        self.log.keep(key, line);
    }

    /// Counts an entry of the rewriter, which is nested in so many others; one that is nested too deep uses the counter up.
    pub fn enter(&mut self, depth: u32) -> Result<(), Stop>
        ensures same { self.new ≡ record self.old { counter = self.new.counter } }
        ensures counted { OnOk result (self.new.counter.used ≡ self.old.counter.used + 1) }
        ensures out { result ≡ Err Stop.OutOfSteps → self.new.counter.used ≡ self.new.counter.limit }
        ensures exact { IsOk result ↔ ((depth ≤ depth_limit) × (self.old.counter.used < self.old.counter.limit)) }
        ensures not_memory { result ≡ Err Stop.Memory → ⊥ }
        ensures limit { self.new.counter.limit ≡ self.old.counter.limit }
    {
        if depth > DEPTH_LIMIT {
            self.counter.use_up();
            return Err(Stop::OutOfSteps);
        }
        if self.counter.count(1) {
            Ok(())
        } else {
            Err(Stop::OutOfSteps)
        }
    }

    /// Uses the counter up for a term that has too many IF paths, or is ground and too deep to be evaluated.
    pub fn use_up(&mut self, t: TermId)
        requires stands { Stands self.old.bank t }
        requires term { UsesUp self.old.counter (term_at self.old.bank t) }
        ensures same { self.new ≡ record self.old { counter = self.new.counter } }
        ensures used { self.new.counter.used ≡ self.new.counter.limit }
        ensures limit { self.new.counter.limit ≡ self.old.counter.limit }
    {
        self.counter.use_up();
    }

    /// Adds the line that is cut from two by t.
    pub fn cut(
        &mut self,
        history: &History,
        first: u64,
        second: u64,
        t: TermId,
    ) -> Result<u64, Stop>
        requires stands { WorkStands history.now self.old }
        requires first { LineStands self.old first }
        requires second { LineStands self.old second }
        requires term { Stands self.old.bank t }
        requires over { TermIsIn self.old.bank history.now t }
        ensures line { IfOk result (λ n. LineHolds self.new n (cut_of (term_at self.old.bank t) (held self.old first) (held self.old second))) }
        ensures grows { WorkGrows history.now self.old self.new }
        ensures counted { OnOk result (self.new.counter.used ≡ min (sum_of self.old self.new 4) self.old.counter.limit) }
        ensures within { OnOk result (IsWithin self.old self.new 4) }
        ensures passes { result ≡ Err Stop.OutOfSteps → PassesLimit self.old self.new 4 ⊎ IsDeep (Some (cut_of (term_at self.old.bank t) (held self.old first) (held self.old second))) }
        ensures out { result ≡ Err Stop.OutOfSteps → self.new.counter.used ≡ self.new.counter.limit }
    {
        self.add(history, Rule::Cut(first, second, t))
    }

    /// Adds the line of another, with terms in place of variables.
    pub fn instance(&mut self, history: &History, line: u64, pairs: Vec<Pair>) -> Result<u64, Stop>
        requires stands { WorkStands history.now self.old }
        requires line { LineStands self.old line }
        requires pairs { All (PairStands self.old.bank) pairs.items }
        requires distinct { IsTrue (is_substitution (substitution_at self.old.bank pairs.items)) }
        requires over { RuleIsOver IsVariable (symbols_of (events_at self.old.bank history.now)) (tree.Instance line (substitution_at self.old.bank pairs.items)) }
        ensures line { IfOk result (λ n. LineHolds self.new n (instance_of (substitution_at self.old.bank pairs.items) (held self.old line))) }
        ensures grows { WorkGrows history.now self.old self.new }
        ensures counted { OnOk result (self.new.counter.used ≡ min (sum_of self.old self.new (2 + 2 * length pairs.items)) self.old.counter.limit) }
        ensures within { OnOk result (IsWithin self.old self.new (2 + 2 * length pairs.items)) }
        ensures passes { result ≡ Err Stop.OutOfSteps → PassesLimit self.old self.new (2 + 2 * length pairs.items) ⊎ IsDeep (Some (instance_of (substitution_at self.old.bank pairs.items) (held self.old line))) }
        ensures out { result ≡ Err Stop.OutOfSteps → self.new.counter.used ≡ self.new.counter.limit }
    {
        self.add(history, Rule::Instance(line, pairs))
    }
}
