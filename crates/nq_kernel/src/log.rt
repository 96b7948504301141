//! The log: lines whose clauses follow by its rules from the lines before them.
ghost use Rattle.std.specs.Prelude.{◌≡◌, ◌+◌, ◌-◌, ◌<◌, ◌≤◌, ◌^◌, ◌++◌, ◌∷◌, [], ℕ, false, length, All, IfOk, OnOk, OnErr, IsSome, is_some, IfSome, IsTrue, ◌&&◌, Some, None, Err, slice_set};
ghost use Rattle.std.specs.Option.{option_copied, option_map};
ghost use Rattle.nq_bank.specs.Content.{Content, Grows, Stands, term_at};
ghost use Rattle.nq_steps.specs.NewNames.{AddsSymbols};
ghost use Rattle.nq_clause.specs.Substitution.{substitution_at, PairStands};
ghost use Rattle.nq_proof.specs.Clauses.{literal_at};
ghost use Rattle.nq_proof.specs.Paths.{under_two_nots, if_parts};
ghost use Rattle.nq_proof.specs.Linear.{and_then};
ghost use Rattle.nq_proof.specs.Rules.{is_substitution, has_only, case_tests, are_steps, given};
ghost use Rattle.nq_logic.specs.Words.{call1};
ghost use Rattle.nq_rule.specs.Inductions.{cases_at, CaseStands};
ghost use Rattle.nq_history.specs.Events.{HistoryStands};
ghost use Rattle.nq_rule.specs.Branches.{branches_at, BranchesStand};
ghost use Rattle.nq_rule.specs.Conclusions.{Concludes, IsDeep};
ghost use Rattle.nq_rule.specs.Places.{part_at};
ghost use Rattle.nq_rule.specs.Results.{first_split_of, second_split_of, not_not_of};
ghost use Rattle.nq_kernel.specs.Meaning.{clause_at, IsOver, RuleStands, Adds, Places, conclusion_at, is_axiom_row};
ghost use Rattle.nq_kernel.specs.Lines.{ids_at, live_lines, rule_of};

use crate::axioms::{clause_of_axiom, has_axiom};
use crate::inductions::{cases_hold, shows_base, shows_ordinal};
use crate::rule::{Line, Rule};
use nq_bank::{Bank, BankFault, TermId};
use nq_clause::Pair;
use nq_history::History;
use nq_linear_rule::{is_refuted, linear_clause};
use nq_rule::{
    Branches, CaseOfInduction, are_distinct_variables, branches_at_literal, can_replace_at,
    clause_in_place, clause_of, clause_of_one, contains_opposite, cut_clause, first_branch_clause,
    instance_clause, join_clause, reflexive_clause, replace_clause, second_branch_clause,
    under_nots_at, weaker_clause,
};
use nq_value::has_value;
use nq_value_rule::value_clause;
use std::alloc::{AllocError, Global};
use std::collections::HashMap;
use std::marker::Model;

/// Lines, each with the clause that its rule gave.
#[derive(Drop)]
pub struct Log {
    alloc: Global,
    lines: Vec<Line>,
    /// The number of a line that may have the clause of this mark.
    marks: HashMap<u64, u64>,
    /// The numbers of lines that were kept under keys.
    kept: HashMap<u64, u64>,
}

/// The factor that mixes the bits of a mark.
const FACTOR: u64 = 0x9E37_79B9_7F4A_7C15;

/// A number for some terms, which others seldom have. Nothing rests on it: what is found by it is compared.
pub fn mark_of(terms: &[TermId]) -> u64 {
    let mut mark = FACTOR;
    for t in terms {
        let product = (mark ^ t.0).wrapping_mul(FACTOR);
        mark = product ^ (product >> 29);
    }
    mark
}

/// Are two literals one?
fn is_same_literal(literal: TermId, other: TermId) -> bool
    ensures same { IsTrue result → literal ≡ other }
    ensures other { literal ≡ other → IsTrue result }
{
    literal == other
}

/// Are two clauses the same, literal by literal?
pub fn is_same_clause(clause: &[TermId], other: &[TermId]) -> bool
    ensures same { IsTrue result → clause.now ≡ other.now }
    ensures other { clause.now ≡ other.now → IsTrue result }
{
    match clause {
        [] => other.is_empty(),
        [first, rest @ ..] => match other {
            [] => false,
            [head, tail @ ..] => {
                if is_same_literal(*first, *head) {
                    is_same_clause(rest, tail)
                } else {
                    false
                }
            }
        },
    }
}

/// How many of these lines stand.
fn count_standing(lines: &[Line]) -> u64
    ensures { result ≡ live_lines lines.now }
{
    let mut standing = 0;
    for line in lines {
        if line.stands {
            standing += 1;
        }
    }
    standing
}

impl Model for Log {
    ghost use Rattle.std.specs.Prelude.{List};
    ghost use Rattle.nq_kernel.specs.declared.rule.Line.{Line};

    ghost Value = { List Line };

    ghost view = { λ log. log.lines.items };
}

impl Log {
    /// A log with no line.
    pub fn new(alloc: Global) -> Log
        ensures { result ≡ [] }
    {
        Log {
            alloc,
            lines: Vec::new(alloc),
            marks: HashMap::new(alloc),
            kept: HashMap::new(alloc),
        }
    }

    /// How many lines it has; the last has this number.
    pub fn len(&self) -> u64
        ensures count { result ≡ length self.now }
        ensures fits { result < 2 ^ 63 }
    {
        self.lines.len() as u64
    }

    /// The clause of a line that stands.
    pub fn cited(&self, line: u64) -> Option<&[TermId]>
        ensures { option_copied result ≡ ids_at self.now line }
    {
        if line == 0 {
            return None;
        }
        match self.lines.get((line - 1) as usize) {
            None => None,
            Some(found) => {
                if found.stands {
                    Some(found.clause.as_slice())
                } else {
                    None
                }
            }
        }
    }

    /// Does a line stand?
    pub fn stands(&self, line: u64) -> bool
        ensures { result ≡ is_some (ids_at self.now line) }
    {
        self.cited(line).is_some()
    }

    /// The clause of a line.
    pub fn clause(&self, line: u64) -> &[TermId]
        requires { IsSome (ids_at self.now line) }
        ensures { ids_at self.now line ≡ Some result.now }
    {
        self.cited(line).unwrap()
    }

    /// The rule by which a line was added that stands.
    pub fn rule(&self, line: u64) -> &Rule
        requires { IsSome (ids_at self.now line) }
        ensures { rule_of self.now line ≡ Some result.now }
    {
        &self.lines[(line - 1) as usize].rule
    }

    /// How many lines stand: they were added, and not dropped.
    pub fn live(&self) -> u64
        ensures { result ≡ live_lines self.now }
    {
        count_standing(self.lines.as_slice())
    }

    /// A line that has this clause, if one is noted that does.
    fn noted(&self, clause: &[TermId]) -> Option<u64>
        ensures { IfSome result (λ n. ids_at self.now n ≡ Some clause.now) }
    {
        let n = self.marks.get(&mark_of(clause)).copied()?;
        let found = self.cited(n)?;
        if is_same_clause(found, clause) {
            Some(n)
        } else {
            None
        }
    }

    /// Notes a line, so that one with its clause is found. Where memory is wanting it is not noted.
    fn note(&mut self, line: u64)
        ensures { self.new ≡ self.old }
    {
        if let Some(clause) = self.cited(line) {
            let mark = mark_of(clause);
            let _ = self.marks.insert(mark, line);
        }
    }

    /// The line that was last kept under a key, if it stands. What it says is for the caller to know.
    pub(crate) fn kept(&self, key: u64) -> Option<u64>
        ensures { IfSome result (λ n. IsSome (ids_at self.now n)) }
    {
        let n = self.kept.get(&key).copied()?;
        if self.stands(n) { Some(n) } else { None }
    }

    /// Keeps a line under a key, so that it is found again. Where memory is wanting it is not kept.
    pub(crate) fn keep(&mut self, key: u64, line: u64)
        ensures { self.new ≡ self.old }
    {
        let _ = self.kept.insert(key, line);
    }

    /// The number of a line that has the clause which an allowed rule gives: of one that is noted, or else of a new one, which
    /// is noted then.
    pub fn find_or_add(
        &mut self,
        bank: &mut Bank,
        history: &History,
        rule: Rule,
    ) -> Result<u64, BankFault>
        requires log { IsOver bank.old self.old }
        requires history { HistoryStands bank.old history.now }
        requires rule { RuleStands bank.old rule }
        requires allowed { IsSome (conclusion_at bank.old history.now self.old rule) }
        ensures line { IfOk result (λ n. Places bank.old bank.new history.now self.old self.new rule n) }
        ensures grows { Grows bank.old bank.new }
        ensures err { OnErr result (self.new ≡ self.old) }
        ensures symbols { AddsSymbols bank.old bank.new }

        // A clause with a term that is too deep is refused as such, unless memory is wanting first; no other is.
        ensures deep { result ≡ Err BankFault.Deep → IsDeep (conclusion_at bank.old history.now self.old rule) }
        ensures shallow { OnOk result (IsDeep (conclusion_at bank.old history.now self.old rule) → ⊥) }
    {
        let clause = self.conclude(bank, history, &rule)?;
        bank.is_sound();
        match self.noted(clause.as_slice()) {
            Some(n) => Ok(n),
            None => {
                let n = self.len() + 1;
                self.push(Line {
                    rule,
                    clause,
                    stands: true,
                })?;
                self.note(n);
                Ok(n)
            }
        }
    }

    /// Ends the use of a line: the room that its clause and its rule took is given back.
    pub fn drop_line(&mut self, line: u64)
        requires { IsSome (ids_at self.old line) }
        ensures gone { ids_at self.new line ≡ None }
        ensures others { (n : ℕ) → (n ≡ line → ⊥) → ids_at self.new n ≡ ids_at self.old n }
        ensures rules { (n : ℕ) → (n ≡ line → ⊥) → rule_of self.new n ≡ rule_of self.old n }
        ensures count { length self.new ≡ length self.old }
        ensures over { (bank : Content) → IsOver bank self.old → IsOver bank self.new }
    {
        self.lines[(line - 1) as usize] = Line {
            rule: Rule::Taut(Vec::new(self.alloc)),
            clause: Vec::new(self.alloc),
            stands: false,
        };
    }

    /// The clause of a line, over a bank.
    pub fn clause_over(&self, bank: &Bank, line: u64) -> &[TermId]
        requires log { IsOver bank.now self.now }
        requires line { IsSome (ids_at self.now line) }
        ensures clause { ids_at self.now line ≡ Some result.now }
        ensures stand { All (Stands bank.now) result.now }
    {
        self.clause(line)
    }

    /// Is a rule allowed after the lines that stand? That its clause may be too deep is told by `add`.
    pub fn allowed(&self, bank: &Bank, history: &History, rule: &Rule) -> Result<bool, AllocError>
        requires log { IsOver bank.now self.now }
        requires history { HistoryStands bank.now history.now }
        requires rule { RuleStands bank.now rule.now }
        ensures { IfOk result (λ b. b ≡ is_some (conclusion_at bank.now history.now self.now rule.now)) }
    {
        let allowed = match rule {
            Rule::Taut(terms) => contains_opposite(bank, terms.as_slice(), terms.as_slice()),
            Rule::AxiomRow(name, row, part) => has_axiom(bank, history, *name, *row, *part)?,
            Rule::EventTerm(name) => history.term_of(bank, *name).is_some(),
            Rule::Weaken(line, _) => self.stands(*line),
            Rule::Cut(first, second, _) => self.both_stand(*first, *second),
            Rule::Instance(line, pairs) => self.is_instance(bank, *line, pairs.as_slice()),
            Rule::Reflexive(_) => true,
            Rule::Replace(line, place, path, _, _) => {
                self.can_replace(bank, *line, *place, path.as_slice())
            }
            Rule::Join(first, second, _) => self.both_stand(*first, *second),
            Rule::SplitFirst(line, place) => self.branches_of(bank, *line, *place).is_some(),
            Rule::SplitSecond(line, place) => self.branches_of(bank, *line, *place).is_some(),
            Rule::NotNot(line, place) => self.under_literal(bank, *line, *place).is_some(),
            Rule::Value(t) => has_value(bank, *t),
            Rule::Linear(summands) => is_refuted(bank, summands.as_slice())?,
            Rule::Induct(claim, measure, ordinal, base, cases) => {
                self.is_induction(bank, *claim, *measure, *ordinal, *base, cases.as_slice())?
            }
        };
        Ok(allowed)
    }

    fn both_stand(&self, first: u64, second: u64) -> bool
        ensures { result ≡ (is_some (ids_at self.now first) && is_some (ids_at self.now second)) }
    {
        self.stands(first) && self.stands(second)
    }

    fn is_instance(&self, bank: &Bank, line: u64, pairs: &[Pair]) -> bool
        requires { All (PairStands bank.now) pairs.now }
        ensures { result ≡ (is_some (ids_at self.now line) && is_substitution (substitution_at bank.now pairs.now)) }
    {
        self.stands(line) && are_distinct_variables(bank, pairs)
    }

    /// What stands under the two NOTs of a literal of a line.
    fn under_literal(&self, bank: &Bank, line: u64, place: u64) -> Option<TermId>
        requires log { IsOver bank.now self.now }
        ensures term { option_map (term_at bank.now) result ≡ and_then (clause_at bank.now self.now line) (λ c. and_then (literal_at place c) under_two_nots) }
        ensures stands { IfSome result (λ t. Stands bank.now t) }
    {
        if !self.stands(line) {
            return None;
        }
        let clause = self.clause_over(bank, line);
        under_nots_at(bank, clause, place)
    }

    /// The branches of a literal of a line that is an IF.
    fn branches_of(&self, bank: &Bank, line: u64, place: u64) -> Option<Branches>
        requires log { IsOver bank.now self.now }
        ensures parts { option_map (branches_at bank.now) result ≡ and_then (clause_at bank.now self.now line) (λ c. and_then (literal_at place c) if_parts) }
        ensures stand { IfSome result (λ b. BranchesStand bank.now b) }
    {
        if !self.stands(line) {
            return None;
        }
        branches_at_literal(bank, self.clause_over(bank, line), place)
    }

    /// Has a line a place at a path within a literal?
    fn can_replace(&self, bank: &Bank, line: u64, place: u64, path: &[u64]) -> bool
        requires log { IsOver bank.now self.now }
        ensures { result ≡ is_some (and_then (clause_at bank.now self.now line) (λ c. and_then (literal_at place c) (λ a. part_at path.now a))) }
    {
        if !self.stands(line) {
            return false;
        }
        can_replace_at(bank, self.clause_over(bank, line), place, path)
    }

    /// Do the lines show an induction: that the measure is an ordinal, the base case, and each case?
    fn is_induction(
        &self,
        bank: &Bank,
        claim: TermId,
        measure: TermId,
        ordinal: u64,
        base: u64,
        cases: &[CaseOfInduction],
    ) -> Result<bool, AllocError>
        requires log { IsOver bank.now self.now }
        requires claim { Stands bank.now claim }
        requires measure { Stands bank.now measure }
        requires cases { All (CaseStands bank.now) cases.now }
        ensures { IfOk result (λ b. b ≡ (has_only (clause_at bank.now self.now ordinal) (call1 "ORDINALP" (term_at bank.now measure) ∷ []) && has_only (clause_at bank.now self.now base) (case_tests (cases_at bank.now cases.now) ++ (term_at bank.now claim ∷ [])) && are_steps (clause_at bank.now self.now) (term_at bank.now claim) (term_at bank.now measure) (cases_at bank.now cases.now))) }
    {
        if !shows_ordinal(self, bank, measure, ordinal) {
            return Ok(false);
        }
        if !shows_base(self, bank, claim, cases, base) {
            return Ok(false);
        }
        cases_hold(self, bank, claim, measure, cases)
    }

    /// The clause of a line with the NOT of the test and the first branch of a literal that is an IF in its place.
    fn split_first(&self, bank: &mut Bank, line: u64, place: u64) -> Result<Vec<TermId>, BankFault>
        requires log { IsOver bank.old self.now }
        requires branches { IsSome (and_then (clause_at bank.old self.now line) (λ c. and_then (literal_at place c) if_parts)) }
        ensures ok { IfOk result (λ c. Concludes bank.new c.items (given (clause_at bank.old self.now line) (first_split_of place))) }
        ensures grows { Grows bank.old bank.new }
        ensures names { bank.new.names ≡ bank.old.names }
        ensures deep { result ≡ Err BankFault.Deep → IsDeep (given (clause_at bank.old self.now line) (first_split_of place)) }
    {
        let parts = self.branches_of(bank, line, place).unwrap();
        let clause = self.clause_over(bank, line);
        first_branch_clause(bank, clause, place, parts)
    }

    /// The clause of a line with the test and the second branch of a literal that is an IF in its place.
    fn split_second(&self, bank: &Bank, line: u64, place: u64) -> Result<Vec<TermId>, BankFault>
        requires log { IsOver bank.now self.now }
        requires branches { IsSome (and_then (clause_at bank.now self.now line) (λ c. and_then (literal_at place c) if_parts)) }
        ensures ok { IfOk result (λ c. Concludes bank.now c.items (given (clause_at bank.now self.now line) (second_split_of place))) }
        ensures not_deep { result ≡ Err BankFault.Deep → ⊥ }
    {
        let parts = self.branches_of(bank, line, place).unwrap();
        let clause = self.clause_over(bank, line);
        second_branch_clause(bank, clause, place, parts)
    }

    /// The clause of a line with what stands under the two NOTs of a literal in its place.
    fn without_nots(&self, bank: &Bank, line: u64, place: u64) -> Result<Vec<TermId>, BankFault>
        requires log { IsOver bank.now self.now }
        requires nots { IsSome (and_then (clause_at bank.now self.now line) (λ c. and_then (literal_at place c) under_two_nots)) }
        ensures ok { IfOk result (λ c. Concludes bank.now c.items (given (clause_at bank.now self.now line) (not_not_of place))) }
        ensures not_deep { result ≡ Err BankFault.Deep → ⊥ }
    {
        let t = self.under_literal(bank, line, place).unwrap();
        let clause = self.clause_over(bank, line);
        clause_in_place(bank, clause, place, &[t])
    }

    /// The clause that an allowed rule gives.
    fn conclude(
        &self,
        bank: &mut Bank,
        history: &History,
        rule: &Rule,
    ) -> Result<Vec<TermId>, BankFault>
        requires log { IsOver bank.old self.now }
        requires history { HistoryStands bank.old history.now }
        requires rule { RuleStands bank.old rule.now }
        requires allowed { IsSome (conclusion_at bank.old history.now self.now rule.now) }
        ensures ok { IfOk result (λ c. Concludes bank.new c.items (conclusion_at bank.old history.now self.now rule.now)) }
        ensures grows { Grows bank.old bank.new }
        ensures deep { result ≡ Err BankFault.Deep → IsDeep (conclusion_at bank.old history.now self.now rule.now) }
        ensures names { is_axiom_row rule.now ≡ false → bank.new.names ≡ bank.old.names }
        ensures symbols { AddsSymbols bank.old bank.new }
    {
        match rule {
            Rule::Taut(terms) => clause_of(bank, terms.as_slice()),
            Rule::AxiomRow(name, row, part) => {
                clause_of_axiom(bank, history, *name, *row, *part)
            }
            Rule::EventTerm(name) => {
                let t = history.term_of(bank, *name).unwrap();
                clause_of_one(bank, t)
            }
            Rule::Weaken(line, terms) => {
                weaker_clause(bank, self.clause_over(bank, *line), terms.as_slice())
            }
            Rule::Cut(first, second, t) => {
                let left = self.clause_over(bank, *first);
                let right = self.clause_over(bank, *second);
                cut_clause(bank, left, right, *t)
            }
            Rule::Instance(line, pairs) => {
                let clause = self.clause_over(bank, *line);
                instance_clause(bank, clause, pairs.as_slice())
            }
            Rule::Reflexive(t) => reflexive_clause(bank, *t),
            Rule::Replace(line, place, path, t, side) => {
                let clause = self.clause_over(bank, *line);
                replace_clause(bank, clause, *place, path.as_slice(), *t, *side)
            }
            Rule::Join(first, second, parts) => {
                let left = self.clause_over(bank, *first);
                let right = self.clause_over(bank, *second);
                join_clause(bank, left, right, *parts)
            }
            Rule::SplitFirst(line, place) => self.split_first(bank, *line, *place),
            Rule::SplitSecond(line, place) => self.split_second(bank, *line, *place),
            Rule::NotNot(line, place) => self.without_nots(bank, *line, *place),
            Rule::Value(t) => value_clause(bank, *t),
            Rule::Linear(summands) => linear_clause(bank, summands.as_slice()),
            Rule::Induct(claim, _, _, _, _) => clause_of_one(bank, *claim),
        }
    }

    /// Adds the line of an allowed rule, and tells its number.
    pub fn add(&mut self, bank: &mut Bank, history: &History, rule: Rule) -> Result<u64, BankFault>
        requires log { IsOver bank.old self.old }
        requires history { HistoryStands bank.old history.now }
        requires rule { RuleStands bank.old rule }
        requires allowed { IsSome (conclusion_at bank.old history.now self.old rule) }
        ensures line { IfOk result (λ n. Adds bank.old bank.new history.now self.old self.new rule n) }
        ensures over { IsOver bank.new self.new }
        ensures grows { Grows bank.old bank.new }
        ensures err { OnErr result (self.new ≡ self.old) }

        // A clause with a term that is too deep is refused as such, unless memory is wanting first; no other is.
        ensures deep { result ≡ Err BankFault.Deep → IsDeep (conclusion_at bank.old history.now self.old rule) }
        ensures shallow { OnOk result (IsDeep (conclusion_at bank.old history.now self.old rule) → ⊥) }

        // Only the row of an axiom brings names, those of its variables, which are symbols in upper case.
        ensures names { is_axiom_row rule ≡ false → bank.new.names ≡ bank.old.names }
        ensures symbols { AddsSymbols bank.old bank.new }
    {
        let clause = self.conclude(bank, history, &rule)?;
        bank.is_sound();
        let n = self.len() + 1;
        self.push(Line {
            rule,
            clause,
            stands: true,
        })?;
        Ok(n)
    }

    fn push(&mut self, line: Line) -> Result<(), BankFault>
        ensures ok { OnOk result (self.new ≡ self.old ++ line ∷ []) }
        ensures err { OnErr result (self.new ≡ self.old) }
        ensures not_deep { result ≡ Err BankFault.Deep → ⊥ }
    {
        match self.lines.push(line) {
            Ok(()) => Ok(()),
            Err(_) => Err(BankFault::Memory),
        }
    }
}
