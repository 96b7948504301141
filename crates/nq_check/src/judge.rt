//! What each line of a log leads to.
ghost use Rattle.std.specs.Prelude.{◌≡◌, ◌||◌, IfOk, IfSome, is_none};
ghost use Rattle.std.specs.Option.{option_map};
ghost use Rattle.nq_logtext.specs.Views.{view};
ghost use Rattle.nq_kernel.specs.Meaning.{rule_at, RuleStands};
ghost use Rattle.nq_log.specs.RuleLines.{rule_line};
ghost use Rattle.nq_log.specs.Logs.{continued, is_definition_word, step, step_by};
ghost use Rattle.nq_check.specs.Contexts.{state_of, IsWhole};
ghost use Rattle.nq_check.specs.Judging.{Leads, rule_by};

use crate::context::Context;
use crate::judged::Judged;
use nq_kernel::Rule;
use nq_logtext::LogLine;
use std::alloc::AllocError;

/// Is a line that of a definition?
fn is_definition(line: &LogLine) -> bool
    ensures { result ≡ is_definition_word (view line.now).word }
{
    match line {
        LogLine::Header { .. } => false,
        LogLine::End => false,
        LogLine::Function { .. } => false,
        LogLine::Variable { .. } => false,
        LogLine::Numeral { .. } => false,
        LogLine::Call { .. } => false,
        LogLine::Taut { .. } => false,
        LogLine::Axiom { .. } => false,
        LogLine::Event { .. } => false,
        LogLine::Weaken { .. } => false,
        LogLine::Cut { .. } => false,
        LogLine::Inst { .. } => false,
        LogLine::Refl { .. } => false,
        LogLine::Replace { .. } => false,
        LogLine::Join { .. } => false,
        LogLine::Split { .. } => false,
        LogLine::NotNot { .. } => false,
        LogLine::Value { .. } => false,
        LogLine::Linear { .. } => false,
        LogLine::Induct { .. } => false,
        LogLine::Drop { .. } => false,
        LogLine::Case { .. } => false,
        LogLine::Hyp { .. } => false,
        LogLine::BootStrap => false,
        LogLine::Shell { .. } => false,
        LogLine::Part { .. } => false,
        LogLine::Dcl { .. } => false,
        LogLine::Axiomatize { .. } => false,
        LogLine::Lemma { .. } => false,
        LogLine::Defn { .. } => true,
        LogLine::Measure { .. } => false,
        LogLine::Toggle { .. } => false,
        LogLine::Undo { .. } => false,
    }
}

impl Context {
    /// Judges a line: where it is allowed, the context is the one after it. A measure is followed by its definition.
    pub fn judge(&mut self, line: &LogLine) -> Result<Judged, AllocError>
        requires { IsWhole self.old }
        ensures { IfOk result (λ judged. Leads (state_of self.old) (step (state_of self.old) (view line.now)) judged self.new) }
    {
        if !self.may_follow(line) {
            return Ok(Judged::NotAllowed);
        }
        self.judge_alone(line)
    }

    /// Does no measure wait, or is the line that of a definition?
    fn may_follow(&self, line: &LogLine) -> bool
        ensures { result ≡ (is_none (state_of self.now).block.measure || is_definition_word (view line.now).word) }
    {
        self.measure.is_none() || is_definition(line)
    }

    /// Judges a line, whether or not a measure waits.
    fn judge_alone(&mut self, line: &LogLine) -> Result<Judged, AllocError>
        requires { IsWhole self.old }
        ensures { IfOk result (λ judged. Leads (state_of self.old) (step_by (state_of self.old) (view line.now).fields (view line.now).word) judged self.new) }
    {
        match line {
            LogLine::Header { .. } => Ok(Judged::NotAllowed),
            LogLine::End => Ok(self.end_line()),
            LogLine::Function { function, arity } => {
                self.function_line(function.as_slice(), *arity)
            }
            LogLine::Variable { name } => self.variable_line(name.as_slice()),
            LogLine::Numeral { value } => self.numeral_line(*value),
            LogLine::Call {
                function,
                arguments,
            } => self.call_line(function.as_slice(), arguments.as_slice()),
            LogLine::Taut { .. } => self.judge_rule(line),
            LogLine::Axiom { name, row, part } => self.axiom_line(name.as_slice(), *row, *part),
            LogLine::Event { name } => self.event_line(name.as_slice()),
            LogLine::Weaken { .. } => self.judge_rule(line),
            LogLine::Cut { .. } => self.judge_rule(line),
            LogLine::Inst { .. } => self.judge_rule(line),
            LogLine::Refl { .. } => self.judge_rule(line),
            LogLine::Replace { .. } => self.judge_rule(line),
            LogLine::Join { .. } => self.judge_rule(line),
            LogLine::Split { .. } => self.judge_rule(line),
            LogLine::NotNot { .. } => self.judge_rule(line),
            LogLine::Value { .. } => self.judge_rule(line),
            LogLine::Linear { .. } => self.judge_rule(line),
            LogLine::Induct {
                goal,
                measure,
                ordinal,
                base,
            } => self.induct_line(*goal, *measure, *ordinal, *base),
            LogLine::Drop { line } => Ok(self.drop_line(*line)),
            LogLine::Case { test, line } => self.case_line(*test, *line),
            LogLine::Hyp { line, bindings } => self.hypothesis_line(*line, bindings.as_slice()),
            LogLine::BootStrap => self.bootstrap_line(),
            LogLine::Shell {
                constructor,
                base,
                recognizer,
            } => self.shell_line(
                constructor.as_slice(),
                base.as_slice(),
                recognizer.as_slice(),
            ),
            LogLine::Part {
                accessor,
                mode,
                default,
                recognizers,
            } => self.part_line(
                accessor.as_slice(),
                *mode,
                default.as_slice(),
                recognizers.as_slice(),
            ),
            LogLine::Dcl { function, arity } => {
                self.declaration_line(function.as_slice(), *arity)
            }
            LogLine::Axiomatize { name, term } => self.axiomatize_line(name.as_slice(), *term),
            LogLine::Lemma { name, term, line } => {
                self.lemma_line(name.as_slice(), *term, *line)
            }
            LogLine::Defn {
                function,
                body,
                formals,
            } => self.definition_line(function.as_slice(), *body, formals.as_slice()),
            LogLine::Measure {
                measure,
                ordinal,
                lines,
            } => self.measure_line(*measure, *ordinal, lines.as_slice()),
            LogLine::Toggle {
                name,
                old,
                disables,
            } => self.toggle_line(name.as_slice(), old.as_slice(), *disables),
            LogLine::Undo { name } => self.undo_line(name.as_slice()),
        }
    }

    /// Judges the line of a rule.
    fn judge_rule(&mut self, line: &LogLine) -> Result<Judged, AllocError>
        requires { IsWhole self.old }
        ensures { IfOk result (λ judged. Leads (state_of self.old) (continued (rule_line (state_of self.old) (rule_by (state_of self.old).block (view line.now)))) judged self.new) }
    {
        let rule = self.rule_of(line)?;
        self.rule_line(rule)
    }

    /// The rule of a line, where it is a rule's and its numbers have terms.
    fn rule_of(&self, line: &LogLine) -> Result<Option<Rule>, AllocError>
        requires { IsWhole self.now }
        ensures rule { IfOk result (λ rule. option_map (rule_at self.now.bank) rule ≡ rule_by (state_of self.now).block (view line.now)) }
        ensures stands { IfOk result (λ rule. IfSome rule (λ rule. RuleStands self.now.bank rule)) }
    {
        match line {
            LogLine::Taut { terms } => self.taut_rule(terms.as_slice()),
            LogLine::Weaken { line, terms } => self.weaken_rule(*line, terms.as_slice()),
            LogLine::Cut {
                first,
                second,
                term,
            } => Ok(self.cut_rule(*first, *second, *term)),
            LogLine::Inst { line, bindings } => self.instance_rule(*line, bindings.as_slice()),
            LogLine::Refl { term } => Ok(self.reflexive_rule(*term)),
            LogLine::Replace {
                line,
                literal,
                path,
                term,
                sign,
            } => self.replace_rule(*line, *literal, path.as_slice(), *term, *sign),
            LogLine::Join {
                first,
                second,
                test,
                left,
                right,
            } => Ok(self.join_rule(*first, *second, *test, *left, *right)),
            LogLine::Split {
                line,
                literal,
                side,
            } => Ok(self.split_rule(*line, *literal, *side)),
            LogLine::NotNot { line, literal } => Ok(self.not_not_rule(*line, *literal)),
            LogLine::Value { term } => Ok(self.value_rule(*term)),
            LogLine::Linear { multiples } => self.linear_rule(multiples.as_slice()),
            LogLine::Header { .. } => Ok(None),
            LogLine::End => Ok(None),
            LogLine::Function { .. } => Ok(None),
            LogLine::Variable { .. } => Ok(None),
            LogLine::Numeral { .. } => Ok(None),
            LogLine::Call { .. } => Ok(None),
            LogLine::Axiom { .. } => Ok(None),
            LogLine::Event { .. } => Ok(None),
            LogLine::Induct { .. } => Ok(None),
            LogLine::Drop { .. } => Ok(None),
            LogLine::Case { .. } => Ok(None),
            LogLine::Hyp { .. } => Ok(None),
            LogLine::BootStrap => Ok(None),
            LogLine::Shell { .. } => Ok(None),
            LogLine::Part { .. } => Ok(None),
            LogLine::Dcl { .. } => Ok(None),
            LogLine::Axiomatize { .. } => Ok(None),
            LogLine::Lemma { .. } => Ok(None),
            LogLine::Defn { .. } => Ok(None),
            LogLine::Measure { .. } => Ok(None),
            LogLine::Toggle { .. } => Ok(None),
            LogLine::Undo { .. } => Ok(None),
        }
    }
}
