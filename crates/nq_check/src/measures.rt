//! The line of a measure, and whether the lines of a block show that the measure falls at each call of a function.
ghost use Rattle.std.specs.Prelude.{◌≡◌, ◌∷◌, [], ◌&&◌, All, IfOk, Some, false, length, true};
ghost use Rattle.std.specs.List.{flat_map};
ghost use Rattle.nq_logtext.specs.Fields.{number};
ghost use Rattle.nq_logtext.specs.Views.{one_number};
ghost use Rattle.nq_logic.specs.Admissible.{calls_of, mentions};
ghost use Rattle.nq_logic.specs.Names.{are_distinct};
ghost use Rattle.nq_logic.specs.Words.{call1};
ghost use Rattle.nq_bank.specs.Content.{IsNamed, Stands, term_at, text_at};
ghost use Rattle.nq_bank.specs.Shells.{texts_at};
ghost use Rattle.nq_proof.specs.Rules.{has_only};
ghost use Rattle.nq_calls.specs.Calls.{SiteStands, site_at, sites_at};
ghost use Rattle.nq_calls.specs.Falls.{obligation_at, uses_of};
ghost use Rattle.nq_calls.specs.Mentions.{IsApart};
ghost use Rattle.nq_log.specs.States.{clause_at, has_line, has_term_at, have_lines, term_at as term_of_block};
ghost use Rattle.nq_log.specs.Logs.{continued};
ghost use Rattle.nq_log.specs.ClosingLines.{are_falls, is_measure, measure_line};
ghost use Rattle.nq_check.specs.Contexts.{state_of, IsWhole};
ghost use Rattle.nq_check.specs.Judging.{Leads};
ghost use Rattle.nq_check.specs.Measures.{FindsMeasure, are_older, are_shown};

use crate::bodies::has_variables;
use crate::context::Context;
use crate::judged::Judged;
use crate::waiting::MeasureLine;
use nq_bank::{Sym, TermId};
use nq_calls::{
    Site, calls_within, is_in_used, is_obligation_line, mentions_at, smaller_mentions, uses_of,
};
use nq_rule::is_ordinal_line;
use std::alloc::AllocError;
use std::collections::HashMap;

impl Context {
    /// Has the block a line of each number, dropped or not?
    fn have_lines(&self, lines: &[u64]) -> bool
        ensures { result ≡ have_lines (state_of self.now).block lines.now }
    {
        for line in lines {
            if !self.has_line(*line) {
                return false;
            }
        }
        true
    }

    /// Do the numbers of a measure stand?
    fn stand_for(&self, measure: u64, ordinal: u64, lines: &[u64]) -> bool
        requires { IsWhole self.now }
        ensures { result ≡ (has_term_at (state_of self.now).block measure && has_line (state_of self.now).block ordinal && have_lines (state_of self.now).block lines.now) }
    {
        self.has_term(measure) && self.has_line(ordinal) && self.have_lines(lines)
    }

    /// `MEASURE`: it waits for its definition, which judges the rest.
    pub fn measure_line(
        &mut self,
        measure: u64,
        ordinal: u64,
        lines: &[u64],
    ) -> Result<Judged, AllocError>
        requires { IsWhole self.old }
        ensures { IfOk result (λ judged. Leads (state_of self.old) (continued (measure_line (state_of self.old) (number measure ∷ number ordinal ∷ flat_map one_number lines.now))) judged self.new) }
    {
        if !self.stand_for(measure, ordinal, lines) {
            return Ok(Judged::NotAllowed);
        }
        let falls = Vec::from_slice(self.bank.alloc(), lines)?;
        self.measure = Some(MeasureLine {
            measure,
            ordinal,
            falls,
        });
        Ok(Judged::Continues)
    }

    /// Has a line only that the measure is an ordinal?
    fn shows_ordinal(&self, line: u64, measure: TermId) -> bool
        requires whole { IsWhole self.now }
        requires measure { Stands self.now.bank measure }
        ensures { result ≡ has_only (clause_at (state_of self.now).block line) (call1 "ORDINALP" (term_at self.now.bank measure) ∷ []) }
    {
        if !self.log.stands(line) {
            return false;
        }
        is_ordinal_line(&self.bank, measure, self.log.clause_over(&self.bank, line))
    }

    /// Has a line only the obligation of a call?
    fn shows_fall(
        &self,
        formals: &[Sym],
        measure: TermId,
        site: &Site,
        line: u64,
    ) -> Result<bool, AllocError>
        requires whole { IsWhole self.now }
        requires formals { All (IsNamed self.now.bank) formals.now }
        requires measure { Stands self.now.bank measure }
        requires site { SiteStands self.now.bank site.now }
        ensures { IfOk result (λ b. b ≡ has_only (clause_at (state_of self.now).block line) (obligation_at (texts_at self.now.bank formals.now) (term_at self.now.bank measure) (site_at self.now.bank site.now))) }
    {
        if !self.log.stands(line) {
            return Ok(false);
        }
        let clause = self.log.clause_over(&self.bank, line);
        is_obligation_line(&self.bank, formals, measure, site, clause)
    }

    /// Has each call its line? They are as many.
    fn show_falls(
        &self,
        formals: &[Sym],
        measure: TermId,
        sites: &[Site],
        lines: &[u64],
    ) -> Result<bool, AllocError>
        requires whole { IsWhole self.now }
        requires formals { All (IsNamed self.now.bank) formals.now }
        requires measure { Stands self.now.bank measure }
        requires sites { All (SiteStands self.now.bank) sites.now }
        requires count { length sites.now ≡ length lines.now }
        ensures { IfOk result (λ b. b ≡ are_shown (state_of self.now).block (texts_at self.now.bank formals.now) (term_at self.now.bank measure) (sites_at self.now.bank sites.now) lines.now) }
    {
        for place in 0..sites.len() {
            if !self.shows_fall(formals, measure, &sites[place], lines[place])? {
                return Ok(false);
            }
        }
        Ok(true)
    }

    /// Does the function stand in no argument of a formal that the measure uses?
    fn are_older(
        &self,
        f: Sym,
        formals: &[Sym],
        measure: TermId,
        sites: &[Site],
    ) -> Result<bool, AllocError>
        requires function { IsNamed self.now.bank f }
        requires formals { All (IsNamed self.now.bank) formals.now }
        requires measure { Stands self.now.bank measure }
        requires sites { All (SiteStands self.now.bank) sites.now }
        ensures { IfOk result (λ b. b ≡ are_older (text_at self.now.bank f) (uses_of (texts_at self.now.bank formals.now) (term_at self.now.bank measure)) (sites_at self.now.bank sites.now)) }
    {
        let uses = uses_of(&self.bank, formals, measure)?;
        let mut known = HashMap::new(self.bank.alloc());
        for site in sites {
            let arguments = site.arguments.as_slice();
            if is_in_used(&self.bank, &mut known, f, uses.as_slice(), arguments)? {
                return Ok(false);
            }
        }
        Ok(true)
    }

    /// Do the lines show that the measure falls at each call of the function in the body?
    fn are_falls(
        &self,
        f: Sym,
        formals: &[Sym],
        body: TermId,
        measure: TermId,
        lines: &[u64],
    ) -> Result<bool, AllocError>
        requires whole { IsWhole self.now }
        requires function { IsNamed self.now.bank f }
        requires apart { IsApart (text_at self.now.bank f) }
        requires formals { All (IsNamed self.now.bank) formals.now }
        requires distinct { are_distinct (texts_at self.now.bank formals.now) ≡ true }
        requires body { Stands self.now.bank body }
        requires measure { Stands self.now.bank measure }
        requires older { mentions (text_at self.now.bank f) (term_at self.now.bank measure) ≡ false }
        ensures { IfOk result (λ b. b ≡ are_falls (state_of self.now).block (text_at self.now.bank f) (texts_at self.now.bank formals.now) (term_at self.now.bank measure) (calls_of (text_at self.now.bank f) (term_at self.now.bank body)) lines.now) }
    {
        smaller_mentions();
        let sites = calls_within(&self.bank, f, body)?;
        let calls = sites.as_slice();
        if calls.len() != lines.len() {
            return Ok(false);
        }
        if !self.are_older(f, formals, measure, calls)? {
            return Ok(false);
        }
        self.show_falls(formals, measure, calls, lines)
    }

    /// Do the lines that a measure line names show its measure?
    fn is_measure(
        &self,
        f: Sym,
        formals: &[Sym],
        body: TermId,
        measure: TermId,
        line: &MeasureLine,
    ) -> Result<bool, AllocError>
        requires whole { IsWhole self.now }
        requires function { IsNamed self.now.bank f }
        requires apart { IsApart (text_at self.now.bank f) }
        requires formals { All (IsNamed self.now.bank) formals.now }
        requires distinct { are_distinct (texts_at self.now.bank formals.now) ≡ true }
        requires body { Stands self.now.bank body }
        requires measure { Stands self.now.bank measure }
        ensures { IfOk result (λ b. b ≡ is_measure (state_of self.now).block (text_at self.now.bank f) (texts_at self.now.bank formals.now) (term_at self.now.bank body) line.now.falls.items line.now.ordinal (Some (term_at self.now.bank measure))) }
    {
        if !has_variables(&self.bank, formals, measure)? {
            return Ok(false);
        }
        if mentions_at(&self.bank, f, measure)? {
            return Ok(false);
        }
        if !self.shows_ordinal(line.ordinal, measure) {
            return Ok(false);
        }
        self.are_falls(f, formals, body, measure, line.falls.as_slice())
    }

    /// The measure of a definition, or none where its function does not stand in its body; neither where a measure is
    /// missing or not shown, or not wanted.
    pub fn measure_of(
        &self,
        f: Sym,
        formals: &[Sym],
        body: TermId,
    ) -> Result<Option<Option<TermId>>, AllocError>
        requires whole { IsWhole self.now }
        requires function { IsNamed self.now.bank f }
        requires apart { IsApart (text_at self.now.bank f) }
        requires formals { All (IsNamed self.now.bank) formals.now }
        requires distinct { are_distinct (texts_at self.now.bank formals.now) ≡ true }
        requires body { Stands self.now.bank body }
        ensures { IfOk result (λ found. FindsMeasure self.now (text_at self.now.bank f) (texts_at self.now.bank formals.now) (term_at self.now.bank body) found) }
    {
        let called = mentions_at(&self.bank, f, body)?;
        match &self.measure {
            None => Ok(if called { None } else { Some(None) }),
            Some(line) => {
                if !called {
                    return Ok(None);
                }
                let Some(measure) = self.term(line.measure) else {
                    return Ok(None);
                };
                if self.is_measure(f, formals, body, measure, line)? {
                    Ok(Some(Some(measure)))
                } else {
                    Ok(None)
                }
            }
        }
    }
}
