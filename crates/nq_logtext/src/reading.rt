// A line, read by its first word.
ghost use Rattle.std.specs.Prelude.{◌≡◌, [], ◌∷◌, List, option_map, IfOk, IfSome, IfNone, Some, None};
ghost use Rattle.nq_logtext.specs.declared.word.Word.TheVariants as word;
ghost use Rattle.nq_logtext.specs.Lines.{Line, IsSpellable, spelling};
ghost use Rattle.nq_logtext.specs.Views.{view};
ghost use Rattle.nq_logtext.specs.Reading.{Gives, line_at, line_of, line_of_words};

use crate::closing_lines::{
    read_axiomatize, read_boot_strap, read_dcl, read_defn, read_end, read_header, read_lemma,
    read_measure, read_part, read_shell, read_toggle, read_undo,
};
use crate::line::LogLine;
use crate::parts::Parts;
use crate::rule_lines::{
    read_axiom, read_case, read_cut, read_drop, read_event, read_hyp, read_induct, read_inst,
    read_join, read_linear, read_not_not, read_refl, read_replace, read_split, read_taut,
    read_value, read_weaken,
};
use crate::stop::Stop;
use crate::term_lines::{read_call, read_function, read_numeral, read_variable};
use crate::word::Word;
use std::alloc::{AllocError, Global};

/// What stands after a first word.
fn after_word(alloc: Global, word: Word, words: &mut Parts<'_>) -> Result<LogLine, Stop>
    ensures { Gives view result (line_at word words.old) }
{
    match word {
        Word::Header => read_header(words),
        Word::End => read_end(words),
        Word::Function => read_function(alloc, words),
        Word::Variable => read_variable(alloc, words),
        Word::Numeral => read_numeral(words),
        Word::Call => read_call(alloc, words),
        Word::Taut => read_taut(alloc, words),
        Word::Axiom => read_axiom(alloc, words),
        Word::Event => read_event(alloc, words),
        Word::Weaken => read_weaken(alloc, words),
        Word::Cut => read_cut(words),
        Word::Inst => read_inst(alloc, words),
        Word::Refl => read_refl(words),
        Word::Replace => read_replace(alloc, words),
        Word::Join => read_join(words),
        Word::Split => read_split(words),
        Word::NotNot => read_not_not(words),
        Word::Value => read_value(words),
        Word::Linear => read_linear(alloc, words),
        Word::Induct => read_induct(words),
        Word::Drop => read_drop(words),
        Word::Case => read_case(words),
        Word::Hyp => read_hyp(alloc, words),
        Word::BootStrap => read_boot_strap(words),
        Word::Shell => read_shell(alloc, words),
        Word::Part => read_part(alloc, words),
        Word::Dcl => read_dcl(alloc, words),
        Word::Axiomatize => read_axiomatize(alloc, words),
        Word::Lemma => read_lemma(alloc, words),
        Word::Defn => read_defn(alloc, words),
        Word::Measure => read_measure(alloc, words),
        Word::Toggle => read_toggle(alloc, words),
        Word::Undo => read_undo(alloc, words),
    }
}

#[tactic(auto, unfolding(crate::specs::Reading::line_of_words))]
fn line_of(alloc: Global, text: &[u8]) -> Result<LogLine, Stop>
    ensures { Gives view result (line_of text.now) }
{
    let mut words = Parts::of(b' ', text);
    let Some(first) = words.next() else {
        return Err(Stop::Malformed);
    };
    let Some(word) = Word::named(first) else {
        return Err(Stop::Malformed);
    };
    after_word(alloc, word, &mut words)
}

/// The line that the text spells. None where it spells no line. The text has no end of line.
pub fn parse_line(alloc: Global, text: &[u8]) -> Result<Option<LogLine>, AllocError>
    // What is read is spelled so.
    ensures found { IfOk result (λ o. IfSome o (λ line. IsSpellable (view line) × (text.now ≡ spelling (view line)))) }
    // What is spelled so is read.
    ensures only { IfOk result (λ o. (line : Line) → IsSpellable line → text.now ≡ spelling line → option_map view o ≡ Some line) }
    // Nothing is read only where no line is spelled so.
    ensures none { IfOk result (λ o. IfNone o ((line : Line) → IsSpellable line → text.now ≡ spelling line → ⊥)) }
{
    match line_of(alloc, text) {
        Ok(line) => Ok(Some(line)),
        Err(Stop::Malformed) => Ok(None),
        Err(Stop::Memory) => Err(AllocError),
    }
}

/// No text spells two lines.
pub fn one_spelling()
    ensures { (a b : Line) → IsSpellable a → IsSpellable b → spelling a ≡ spelling b → a ≡ b }
{}
