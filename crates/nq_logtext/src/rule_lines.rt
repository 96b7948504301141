// The lines that give the clauses of a block, read after their first words, and those that only such a line uses.
ghost use Rattle.nq_logtext.specs.declared.word.Word.TheVariants as word;
ghost use Rattle.nq_logtext.specs.Views.{view};
ghost use Rattle.nq_logtext.specs.Reading.{Gives, line_at};

use crate::fields;
use crate::item::run;
use crate::line::LogLine;
use crate::parts::Parts;
use crate::stop::Stop;
use std::alloc::Global;

pub(crate) fn read_taut(alloc: Global, words: &mut Parts<'_>) -> Result<LogLine, Stop>
    ensures { Gives view result (line_at word.Taut words.old) }
{
    let terms = run(alloc, words)?;
    Ok(LogLine::Taut { terms })
}

pub(crate) fn read_axiom(alloc: Global, words: &mut Parts<'_>) -> Result<LogLine, Stop>
    ensures { Gives view result (line_at word.Axiom words.old) }
{
    let name = fields::name(alloc, words)?;
    let row = fields::number(words)?;
    let part = fields::number(words)?;
    fields::end(words)?;
    Ok(LogLine::Axiom { name, row, part })
}

pub(crate) fn read_event(alloc: Global, words: &mut Parts<'_>) -> Result<LogLine, Stop>
    ensures { Gives view result (line_at word.Event words.old) }
{
    let name = fields::name(alloc, words)?;
    fields::end(words)?;
    Ok(LogLine::Event { name })
}

pub(crate) fn read_weaken(alloc: Global, words: &mut Parts<'_>) -> Result<LogLine, Stop>
    ensures { Gives view result (line_at word.Weaken words.old) }
{
    let line = fields::number(words)?;
    let terms = run(alloc, words)?;
    Ok(LogLine::Weaken { line, terms })
}

pub(crate) fn read_cut(words: &mut Parts<'_>) -> Result<LogLine, Stop>
    ensures { Gives view result (line_at word.Cut words.old) }
{
    let first = fields::number(words)?;
    let second = fields::number(words)?;
    let term = fields::number(words)?;
    fields::end(words)?;
    Ok(LogLine::Cut {
        first,
        second,
        term,
    })
}

pub(crate) fn read_inst(alloc: Global, words: &mut Parts<'_>) -> Result<LogLine, Stop>
    ensures { Gives view result (line_at word.Inst words.old) }
{
    let line = fields::number(words)?;
    let bindings = run(alloc, words)?;
    Ok(LogLine::Inst { line, bindings })
}

pub(crate) fn read_refl(words: &mut Parts<'_>) -> Result<LogLine, Stop>
    ensures { Gives view result (line_at word.Refl words.old) }
{
    let term = fields::number(words)?;
    fields::end(words)?;
    Ok(LogLine::Refl { term })
}

pub(crate) fn read_replace(alloc: Global, words: &mut Parts<'_>) -> Result<LogLine, Stop>
    ensures { Gives view result (line_at word.Replace words.old) }
{
    let line = fields::number(words)?;
    let literal = fields::number(words)?;
    let path = fields::path(alloc, words)?;
    let term = fields::number(words)?;
    let sign = fields::sign(words)?;
    fields::end(words)?;
    Ok(LogLine::Replace {
        line,
        literal,
        path,
        term,
        sign,
    })
}

pub(crate) fn read_join(words: &mut Parts<'_>) -> Result<LogLine, Stop>
    ensures { Gives view result (line_at word.Join words.old) }
{
    let first = fields::number(words)?;
    let second = fields::number(words)?;
    let test = fields::number(words)?;
    let left = fields::number(words)?;
    let right = fields::number(words)?;
    fields::end(words)?;
    Ok(LogLine::Join {
        first,
        second,
        test,
        left,
        right,
    })
}

pub(crate) fn read_split(words: &mut Parts<'_>) -> Result<LogLine, Stop>
    ensures { Gives view result (line_at word.Split words.old) }
{
    let line = fields::number(words)?;
    let literal = fields::number(words)?;
    let side = fields::number(words)?;
    fields::end(words)?;
    Ok(LogLine::Split {
        line,
        literal,
        side,
    })
}

pub(crate) fn read_not_not(words: &mut Parts<'_>) -> Result<LogLine, Stop>
    ensures { Gives view result (line_at word.NotNot words.old) }
{
    let line = fields::number(words)?;
    let literal = fields::number(words)?;
    fields::end(words)?;
    Ok(LogLine::NotNot { line, literal })
}

pub(crate) fn read_value(words: &mut Parts<'_>) -> Result<LogLine, Stop>
    ensures { Gives view result (line_at word.Value words.old) }
{
    let term = fields::number(words)?;
    fields::end(words)?;
    Ok(LogLine::Value { term })
}

pub(crate) fn read_linear(alloc: Global, words: &mut Parts<'_>) -> Result<LogLine, Stop>
    ensures { Gives view result (line_at word.Linear words.old) }
{
    let multiples = run(alloc, words)?;
    Ok(LogLine::Linear { multiples })
}

pub(crate) fn read_induct(words: &mut Parts<'_>) -> Result<LogLine, Stop>
    ensures { Gives view result (line_at word.Induct words.old) }
{
    let goal = fields::number(words)?;
    let measure = fields::number(words)?;
    let ordinal = fields::number(words)?;
    let base = fields::number(words)?;
    fields::end(words)?;
    Ok(LogLine::Induct {
        goal,
        measure,
        ordinal,
        base,
    })
}

pub(crate) fn read_drop(words: &mut Parts<'_>) -> Result<LogLine, Stop>
    ensures { Gives view result (line_at word.Drop words.old) }
{
    let line = fields::number(words)?;
    fields::end(words)?;
    Ok(LogLine::Drop { line })
}

pub(crate) fn read_case(words: &mut Parts<'_>) -> Result<LogLine, Stop>
    ensures { Gives view result (line_at word.Case words.old) }
{
    let test = fields::number(words)?;
    let line = fields::number(words)?;
    fields::end(words)?;
    Ok(LogLine::Case { test, line })
}

pub(crate) fn read_hyp(alloc: Global, words: &mut Parts<'_>) -> Result<LogLine, Stop>
    ensures { Gives view result (line_at word.Hyp words.old) }
{
    let line = fields::number(words)?;
    let bindings = run(alloc, words)?;
    Ok(LogLine::Hyp { line, bindings })
}
