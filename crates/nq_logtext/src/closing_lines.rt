// The lines that end a block or stand around the blocks, read after their first words, and those that only such a line uses.
ghost use Rattle.nq_logtext.specs.declared.word.Word.TheVariants as word;
ghost use Rattle.nq_logtext.specs.Views.{view};
ghost use Rattle.nq_logtext.specs.Reading.{Gives, line_at};

use crate::fields;
use crate::item::run;
use crate::line::LogLine;
use crate::parts::Parts;
use crate::stop::Stop;
use std::alloc::Global;

pub(crate) fn read_header(words: &mut Parts<'_>) -> Result<LogLine, Stop>
    ensures { Gives view result (line_at word.Header words.old) }
{
    let version = fields::version(words)?;
    fields::end(words)?;
    Ok(LogLine::Header { version })
}

pub(crate) fn read_end(words: &mut Parts<'_>) -> Result<LogLine, Stop>
    ensures { Gives view result (line_at word.End words.old) }
{
    fields::end(words)?;
    Ok(LogLine::End)
}

pub(crate) fn read_boot_strap(words: &mut Parts<'_>) -> Result<LogLine, Stop>
    ensures { Gives view result (line_at word.BootStrap words.old) }
{
    fields::end(words)?;
    Ok(LogLine::BootStrap)
}

pub(crate) fn read_shell(alloc: Global, words: &mut Parts<'_>) -> Result<LogLine, Stop>
    ensures { Gives view result (line_at word.Shell words.old) }
{
    let constructor = fields::name(alloc, words)?;
    let base = fields::name(alloc, words)?;
    let recognizer = fields::name(alloc, words)?;
    fields::end(words)?;
    Ok(LogLine::Shell {
        constructor,
        base,
        recognizer,
    })
}

pub(crate) fn read_part(alloc: Global, words: &mut Parts<'_>) -> Result<LogLine, Stop>
    ensures { Gives view result (line_at word.Part words.old) }
{
    let accessor = fields::name(alloc, words)?;
    let mode = fields::mode(words)?;
    let default = fields::name(alloc, words)?;
    let recognizers = run(alloc, words)?;
    Ok(LogLine::Part {
        accessor,
        mode,
        default,
        recognizers,
    })
}

pub(crate) fn read_dcl(alloc: Global, words: &mut Parts<'_>) -> Result<LogLine, Stop>
    ensures { Gives view result (line_at word.Dcl words.old) }
{
    let function = fields::name(alloc, words)?;
    let arity = fields::number(words)?;
    fields::end(words)?;
    Ok(LogLine::Dcl { function, arity })
}

pub(crate) fn read_axiomatize(alloc: Global, words: &mut Parts<'_>) -> Result<LogLine, Stop>
    ensures { Gives view result (line_at word.Axiomatize words.old) }
{
    let name = fields::name(alloc, words)?;
    let term = fields::number(words)?;
    fields::end(words)?;
    Ok(LogLine::Axiomatize { name, term })
}

pub(crate) fn read_lemma(alloc: Global, words: &mut Parts<'_>) -> Result<LogLine, Stop>
    ensures { Gives view result (line_at word.Lemma words.old) }
{
    let name = fields::name(alloc, words)?;
    let term = fields::number(words)?;
    let line = fields::number(words)?;
    fields::end(words)?;
    Ok(LogLine::Lemma { name, term, line })
}

pub(crate) fn read_defn(alloc: Global, words: &mut Parts<'_>) -> Result<LogLine, Stop>
    ensures { Gives view result (line_at word.Defn words.old) }
{
    let function = fields::name(alloc, words)?;
    let body = fields::number(words)?;
    let formals = run(alloc, words)?;
    Ok(LogLine::Defn {
        function,
        body,
        formals,
    })
}

pub(crate) fn read_measure(alloc: Global, words: &mut Parts<'_>) -> Result<LogLine, Stop>
    ensures { Gives view result (line_at word.Measure words.old) }
{
    let measure = fields::number(words)?;
    let ordinal = fields::number(words)?;
    let lines = run(alloc, words)?;
    Ok(LogLine::Measure {
        measure,
        ordinal,
        lines,
    })
}

pub(crate) fn read_toggle(alloc: Global, words: &mut Parts<'_>) -> Result<LogLine, Stop>
    ensures { Gives view result (line_at word.Toggle words.old) }
{
    let name = fields::name(alloc, words)?;
    let old = fields::name(alloc, words)?;
    let disables = fields::number(words)?;
    fields::end(words)?;
    Ok(LogLine::Toggle {
        name,
        old,
        disables,
    })
}

pub(crate) fn read_undo(alloc: Global, words: &mut Parts<'_>) -> Result<LogLine, Stop>
    ensures { Gives view result (line_at word.Undo words.old) }
{
    let name = fields::name(alloc, words)?;
    fields::end(words)?;
    Ok(LogLine::Undo { name })
}
