// The lines that give the terms of a block, read after their first words.
ghost use Rattle.nq_logtext.specs.declared.word.Word.TheVariants as word;
ghost use Rattle.nq_logtext.specs.Views.{view};
ghost use Rattle.nq_logtext.specs.Reading.{Gives, line_at};

use crate::fields;
use crate::item::run;
use crate::line::LogLine;
use crate::parts::Parts;
use crate::stop::Stop;
use std::alloc::Global;

pub(crate) fn read_function(alloc: Global, words: &mut Parts<'_>) -> Result<LogLine, Stop>
    ensures { Gives view result (line_at word.Function words.old) }
{
    let function = fields::name(alloc, words)?;
    let arity = fields::number(words)?;
    fields::end(words)?;
    Ok(LogLine::Function { function, arity })
}

pub(crate) fn read_variable(alloc: Global, words: &mut Parts<'_>) -> Result<LogLine, Stop>
    ensures { Gives view result (line_at word.Variable words.old) }
{
    let name = fields::name(alloc, words)?;
    fields::end(words)?;
    Ok(LogLine::Variable { name })
}

pub(crate) fn read_numeral(words: &mut Parts<'_>) -> Result<LogLine, Stop>
    ensures { Gives view result (line_at word.Numeral words.old) }
{
    let value = fields::numeral(words)?;
    fields::end(words)?;
    Ok(LogLine::Numeral { value })
}

pub(crate) fn read_call(alloc: Global, words: &mut Parts<'_>) -> Result<LogLine, Stop>
    ensures { Gives view result (line_at word.Call words.old) }
{
    let function = fields::name(alloc, words)?;
    let arguments = run(alloc, words)?;
    Ok(LogLine::Call {
        function,
        arguments,
    })
}
