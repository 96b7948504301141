// A line, written.
ghost use Rattle.std.specs.Prelude.{◌≡◌, ◌++◌, ◌∷◌, [], List, OnOk, OnErr, decimal};
ghost use Rattle.std.specs.List.{flat_map};
ghost use Rattle.nq_logtext.specs.Fields as fields;
ghost use Rattle.nq_logtext.specs.Fields.{text, path_text};
ghost use Rattle.nq_logtext.specs.Lines.{spelled, spelling};
ghost use Rattle.nq_logtext.specs.Views.{view};

use crate::item::Item;
use crate::line::{LogLine, Mode, Sign, Version};
use crate::text::Text;
use crate::word::Word;
use itoa::Buffer;
use std::alloc::AllocError;

fn put_numeral(out: &mut Text, number: u128) -> Result<(), AllocError>
    ensures { OnOk result (out.new ≡ out.old ++ 32 ∷ decimal number) }
{
    let mut buffer = Buffer::new();
    out.extend_from_slice(b" ")?;
    out.extend_from_slice(buffer.format(number).as_bytes())
}

pub(crate) fn put_number(out: &mut Text, number: u64) -> Result<(), AllocError>
    ensures { OnOk result (out.new ≡ out.old ++ 32 ∷ decimal number) }
{
    put_numeral(out, u128::from(number))
}

pub(crate) fn put_name(out: &mut Text, name: &Text) -> Result<(), AllocError>
    ensures { OnOk result (out.new ≡ out.old ++ 32 ∷ name.now) }
{
    out.extend_from_slice(b" ")?;
    out.extend_from_slice(name.as_slice())
}

pub(crate) fn put_sign(out: &mut Text, sign: Sign) -> Result<(), AllocError>
    ensures { OnOk result (out.new ≡ out.old ++ 32 ∷ text (fields.sign sign)) }
{
    match sign {
        Sign::Plus => out.extend_from_slice(b" +"),
        Sign::Minus => out.extend_from_slice(b" -"),
    }
}

fn put_mode(out: &mut Text, mode: Mode) -> Result<(), AllocError>
    ensures { OnOk result (out.new ≡ out.old ++ 32 ∷ text (fields.mode mode)) }
{
    match mode {
        Mode::OneOf => out.extend_from_slice(b" ONE-OF"),
        Mode::NoneOf => out.extend_from_slice(b" NONE-OF"),
    }
}

fn put_version(out: &mut Text, version: Version) -> Result<(), AllocError>
    ensures { OnOk result (out.new ≡ out.old ++ 32 ∷ text (fields.version version)) }
{
    match version {
        Version::First => out.extend_from_slice(b" 1"),
    }
}

/// Places, each after a dot.
fn put_places(out: &mut Text, places: &[u64]) -> Result<(), AllocError>
    ensures { OnOk result (out.new ≡ out.old ++ flat_map (λ p. 46 ∷ decimal p) places.now) }
{
    for place in places {
        let mut buffer = Buffer::new();
        out.extend_from_slice(b".")?;
        out.extend_from_slice(buffer.format(*place).as_bytes())?;
    }
    Ok(())
}

fn put_path(out: &mut Text, places: &[u64]) -> Result<(), AllocError>
    ensures { OnOk result (out.new ≡ out.old ++ 32 ∷ path_text places.now) }
{
    match places {
        [] => out.extend_from_slice(b" 0"),
        [first, rest @ ..] => {
            put_number(out, *first)?;
            put_places(out, rest)
        }
    }
}

fn put_run<I: Item>(out: &mut Text, items: &[I]) -> Result<(), AllocError>
    ensures { OnOk result (out.new ≡ out.old ++ spelled (flat_map I.fields items.now)) }
{
    for item in items {
        item.write(out)?;
    }
    Ok(())
}

impl LogLine {
    /// The first word of the line.
    pub fn word(&self) -> Word
        ensures { result ≡ (view self.now).word }
    {
        match self {
            LogLine::Header { .. } => Word::Header,
            LogLine::End => Word::End,
            LogLine::Function { .. } => Word::Function,
            LogLine::Variable { .. } => Word::Variable,
            LogLine::Numeral { .. } => Word::Numeral,
            LogLine::Call { .. } => Word::Call,
            LogLine::Taut { .. } => Word::Taut,
            LogLine::Axiom { .. } => Word::Axiom,
            LogLine::Event { .. } => Word::Event,
            LogLine::Weaken { .. } => Word::Weaken,
            LogLine::Cut { .. } => Word::Cut,
            LogLine::Inst { .. } => Word::Inst,
            LogLine::Refl { .. } => Word::Refl,
            LogLine::Replace { .. } => Word::Replace,
            LogLine::Join { .. } => Word::Join,
            LogLine::Split { .. } => Word::Split,
            LogLine::NotNot { .. } => Word::NotNot,
            LogLine::Value { .. } => Word::Value,
            LogLine::Linear { .. } => Word::Linear,
            LogLine::Induct { .. } => Word::Induct,
            LogLine::Drop { .. } => Word::Drop,
            LogLine::Case { .. } => Word::Case,
            LogLine::Hyp { .. } => Word::Hyp,
            LogLine::BootStrap => Word::BootStrap,
            LogLine::Shell { .. } => Word::Shell,
            LogLine::Part { .. } => Word::Part,
            LogLine::Dcl { .. } => Word::Dcl,
            LogLine::Axiomatize { .. } => Word::Axiomatize,
            LogLine::Lemma { .. } => Word::Lemma,
            LogLine::Defn { .. } => Word::Defn,
            LogLine::Measure { .. } => Word::Measure,
            LogLine::Toggle { .. } => Word::Toggle,
            LogLine::Undo { .. } => Word::Undo,
        }
    }
}

/// What stands after the first word.
fn put_fields(out: &mut Text, line: &LogLine) -> Result<(), AllocError>
    ensures { OnOk result (out.new ≡ out.old ++ spelled (view line.now).fields) }
{
    match line {
        LogLine::Header { version } => put_version(out, *version),
        LogLine::End => Ok(()),
        LogLine::Function { function, arity } => {
            put_name(out, function)?;
            put_number(out, *arity)
        }
        LogLine::Variable { name } => put_name(out, name),
        LogLine::Numeral { value } => put_numeral(out, *value),
        LogLine::Call {
            function,
            arguments,
        } => {
            put_name(out, function)?;
            put_run(out, arguments)
        }
        LogLine::Taut { terms } => put_run(out, terms),
        LogLine::Axiom { name, row, part } => {
            put_name(out, name)?;
            put_run(out, &[*row, *part])
        }
        LogLine::Event { name } => put_name(out, name),
        LogLine::Weaken { line, terms } => {
            put_number(out, *line)?;
            put_run(out, terms)
        }
        LogLine::Cut {
            first,
            second,
            term,
        } => put_run(out, &[*first, *second, *term]),
        LogLine::Inst { line, bindings } => {
            put_number(out, *line)?;
            put_run(out, bindings)
        }
        LogLine::Refl { term } => put_number(out, *term),
        LogLine::Replace {
            line,
            literal,
            path,
            term,
            sign,
        } => {
            put_run(out, &[*line, *literal])?;
            put_path(out, path)?;
            put_number(out, *term)?;
            put_sign(out, *sign)
        }
        LogLine::Join {
            first,
            second,
            test,
            left,
            right,
        } => put_run(out, &[*first, *second, *test, *left, *right]),
        LogLine::Split {
            line,
            literal,
            side,
        } => put_run(out, &[*line, *literal, *side]),
        LogLine::NotNot { line, literal } => put_run(out, &[*line, *literal]),
        LogLine::Value { term } => put_number(out, *term),
        LogLine::Linear { multiples } => put_run(out, multiples),
        LogLine::Induct {
            goal,
            measure,
            ordinal,
            base,
        } => put_run(out, &[*goal, *measure, *ordinal, *base]),
        LogLine::Drop { line } => put_number(out, *line),
        LogLine::Case { test, line } => put_run(out, &[*test, *line]),
        LogLine::Hyp { line, bindings } => {
            put_number(out, *line)?;
            put_run(out, bindings)
        }
        LogLine::BootStrap => Ok(()),
        LogLine::Shell {
            constructor,
            base,
            recognizer,
        } => {
            put_name(out, constructor)?;
            put_name(out, base)?;
            put_name(out, recognizer)
        }
        LogLine::Part {
            accessor,
            mode,
            default,
            recognizers,
        } => {
            put_name(out, accessor)?;
            put_mode(out, *mode)?;
            put_name(out, default)?;
            put_run(out, recognizers)
        }
        LogLine::Dcl { function, arity } => {
            put_name(out, function)?;
            put_number(out, *arity)
        }
        LogLine::Axiomatize { name, term } => {
            put_name(out, name)?;
            put_number(out, *term)
        }
        LogLine::Lemma { name, term, line } => {
            put_name(out, name)?;
            put_run(out, &[*term, *line])
        }
        LogLine::Defn {
            function,
            body,
            formals,
        } => {
            put_name(out, function)?;
            put_number(out, *body)?;
            put_run(out, formals)
        }
        LogLine::Measure {
            measure,
            ordinal,
            lines,
        } => {
            put_run(out, &[*measure, *ordinal])?;
            put_run(out, lines)
        }
        LogLine::Toggle {
            name,
            old,
            disables,
        } => {
            put_name(out, name)?;
            put_name(out, old)?;
            put_number(out, *disables)
        }
        LogLine::Undo { name } => put_name(out, name),
    }
}

/// What stands on a line: its first word, and its fields.
fn put_line(out: &mut Text, line: &LogLine) -> Result<(), AllocError>
    ensures { OnOk result (out.new ≡ out.old ++ spelling (view line.now)) }
{
    out.extend_from_slice(line.word().text())?;
    put_fields(out, line)
}

/// Adds the text of the line at the end, without an end of line.
///
/// A line that `parse_line` gave is written as it was read. Any other line is written so that `parse_line` reads it
/// again, where its names are symbols in upper case and its paths hold no 0.
pub fn write_line(line: &LogLine, out: &mut Text) -> Result<(), AllocError>
    ensures ok { OnOk result (out.new ≡ out.old ++ spelling (view line.now)) }
    ensures err { OnErr result (out.new ≡ out.old) }
{
    let mut text = Text::new(out.alloc());
    put_line(&mut text, line)?;
    out.extend_from_slice(text.as_slice())
}
