//! The lines of a shell.
ghost use Rattle.std.specs.Prelude.{◌≡◌, ℕ, List, OnOk, IfOk, All};
ghost use Rattle.nq_logic.specs.Terms.{Each};
ghost use Rattle.nq_bank.specs.Content.{IsNamed};
ghost use Rattle.nq_bank.specs.Shells.{texts_at, text_if, part_at, parts_at, PartStands, ShellStands, BaseStands, restriction_of};
ghost use Rattle.nq_log.specs.ClosingLines.{restriction_of as read_restriction};
ghost use Rattle.nq_block.specs.declared.closing.Closing.TheVariants as closing;
ghost use Rattle.nq_block.specs.Closings.{IsPartSpelled};
ghost use Rattle.nq_block.specs.Writing.{Frame, IsWriting, IsCounted, WritesClosing, base_text, with_part, with_parts};

use crate::writer::Writer;
use nq_bank::{Bank, Part, Shell, Sym};
use nq_logtext::{LogLine, Mode, Text};
use std::alloc::AllocError;

impl Writer {
    /// SHELL: the names of a shell. The lines of its parts stand before it.
    pub fn shell(&mut self, bank: &Bank, shell: &Shell) -> Result<(), AllocError>
        requires counted { IsCounted self.old }
        requires stands { ShellStands bank.now shell.now }
        ensures { WritesClosing bank.now self.old result self.new (closing.Shell shell.now) }
    {
        self.parts(bank, shell.parts.as_slice())?;
        let constructor = Text::of(bank.alloc(), bank.text(shell.constructor))?;
        let base = base_name(bank, shell.base)?;
        let recognizer = Text::of(bank.alloc(), bank.text(shell.recognizer))?;
        self.put(LogLine::Shell {
            constructor,
            base,
            recognizer,
        })
    }

    /// The parts of a shell.
    fn parts(&mut self, bank: &Bank, parts: &[Part]) -> Result<(), AllocError>
        requires counted { IsCounted self.old }
        requires stand { All (PartStands bank.now) parts.now }
        ensures counted { OnOk result (IsCounted self.new) }
        ensures writing { (frame : Frame) → IsWriting bank.now frame self.old → Each IsPartSpelled (parts_at bank.now parts.now) → OnOk result (IsWriting bank.now (with_parts frame (parts_at bank.now parts.now)) self.new) }
    {
        for part in parts {
            self.part(bank, part)?;
        }
        Ok(())
    }

    /// PART: the accessor, the restriction and the default of a part.
    fn part(&mut self, bank: &Bank, part: &Part) -> Result<(), AllocError>
        requires counted { IsCounted self.old }
        requires stands { PartStands bank.now part.now }
        ensures counted { OnOk result (IsCounted self.new) }
        ensures writing { (frame : Frame) → IsWriting bank.now frame self.old → IsPartSpelled (part_at bank.now part.now) → OnOk result (IsWriting bank.now (with_part frame (part_at bank.now part.now)) self.new) }
    {
        let accessor = Text::of(bank.alloc(), bank.text(part.accessor))?;
        let default = Text::of(bank.alloc(), bank.text(part.default))?;
        let recognizers = texts(bank, part.recognizers.as_slice())?;
        self.put(LogLine::Part {
            accessor,
            mode: mode_of(part.one_of),
            default,
            recognizers,
        })
    }
}

/// How a restriction is told.
fn mode_of(one_of: bool) -> Mode
    ensures { (rs : List (List ℕ)) → read_restriction result rs ≡ restriction_of one_of rs }
{
    if one_of { Mode::OneOf } else { Mode::NoneOf }
}

/// The name of a base, or NIL for none.
fn base_name(bank: &Bank, base: Option<Sym>) -> Result<Text, AllocError>
    requires { BaseStands bank.now base }
    ensures { IfOk result (λ text. text ≡ base_text (text_if bank.now base)) }
{
    match base {
        None => Text::of(bank.alloc(), b"NIL"),
        Some(s) => Text::of(bank.alloc(), bank.text(s)),
    }
}

/// The texts of names.
fn texts(bank: &Bank, names: &[Sym]) -> Result<Vec<Text>, AllocError>
    requires { All (IsNamed bank.now) names.now }
    ensures { IfOk result (λ texts. texts.items ≡ texts_at bank.now names.now) }
{
    let mut texts = Vec::new(bank.alloc());
    for s in names {
        texts.push(Text::of(bank.alloc(), bank.text(*s))?)?;
    }
    Ok(texts)
}
