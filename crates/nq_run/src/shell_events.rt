// Shells that are added.
ghost use Rattle.std.specs.Prelude.{◌≡◌, IfOk, None, Some, true};
ghost use Rattle.std.specs.Option.{option_map};
ghost use Rattle.nq_logic.specs.Histories as logic;
ghost use Rattle.nq_bank.specs.Shells.{shell_at, ShellStands};
ghost use Rattle.nq_bank.specs.declared.shell.Shell.{Shell as ShellOfIds};
ghost use Rattle.nq_block.specs.declared.closing.Closing.TheVariants as closings;
ghost use Rattle.nq_history.specs.Events.{events_at};
ghost use Rattle.nq_log.specs.States.{Adds};
ghost use Rattle.nq_block.specs.Blocks.{IsBlock};
ghost use Rattle.nq_block.specs.Closings.{CanAdd};
ghost use Rattle.nq_block.specs.Names.{HasSymbols};
ghost use Rattle.nq_comment.specs.ReportViews.{answer_of};
ghost use Rattle.nq_events.specs.Events as model;
ghost use Rattle.nq_events.specs.OwnRefusals.{own_refusal};
ghost use Rattle.nq_sexp.specs.Tree.{tree};
ghost use Rattle.nq_run.specs.HistoryView.{history_of, SessionStands};
ghost use Rattle.nq_run.specs.Sessions.{IsMarkBefore, TakesEvent};
ghost use Rattle.nq_spelling.specs.SpelledEvents.{IsSpelledShell};
ghost use Rattle.nq_answers.specs.Steps.{refused};

use crate::answers::shell_refused;
use crate::proving::block_of;
use crate::session::{Given, Session, Taken};
use crate::shell_names::used_names;
use nq_bank::{Bank, Shell};
use nq_block::Closing;
use nq_comment::FormAnswer;
use nq_history::{Entry, EntryKind, History};
use nq_kernel::{Log, Prover};
use nq_logtext::Text;
use nq_shell::admit_shell;
use nq_spelling::events_are_spelled;
use std::alloc::{AllocError, Global};

/// The shell that a closing line tells.
fn told_shell(closing: Closing) -> Option<Shell>
    ensures { (shell : ShellOfIds) → closing ≡ closings.Shell shell → result ≡ Some shell }
{
    match closing {
        Closing::Shell(shell) => Some(shell),
        _other => None,
    }
}

/// The block of a shell, and the shell again.
fn block_of_shell(
    alloc: Global,
    logging: bool,
    bank: &Bank,
    history: &History,
    shell: Shell,
) -> Result<(Text, Shell), AllocError>
    requires names { HasSymbols (events_at bank.now history.now) }
    requires stands { ShellStands bank.now shell }
    requires can { CanAdd (events_at bank.now history.now) (shell_at bank.now shell) }
    ensures block { IfOk result (λ r. logging ≡ true → IsBlock (events_at bank.now history.now) (Adds (logic.AddShell (shell_at bank.now shell))) r.0) }
    ensures same { IfOk result (λ r. r.1 ≡ shell) }
{
    let log = Log::new(alloc);
    let closing = Closing::Shell(shell);
    let block = block_of(alloc, logging, bank, history, &log, &closing)?;
    match told_shell(closing) {
        Some(shell) => Ok((block, shell)),
        None => unreachable!(),
    }
}

impl Session {
    /// Why a shell isn't added: the Shell Principle refuses it, or there is no room.
    fn shell_answer(&self, alloc: Global, shell: &Shell) -> Result<Option<FormAnswer>, AllocError>
        requires stands { SessionStands self.now }
        requires shell { ShellStands self.now.bank shell.now }
        ensures { IfOk result (λ answer. option_map answer_of answer
            ≡ refused (own_refusal (history_of self.now) (model.AddShell (shell_at self.now.bank shell.now)))) }
    {
        let used = used_names(&self.bank, &self.history, shell)?;
        match admit_shell(&self.bank, self.history.shells(), used.as_slice(), shell) {
            Ok(()) => self.room_answer(alloc),
            Err(fault) => Ok(Some(shell_refused(alloc, &self.bank, fault)?)),
        }
    }

    /// The shell is added, unless something keeps it from that.
    pub(crate) fn add_shell<P: Prover>(
        self,
        alloc: Global,
        prover: &mut P,
        given: Given<'_, '_>,
        shell: Shell,
    ) -> Result<Taken, AllocError>
        requires stands { SessionStands self }
        requires learnt { P.has_learnt prover.old self.history }
        requires mark { IsMarkBefore self.bank self.history given.mark }
        requires shell { ShellStands self.bank shell }
        requires spelled { IsSpelledShell (shell_at self.bank shell) }
        ensures taken { IfOk result (TakesEvent given.entry.steps self given.entry.mark (tree given.entry.form.now) (model.AddShell (shell_at self.bank shell)) given.entry.logging) }
        ensures learnt { IfOk result (λ r. P.has_learnt prover.new r.session.history) }
    {
        match self.shell_answer(alloc, &shell)? {
            Some(answer) => Ok(self.untaken(alloc, given.mark, answer)),
            None => self.with_shell(alloc, prover, given, shell),
        }
    }

    /// The session with a shell that nothing refuses.
    fn with_shell<P: Prover>(
        self,
        alloc: Global,
        prover: &mut P,
        given: Given<'_, '_>,
        shell: Shell,
    ) -> Result<Taken, AllocError>
        requires stands { SessionStands self }
        requires learnt { P.has_learnt prover.old self.history }
        requires mark { IsMarkBefore self.bank self.history given.mark }
        requires shell { ShellStands self.bank shell }
        requires spelled { IsSpelledShell (shell_at self.bank shell) }
        requires lawful { own_refusal (history_of self) (model.AddShell (shell_at self.bank shell)) ≡ None }
        ensures taken { IfOk result (TakesEvent given.entry.steps self given.entry.mark (tree given.entry.form.now) (model.AddShell (shell_at self.bank shell)) given.entry.logging) }
        ensures learnt { IfOk result (λ r. P.has_learnt prover.new r.session.history) }
    {
        events_are_spelled();
        let (block, shell) = block_of_shell(
            alloc,
            given.logging,
            &self.bank,
            &self.history,
            shell,
        )?;
        let entry = Entry {
            name: shell.constructor,
            kind: EntryKind::Shell(shell),
            mark: given.mark,
        };
        self.accepted(prover, entry, block)
    }
}
