//! Events that are added at the end of a block.
ghost use Rattle.std.specs.Prelude.{◌≡◌, ◌++◌, ◌∷◌, [], IfOk};
ghost use Rattle.nq_bank.specs.declared.node.Sym.{Sym};
ghost use Rattle.nq_bank.specs.Content.{text_at};
ghost use Rattle.nq_history.specs.Events.{event_at, EntryStands, KindStands};
ghost use Rattle.nq_history.specs.Marking.{IsMarked};
ghost use Rattle.nq_log.specs.States.{Adds, only_when};
ghost use Rattle.nq_log.specs.Logs.{claimed};
ghost use Rattle.nq_check.specs.Texts.{claim_text};
ghost use Rattle.nq_check.specs.Contexts.{state_of, IsWhole};
ghost use Rattle.nq_check.specs.Judging.{Leads};
ghost use Rattle.nq_check.specs.Claims.{event_named, has_place};

use crate::context::Context;
use crate::judged::Judged;
use nq_history::{Entry, EntryKind, PushFault};
use std::alloc::AllocError;

impl Context {
    /// Adds the event of an entry, where the history has a place for it, and begins a block. The text is its claim's line.
    pub fn add_entry(&mut self, entry: Entry, text: Vec<u8>) -> Result<Judged, AllocError>
        requires whole { IsWhole self.old }
        requires entry { EntryStands self.old.bank entry }
        requires mark { IsMarked self.old.bank self.old.history entry }
        requires text { text.items ≡ claim_text (Adds (event_at self.old.bank entry)) ++ (10 ∷ []) }
        ensures { IfOk result (λ judged. Leads (state_of self.old) (claimed (only_when (has_place (state_of self.old).history (text_at self.old.bank entry.name)) (Adds (event_at self.old.bank entry)))) judged self.new) }
    {
        match self.history.push(&self.bank, entry) {
            Ok(()) => {
                self.begin_block();
                Ok(Judged::Claims(text))
            }
            Err(PushFault::NameInUse) => Ok(Judged::NotAllowed),
            Err(PushFault::TooManyEvents) => Ok(Judged::NotAllowed),
            Err(PushFault::Memory) => Err(AllocError),
        }
    }

    /// Adds the event that a kind brings under a name. It is marked before the name, so that an undo gives it back.
    pub fn add_event(
        &mut self,
        name: &[u8],
        kind: EntryKind,
        text: Vec<u8>,
    ) -> Result<Judged, AllocError>
        requires whole { IsWhole self.old }
        requires kind { (s : Sym) → KindStands self.old.bank s kind }
        requires text { text.items ≡ claim_text (Adds (event_named self.old.bank name.now kind)) ++ (10 ∷ []) }
        ensures { IfOk result (λ judged. Leads (state_of self.old) (claimed (only_when (has_place (state_of self.old).history name.now) (Adds (event_named self.old.bank name.now kind)))) judged self.new) }
    {
        let mark = self.bank.mark();
        let s = self.bank.name(name)?;
        self.add_entry(
            Entry {
                name: s,
                kind,
                mark,
            },
            text,
        )
    }
}
