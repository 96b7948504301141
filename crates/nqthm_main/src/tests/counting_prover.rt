// The run over a prover of another kind: one that counts what it has learnt, and gives up past the first pass.
ghost use Rattle.std.specs.Prelude.{◌≡◌, length};
ghost use Rattle.nq_kernel.specs.Proving.{HasGround};

use super::joined;
use super::shells::STACKS;
use nq_bank::{Bank, Mark, TermId};
use nq_history::{GROUND_LENGTH, Hints, History};
use nq_io::{MemSink, MemSource, SureSink};
use nq_kernel::{Cause, Prover, Verdict, Work};
use nq_quick::FirstPass;
use nq_run::run_events;
use std::alloc::{AllocError, Global};
use std::test::Fail;

/// A shell without a base, each part of which has a restriction with a base for its default.
const PAIRS: &[u8] =
    b"(ADD-SHELL PAIR NIL PAIRP ((FIRST (ONE-OF STACKP NUMBERP) EMPTY-STACK) (SECOND (NONE-OF LISTP) ZERO)))\n";

const FLAGS: &[u8] =
    b"(ADD-SHELL FLAG NIL FLAGP ((UP (ONE-OF FALSEP TRUEP FLAGP) TRUE) (DOWN (NONE-OF NUMBERP TRUEP LISTP) FALSE)))\n";

/// How many entries were learnt, how many lemmas were tried, and where the bank ended when the last entry was learnt.
#[derive(Drop)]
struct CountingProver {
    learnt: u64,
    tried: u64,
    end: Mark,
}

impl CountingProver {
    /// It has learnt the ground history.
    fn new() -> Self
        ensures { HasGround (λ entries. result.learnt ≡ length entries) }
    {
        CountingProver {
            learnt: GROUND_LENGTH as u64,
            tried: 0,
            end: Mark { nodes: 0, names: 0 },
        }
    }
}

impl Prover for CountingProver {
    // It knows of the entries only how many they are.
    ghost has_learnt = { λ prover entries. prover.learnt ≡ length entries };

    fn learn(&mut self, bank: &Bank, history: &History) -> Result<(), AllocError> {
        self.learnt = history.len();
        self.end = bank.mark();
        Ok(())
    }

    fn forget(&mut self, kept: u64) {
        self.learnt = self.learnt.min(kept);
    }

    fn prove(
        &mut self,
        work: &mut Work,
        history: &History,
        goal: TermId,
        hints: &Hints,
    ) -> Result<Verdict, AllocError> {
        self.tried = self.tried.saturating_add(1);
        match FirstPass::new().prove(work, history, goal, hints)? {
            Verdict::NotYet(path) => Ok(Verdict::Failed(path, Cause::NoInduction)),
            verdict => Ok(verdict),
        }
    }
}

/// A prover after the run of some forms under a step limit, and whether the run came to their end.
fn after_forms(
    alloc: Global,
    forms: &[u8],
    limit: u64,
) -> Result<(CountingProver, bool), AllocError> {
    let mut source = MemSource::new(forms.to_vec(alloc)?, 64, Vec::new(alloc));
    let mut comment = MemSink::new(alloc, Vec::new(alloc));
    let mut log = SureSink::new(alloc);
    let mut prover = CountingProver::new();
    let ended = run_events(
        alloc,
        &mut source,
        &mut comment,
        &mut log,
        false,
        &mut prover,
        limit,
    );
    Ok((prover, ended.is_ok()))
}

#[test]
fn a_prover_learns_just_the_entries_that_stand(rt: HostRuntime) -> Result<(), Fail> {
    for (forms, past_ground, tried) in [
        (b"".as_slice(), 0, 0),
        (b"(DCL E (X)) (DCL E (X)) (ADD-AXIOM A NIL (E X))", 2, 0),
        // a lemma is learnt where it is proved
        (b"(PROVE-LEMMA L NIL (IMPLIES P P))", 1, 1),
        (b"(PROVE-LEMMA L NIL (IMPLIES P Q))", 0, 1),
        (b"(PROVE-LEMMA L (REWRITE) (IMPLIES P P))", 0, 0),
        (b"(SETQ A NIL) (DISABLE PLUS) (DEFN D (X) X)", 2, 0),
        // an undo is followed by the prover
        (
            b"(DCL E (X)) (DCL G (X)) (DCL H (X)) (UNDO-BACK-THROUGH G)",
            1,
            0,
        ),
        (
            b"(DCL E (X)) (UNDO-BACK-THROUGH PLUS) (UNDO-BACK-THROUGH X)",
            1,
            0,
        ),
        (b"(DCL E (X)) (DCL G (X)) (BOOT-STRAP)", 0, 0),
        (
            b"(ADD-SHELL BOX NIL BOXP ((UNBOX (NONE-OF) ZERO))) (ADD-SHELL BOX NIL BOXP NIL)",
            1,
            0,
        ),
    ] {
        let (prover, ended) = after_forms(rt.alloc(), forms, 1000)?;
        assert!(rt; ended);
        assert_eq!(rt; prover.learnt, GROUND_LENGTH as u64 + past_ground);
        assert_eq!(rt; prover.tried, tried);
    }
    Ok(())
}

#[test]
fn what_is_structural_by_users_shells_asks_no_prover(rt: HostRuntime) -> Result<(), Fail> {
    for body in [
        // by a shell with a base, each part of which has a restriction with a base for its default
        b"(IF (STACKP X) (IF (EQUAL X (EMPTY-STACK)) 0 (PLUS (H (TOP X)) (H (POP X)))) 0)".as_slice(),
        b"(IF (EQUAL (EMPTY-STACK) X) 0 (IF (STACKP X) (H (POP X)) 0))",
        // by one without a base
        b"(IF (PAIRP X) (PLUS (H (FIRST X)) (H (SECOND X))) 0)",
        // by one whose restricted parts have T or F for their defaults
        b"(IF (FLAGP X) (PLUS (H (UP X)) (H (DOWN X))) 0)",
        b"(IF (FLAGP X) (IF (FLAGP (UP X)) (H (DOWN (UP X))) T) F)",
        // by another shell at each call
        b"(IF (LISTP X) (H (CDR X)) (IF (PAIRP X) (H (SECOND X)) 0))",
        // by nests, with a test at each level
        b"(IF (PAIRP X) (IF (PAIRP (SECOND X)) (H (FIRST (SECOND X))) 0) 0)",
        // under a test that calls the function
        b"(IF (PAIRP X) (IF (H (FIRST X)) (H (SECOND X)) 0) X)",
    ] {
        let forms = joined(
            rt.alloc(),
            &[STACKS, PAIRS, FLAGS, b"(DEFN H (X) ", body, b")"],
        )?;
        let (prover, ended) = after_forms(rt.alloc(), forms.as_slice(), 0)?;
        assert!(rt; ended);
        assert_eq!(rt; prover.learnt, GROUND_LENGTH as u64 + 4);
        assert_eq!(rt; prover.tried, 0);
    }
    Ok(())
}

#[test]
fn a_form_that_is_not_taken_leaves_nothing_in_the_bank(rt: HostRuntime) -> Result<(), Fail> {
    let (plain, ended) = after_forms(rt.alloc(), b"(DCL E (X)) (DCL G (X))", 1000)?;
    assert!(rt; ended);
    for between in [
        // refused before and after its terms were read, and skipped
        b"(DCL NEW (FRESH FRESH))".as_slice(),
        b"(PROVE-LEMMA L NIL (FOO (CONS FRESH (CONS 7 8))))",
        b"(ADD-AXIOM PLUS NIL (EQUAL FRESH (CONS 7 8)))",
        b"(ADD-SHELL NEW NIL NEWP ((PART (NONE-OF) FRESH)))",
        b"(DEFN NEW (FRESH) (NEW (CONS FRESH 7)))",
        b"(TOGGLE NEW-OFF NONE T) (UNDO-BACK-THROUGH NONE)",
        b"(SETQ FRESH NIL) (FRESH)",
        // failed, and undone
        b"(PROVE-LEMMA L NIL (EQUAL FRESH (CONS 7 8)))",
        b"(DEFN NEW (FRESH) (CONS FRESH 7)) (UNDO-BACK-THROUGH NEW)",
    ] {
        let mut forms = b"(DCL E (X)) ".to_vec(rt.alloc())?;
        forms.extend_from_slice(between)?;
        forms.extend_from_slice(b" (DCL G (X))")?;
        let (other, ended) = after_forms(rt.alloc(), forms.as_slice(), 1000)?;
        assert!(rt; ended);
        assert_eq!(rt; other.learnt, plain.learnt);
        assert_eq!(rt; other.end, plain.end);
    }
    Ok(())
}
