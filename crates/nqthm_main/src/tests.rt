// The whole program over words, sources and sinks in memory.
// logs, written and checked
mod logs;

// shells
mod shells;

// definitions, axioms, toggles, undo, and instances
mod events;

// the ways of the rewriter
mod rewriting;

// a prover of another kind
mod counting_prover;

use nq_io::{MemSink, MemSource};
use nqthm::nqthm;
use shells::has_part;
use std::alloc::{AllocError, Global};
use std::test::Fail;

const USAGE: &str = "usage: nqthm run [--steps N] | log [--steps N] | check | sample SEED SIZE\n";

const FIRST_LEMMA: &[u8] = b"(BOOT-STRAP NQTHM)\n(PROVE-LEMMA TRIV NIL (IMPLIES P P))\n";

const FIRST_REPORT: &[u8] = b"1. BOOT-STRAP\n   Accepted.\n";

const BOTH_REPORTS: &[u8] =
    b"1. BOOT-STRAP\n   Accepted.\n2. PROVE-LEMMA TRIV\n   By TAUT.\n   Proved.\n";

const NO_FORMS: &[u8] = b"Forms 0, accepted 0, refused 0, failed 0, skipped 0.\n";

/// What a run of the program is given. A number is that of the call that fails; 0 fails none.
#[derive(Clone, Copy)]
struct Given<'a> {
    words: &'a [&'a str],
    text: &'a [u8],
    piece: usize,
    failing_read: u64,
    failing_write: u64,
    failing_side: u64,
}

impl<'a> Given<'a> {
    /// The words `nqthm run` over a text, with no call that fails.
    fn run(text: &'a [u8]) -> Self {
        Given {
            words: &["nqthm", "run"],
            text,
            piece: 64,
            failing_read: 0,
            failing_write: 0,
            failing_side: 0,
        }
    }
}

/// What the program answered, and what was written to the two sinks.
#[derive(Drop)]
struct Answered {
    status: u8,
    out: Vec<u8>,
    side: Vec<u8>,
}

fn answer_to(alloc: Global, given: Given<'_>) -> Result<Answered, AllocError> {
    let mut words = Vec::new(alloc);
    for word in given.words {
        words.push(word.to_string(alloc)?)?;
    }
    let text = given.text.to_vec(alloc)?;
    let piece = given.piece.max(1);
    let mut source = MemSource::new(text, piece, [given.failing_read].to_vec(alloc)?);
    let mut out = MemSink::new(alloc, [given.failing_write].to_vec(alloc)?);
    let mut side = MemSink::new(alloc, [given.failing_side].to_vec(alloc)?);
    let status = nqthm(alloc, words, &mut source, &mut out, &mut side);
    Ok(Answered {
        status,
        out: out.bytes().to_vec(alloc)?,
        side: side.bytes().to_vec(alloc)?,
    })
}

#[test]
fn first_lemma_is_not_answered_with_want_of_memory(rt: HostRuntime) -> Result<(), Fail> {
    let answered = answer_to(rt.alloc(), Given::run(FIRST_LEMMA))?;
    assert_eq!(rt; answered.status, 0);
    assert!(rt; answered.out.as_slice().starts_with(BOTH_REPORTS));
    assert_eq!(rt; answered.side.as_slice(), b"".as_slice());
    Ok(())
}

#[test]
fn each_form_has_its_report(rt: HostRuntime) -> Result<(), Fail> {
    for (text, status, want) in [
        (b"".as_slice(), 0, NO_FORMS),
        (
            b"(boot-strap) (boot-strap thm) (boot-strap other)",
            1,
            b"1. BOOT-STRAP\n   Accepted.\n2. BOOT-STRAP\n   Accepted.\n3. BOOT-STRAP\n   Refused 21 BadShape form.\nForms 3, accepted 2, refused 1, failed 0, skipped 0.\n",
        ),
        (
            b"X ((A)) () (SETQ A NIL)",
            1,
            b"1. ?\n   Refused 20 NotAnEvent.\n2. ?\n   Refused 20 NotAnEvent.\n3. ?\n   Refused 20 NotAnEvent.\n4. SETQ\n   Skipped.\nForms 4, accepted 0, refused 3, failed 0, skipped 1.\n",
        ),
        (
            b"(PROVE-LEMMA L NIL (IMPLIES P P)) (PROVE-LEMMA L NIL (IMPLIES Q Q)) (BOOT-STRAP) (PROVE-LEMMA L () (IMPLIES P P))",
            1,
            b"1. PROVE-LEMMA L\n   By TAUT.\n   Proved.\n2. PROVE-LEMMA L\n   Refused 32 NameInUse L.\n3. BOOT-STRAP\n   Accepted.\n4. PROVE-LEMMA L\n   By TAUT.\n   Proved.\nForms 4, accepted 3, refused 1, failed 0, skipped 0.\n",
        ),
        (
            b"(PROVE-LEMMA A NIL (IMPLIES P Q)) (PROVE-LEMMA B NIL (IMPLIES T T))",
            1,
            b"1. PROVE-LEMMA A\n   0. GOAL: (IMPLIES P Q)\n   1. SIMP from 0: (NOT P) OR Q\n   2. IRR from 1: Q\n   Failed, no induction.\n2. PROVE-LEMMA B\n   By TAUT.\n   Proved.\nForms 2, accepted 1, refused 0, failed 1, skipped 0.\n",
        ),
        (
            b"(PROVE-LEMMA A1 NIL (EQUAL X Y))",
            1,
            b"1. PROVE-LEMMA A1\n   0. GOAL: (EQUAL X Y)\n   Failed, no induction.\nForms 1, accepted 0, refused 0, failed 1, skipped 0.\n",
        ),
        (
            b"(UNDO-BACK-THROUGH E) (TOGGLE K G T) (DCL (E))",
            1,
            b"1. UNDO-BACK-THROUGH E\n   Refused 30 NoSuchEvent E.\n2. TOGGLE K\n   Refused 30 NoSuchEvent G.\n3. DCL\n   Refused 21 BadShape form.\nForms 3, accepted 0, refused 3, failed 0, skipped 0.\n",
        ),
    ] {
        let answered = answer_to(rt.alloc(), Given::run(text))?;
        assert_eq!(rt; answered.out.as_slice(), want);
        assert_eq!(rt; answered.status, status);
    }
    Ok(())
}

#[test]
fn a_form_of_another_kind_has_its_header(rt: HostRuntime) -> Result<(), Fail> {
    for (text, header, status) in [
        (
            b"-0012".as_slice(),
            b"1. ?\n   Refused 20 NotAnEvent.\n".as_slice(),
            1,
        ),
        (b"\"A\"", b"1. ?\n   Refused 20 NotAnEvent.\n", 1),
        (b"'X", b"1. ?\n   Refused 20 NotAnEvent.\n", 1),
        (b"(7 A)", b"1. ?\n   Refused 20 NotAnEvent.\n", 1),
        (b"(FROB A)", b"1. FROB\n   Refused 20 NotAnEvent.\n", 1),
        (b"(SETQ . A)", b"1. SETQ\n   Skipped.\n", 0),
        (
            b"(NOTE-LIB \"x\")",
            b"1. NOTE-LIB\n   Refused 12 OutOfScope NOTE-LIB.\n",
            1,
        ),
        (
            b"(DCL E . A)",
            b"1. DCL E\n   Refused 21 BadShape form.\n",
            1,
        ),
        (
            b"(DCL \"E\" (A))",
            b"1. DCL\n   Refused 21 BadShape name.\n",
            1,
        ),
        (b"(DCL E (A))", b"1. DCL E\n   Accepted.\n", 0),
        (
            b"(BOOT-STRAP . NQTHM)",
            b"1. BOOT-STRAP\n   Refused 21 BadShape form.\n",
            1,
        ),
    ] {
        let answered = answer_to(rt.alloc(), Given::run(text))?;
        assert!(rt; answered.out.as_slice().starts_with(header));
        assert_eq!(rt; answered.status, status);
    }
    Ok(())
}

/// The pieces one after another.
fn joined(alloc: Global, pieces: &[&[u8]]) -> Result<Vec<u8>, AllocError> {
    let mut text = Vec::new(alloc);
    for piece in pieces {
        text.extend_from_slice(piece)?;
    }
    Ok(text)
}

#[test]
fn a_lemma_has_its_first_refusal(rt: HostRuntime) -> Result<(), Fail> {
    for (name, rest, answer) in [
        (
            b"A".as_slice(),
            b"NIL (FOO X)".as_slice(),
            b"Refused 10 UnknownFunction FOO.\n".as_slice(),
        ),
        (b"A", b"NIL (NOT P Q)", b"Refused 11 Arity NOT 2 1.\n"),
        (
            b"A",
            b"NIL (EQUAL (EVAL$ T X A) X)",
            b"Refused 12 OutOfScope EVAL$.\n",
        ),
        (
            b"A",
            b"((META F)) (IMPLIES P P)",
            b"Refused 12 OutOfScope META.\n",
        ),
        (
            b"A",
            b"NIL (LET ((NIL P)) P)",
            b"Refused 14 BadVariable NIL.\n",
        ),
        (
            b"A",
            b"(FROB) (IMPLIES P P)",
            b"Refused 21 BadShape types.\n",
        ),
        (
            b"A",
            b"NIL (IMPLIES P P) ((GUESS T))",
            b"Refused 22 BadHint GUESS.\n",
        ),
        (
            b"PLUS",
            b"(REWRITE) (IMPLIES P P)",
            b"Refused 32 NameInUse PLUS.\n",
        ),
        (
            b"A",
            b"(REWRITE) (IMPLIES P P)",
            b"Refused 50 NotRewrite.\n",
        ),
        (
            b"A",
            b"NIL (IMPLIES P Q)",
            b"0. GOAL: (IMPLIES P Q)\n   1. SIMP from 0: ",
        ),
        (
            b"A",
            b"NIL (OR P (NOT P)) ((DO-NOT-INDUCT T))",
            b"By TAUT.\n   Proved.\n",
        ),
        (
            b"A",
            b"() (COND (P T) (T (IFF Q Q)))",
            b"By TAUT.\n   Proved.\n",
        ),
    ] {
        let text = joined(rt.alloc(), &[b"(PROVE-LEMMA ", name, b" ", rest, b")"])?;
        let front = joined(rt.alloc(), &[b"1. PROVE-LEMMA ", name, b"\n   ", answer])?;
        let answered = answer_to(rt.alloc(), Given::run(text.as_slice()))?;
        assert!(rt; answered.out.as_slice().starts_with(front.as_slice()));
    }
    Ok(())
}

#[test]
fn a_fault_of_the_spelling_is_told(rt: HostRuntime) -> Result<(), Fail> {
    let deep = [b'('; 501];
    for (text, fault) in [
        (
            b"(BOOT-STRAP NQTHM".as_slice(),
            b"Syntax fault 1 at byte 0: unbalanced.\n".as_slice(),
        ),
        (b")", b"Syntax fault 1 at byte 0: unbalanced.\n"),
        (b"(A \"abc", b"Syntax fault 1 at byte 0: unbalanced.\n"),
        (b"#|", b"Syntax fault 1 at byte 0: unbalanced.\n"),
        (b"'", b"Syntax fault 2 at byte 0: bad token.\n"),
        (b"(A ')", b"Syntax fault 2 at byte 4: bad token.\n"),
        (
            b"(PROVE-LEMMA W NIL (NUMBERP 340282366920938463463374607431768211456))",
            b"Syntax fault 3 at byte 28: numeral too wide.\n",
        ),
        (deep.as_slice(), b"Syntax fault 4 at byte 500: too deep.\n"),
    ] {
        let answered = answer_to(rt.alloc(), Given::run(text))?;
        let mut want = fault.to_vec(rt.alloc())?;
        want.extend_from_slice(NO_FORMS)?;
        assert_eq!(rt; answered.out.as_slice(), want.as_slice());
        assert_eq!(rt; answered.status, 3);
    }
    Ok(())
}

/// Whether a lemma of this name is proved as the first form, where its name is used by nothing else.
fn is_proved(alloc: Global, name: &[u8]) -> Result<bool, AllocError> {
    let mut text = b"(PROVE-LEMMA ".as_slice().to_vec(alloc)?;
    text.extend_from_slice(name)?;
    text.extend_from_slice(b" () (IMPLIES P P))")?;
    let answered = answer_to(alloc, Given::run(text.as_slice()))?;
    Ok(answered.status == 0)
}

#[test]
fn a_name_in_use_is_refused(rt: HostRuntime) -> Result<(), Fail> {
    for (name, free) in [
        (b"TRIV".as_slice(), true),
        (b"CAR1", true),
        (b"CR", true),
        (b"CADS", true),
        (b"PLUS", false),
        (b"NEGATIVE-GUTS", false),
        (b"PAIRLIST", false),
        (b"CAR", false),
        (b"CADR", false),
        (b"CDDADR", false),
        (b"LET", false),
        (b"NIL", false),
        (b"FORMALS", false),
    ] {
        assert_eq!(rt; is_proved(rt.alloc(), name)?, free);
    }
    assert!(rt; is_proved(rt.alloc(), [b'N'; 240].as_slice())?);
    assert!(rt; !is_proved(rt.alloc(), [b'N'; 241].as_slice())?);
    Ok(())
}

/// So many lemmas, each of a name of its own.
fn many_lemmas(alloc: Global, count: u64) -> Result<Vec<u8>, AllocError> {
    let mut text = Vec::new(alloc);
    for number in 0..count {
        let digits = number.to_string(alloc)?;
        text.extend_from_slice(b"(PROVE-LEMMA L")?;
        text.extend_from_slice(digits.as_bytes())?;
        text.extend_from_slice(b" NIL (IMPLIES P P))\n")?;
    }
    Ok(text)
}

#[test]
fn there_is_room_for_ten_thousand_lemmas(rt: HostRuntime) -> Result<(), Fail> {
    let alloc = rt.alloc();
    let text = many_lemmas(alloc, 10_001)?;
    let answered = answer_to(alloc, Given::run(text.as_slice()))?;
    assert_eq!(rt; answered.status, 1);
    assert!(rt;
        answered.out.as_slice().ends_with(
            b"10000. PROVE-LEMMA L9999\n   By TAUT.\n   Proved.\n10001. PROVE-LEMMA L10000\n   Refused 33 TooManyEvents.\nForms 10001, accepted 10000, refused 1, failed 0, skipped 0.\n"
        )
    );
    Ok(())
}

#[test]
fn a_failing_stream_leaves_whole_reports(rt: HostRuntime) -> Result<(), Fail> {
    let declarations = b"(BOOT-STRAP NQTHM)\n(DCL E (X))\n(DCL G (X))\n";
    let two_reports = b"1. BOOT-STRAP\n   Accepted.\n2. DCL E\n   Accepted.\n";
    for (text, piece, failing_read, failing_write, status, want) in [
        (declarations.as_slice(), 19, 3, 0, 4, two_reports.as_slice()),
        (declarations.as_slice(), 40, 2, 0, 4, two_reports.as_slice()),
        (FIRST_LEMMA, 64, 1, 0, 4, b""),
        (FIRST_LEMMA, 64, 0, 1, 5, b""),
        (FIRST_LEMMA, 64, 0, 2, 5, FIRST_REPORT),
        (FIRST_LEMMA, 1, 0, 3, 5, BOTH_REPORTS),
    ] {
        let given = Given {
            piece,
            failing_read,
            failing_write,
            ..Given::run(text)
        };
        let answered = answer_to(rt.alloc(), given)?;
        assert_eq!(rt; answered.status, status);
        assert_eq!(rt; answered.out.as_slice(), want);
    }
    Ok(())
}

#[test]
fn a_sample_is_written_and_run(rt: HostRuntime) -> Result<(), Fail> {
    let given = Given {
        words: &["nqthm", "sample", "1", "2"],
        ..Given::run(b"")
    };
    let answered = answer_to(rt.alloc(), given)?;
    assert_eq!(rt; answered.status, 0);
    assert_eq!(rt;
        answered.out.as_slice(),
        b"(BOOT-STRAP NQTHM)\n(PROVE-LEMMA S1 NIL (IMPLIES (AND P Q) (OR Q R)))\n(DEFN S2 (X Y) (PLUS X (TIMES 83 Y)))\n".as_slice()
    );
    assert_eq!(rt;
        answered.side.as_slice(),
        b"Forms 3, accepted 3, refused 0, failed 0, skipped 0.\n".as_slice()
    );
    Ok(())
}

#[test]
fn false_propositions_fail_whatever_the_limit(rt: HostRuntime) -> Result<(), Fail> {
    let text =
        b"(PROVE-LEMMA A1 NIL (EQUAL X Y))\n(PROVE-LEMMA A2 NIL (EQUAL (PLUS 2 2) 5))\n(PROVE-LEMMA A3 NIL (IMPLIES P Q))\n";
    for words in [
        ["nqthm", "run"].as_slice(),
        &["nqthm", "run", "--steps", "1"],
    ] {
        let given = Given {
            words,
            ..Given::run(text)
        };
        let answered = answer_to(rt.alloc(), given)?;
        assert_eq!(rt; answered.status, 1);
        for part in [
            b"1. PROVE-LEMMA A1\n   0. GOAL: (EQUAL X Y)\n   Failed, no induction.\n2. PROVE-LEMMA A2\n   0. GOAL: (EQUAL (PLUS 2 2) 5)\n   Failed, false.\n3. PROVE-LEMMA A3\n   0. GOAL: (IMPLIES P Q)\n   1. ".as_slice(),
            b"   Failed, no induction.\nForms 3, accepted 0, refused 0, failed 3, skipped 0.\n",
        ] {
            assert!(rt; has_part(answered.out.as_slice(), part));
        }
    }
    Ok(())
}

#[test]
fn other_words_are_refused(rt: HostRuntime) -> Result<(), Fail> {
    for (words, failing_side, status) in [
        (["nqthm", "run", "--steps", "1"].as_slice(), 1, 0),
        (&["nqthm", "run", "--steps=50000000"], 1, 0),
        (&["nqthm", "run", "--steps", "+0007"], 1, 0),
        (&["nqthm", "run", "--steps", "0"], 0, 2),
        (&["nqthm", "run", "--steps", "50000001"], 0, 2),
        (&["nqthm", "run", "--steps", "5", "--steps", "6"], 0, 2),
        (&["nqthm", "run", "more"], 0, 2),
        (&["nqthm", "sample", "7"], 0, 2),
        (&["nqthm", "sample", "7", "0"], 0, 2),
        (&["nqthm", "sample", "1", "2001"], 0, 2),
        (&["nqthm", "sample", "18446744073709551616", "2"], 0, 2),
        (&["nqthm", "frob"], 0, 2),
        (&["nqthm"], 0, 2),
        (&[], 0, 2),
        (&["nqthm", "run", "--help"], 0, 2),
        (&["nqthm", "frob"], 1, 5),
    ] {
        let given = Given {
            words,
            failing_side,
            ..Given::run(b"")
        };
        let answered = answer_to(rt.alloc(), given)?;
        assert_eq!(rt; answered.status, status);
        assert_eq!(rt; answered.out.is_empty(), status != 0);
        let usage = if status == 2 { USAGE } else { "" };
        assert_eq!(rt; answered.side.as_slice(), usage.as_bytes());
    }
    Ok(())
}
