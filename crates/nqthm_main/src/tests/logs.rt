// Logs that are written, and logs that are checked, in memory.
use super::{FIRST_LEMMA, Given, NO_FORMS, answer_to};
use std::alloc::{AllocError, Global};
use std::test::Fail;

/// A log by hand: the lines are those of a first event, and of a lemma that a variable implies itself.
const HAND_LOG: [&[u8]; 21] = [
    b"NQTHM-LOG 1",
    b"BOOT-STRAP",
    b"V P",
    b"V Q",
    b"A NOT 1",
    b"A TRUE",
    b"A FALSE",
    b"A IF 1 4 5",
    b"A IF 1 6 4",
    b"A IMPLIES 1 1",
    b"A EQUAL 8 7",
    b"AXIOM TRUE 1 0",
    b"TAUT 1 3",
    b"JOIN 1 2 1 4 5",
    b"JOIN 3 1 1 6 4",
    b"AXIOM IMPLIES 1 0",
    b"INST 5 2 1",
    b"REPLACE 4 1 0 8 -",
    b"CUT 6 7 9",
    b"LEMMA TRIV 8 8",
    b"END",
];

const NO_CLAIM: &[u8] = b"";

const FIRST_CLAIM: &[u8] = b"BOOT-STRAP\n";

const BOTH_CLAIMS: &[u8] = b"BOOT-STRAP\nLEMMA TRIV: (IMPLIES P P)\n";

/// These lines, each ended by a line feed.
fn text_of(alloc: Global, lines: &[&[u8]]) -> Result<Vec<u8>, AllocError> {
    let mut text = Vec::new(alloc);
    for line in lines {
        text.extend_from_slice(line)?;
        text.push(b'\n')?;
    }
    Ok(text)
}

/// Lines in the place of some lines of the hand-written log: of those from one place up to another, counted from 0.
#[derive(Clone, Copy)]
struct Change<'a> {
    from: usize,
    until: usize,
    lines: &'a [&'a [u8]],
}

/// The hand-written log with a change.
fn changed_log(alloc: Global, change: Change<'_>) -> Result<Vec<u8>, AllocError> {
    let mut text = Vec::new(alloc);
    for (at, line) in HAND_LOG.iter().enumerate() {
        if at == change.from {
            text.extend_from_slice(text_of(alloc, change.lines)?.as_slice())?;
        }
        if at < change.from || at >= change.until {
            text.extend_from_slice(line)?;
            text.push(b'\n')?;
        }
    }
    Ok(text)
}

/// The check of a text from pieces of so many bytes: its status and what it writes.
fn checked(alloc: Global, text: &[u8], piece: usize) -> Result<(u8, Vec<u8>), AllocError> {
    let given = Given {
        words: &["nqthm", "check"],
        piece,
        ..Given::run(text)
    };
    let answered = answer_to(alloc, given)?;
    Ok((answered.status, answered.out))
}

/// What a check writes that refuses a line, behind these claims.
fn refusal(alloc: Global, claims: &[u8], line: u64, why: &[u8]) -> Result<Vec<u8>, AllocError> {
    let mut text = claims.to_vec(alloc)?;
    text.extend_from_slice(b"Refused, line ")?;
    text.extend_from_slice(line.to_string(alloc)?.as_bytes())?;
    text.extend_from_slice(b": ")?;
    text.extend_from_slice(why)?;
    text.extend_from_slice(b".\n")?;
    Ok(text)
}

#[test]
fn the_hand_written_log_is_accepted(rt: HostRuntime) -> Result<(), Fail> {
    let alloc = rt.alloc();
    let text = text_of(alloc, HAND_LOG.as_slice())?;
    let mut want = BOTH_CLAIMS.to_vec(alloc)?;
    want.extend_from_slice(b"Accepted, 2 claims.\n")?;
    for piece in [1, 64] {
        let (status, out) = checked(alloc, text.as_slice(), piece)?;
        assert_eq!(rt; out.as_slice(), want.as_slice());
        assert_eq!(rt; status, 0);
    }
    Ok(())
}

#[test]
fn a_log_without_its_last_lines_has_an_unexpected_end(rt: HostRuntime) -> Result<(), Fail> {
    let alloc = rt.alloc();
    for count in 0..21 {
        let text = text_of(alloc, &HAND_LOG[..count])?;
        let claims = match count {
            0 | 1 => NO_CLAIM,
            20 => BOTH_CLAIMS,
            _ => FIRST_CLAIM,
        };
        let (status, out) = checked(alloc, text.as_slice(), 1)?;
        let want = refusal(alloc, claims, count as u64 + 1, b"unexpected end")?;
        assert_eq!(rt; out.as_slice(), want.as_slice());
        assert_eq!(rt; status, 1);
    }
    Ok(())
}

#[test]
fn a_changed_log_is_refused_at_its_first_wrong_line(rt: HostRuntime) -> Result<(), Fail> {
    let alloc = rt.alloc();
    for (from, until, lines, claims, line, why) in [
        // the last line twice
        (
            20,
            21,
            [b"END".as_slice(), b"END"].as_slice(),
            BOTH_CLAIMS,
            22,
            b"malformed".as_slice(),
        ),
        // another line end
        (0, 1, &[b"NQTHM-LOG 1\r"], NO_CLAIM, 1, b"malformed"),
        // a number with a zero in front, and a term that isn't there
        (12, 13, &[b"TAUT 01 3"], FIRST_CLAIM, 13, b"malformed"),
        (12, 13, &[b"TAUT 1 12"], FIRST_CLAIM, 13, b"not allowed"),
        // a dropped line is cited, and a line is missing
        (19, 19, &[b"DROP 8"], FIRST_CLAIM, 21, b"not allowed"),
        (19, 20, &[], FIRST_CLAIM, 20, b"not allowed"),
    ] {
        let change = Change { from, until, lines };
        let text = changed_log(alloc, change)?;
        let (status, out) = checked(alloc, text.as_slice(), 7)?;
        let want = refusal(alloc, claims, line, why)?;
        assert_eq!(rt; out.as_slice(), want.as_slice());
        assert_eq!(rt; status, 1);
    }
    Ok(())
}

// Each row is the lines between the first and the last, and what is written for them.
#[test]
fn a_log_of_definitions_is_accepted(rt: HostRuntime) -> Result<(), Fail> {
    let alloc = rt.alloc();
    for (lines, want) in [
        (
            b"V X\nDEFN G 1 1\n".as_slice(),
            b"DEFN G: (EQUAL (G X) X)\nAccepted, 1 claims.\n".as_slice(),
        ),
        (
            b"V X\nV Y\nA IF 1 2 1\nDEFN G 3 2 1\n",
            b"DEFN G: (EQUAL (G Y X) (IF X Y X))\nAccepted, 1 claims.\n",
        ),
        (
            b"V X\nDEFN G 1 1\nV X\nA G 1\nA EQUAL 2 1\nAXIOM G 1 0\nLEMMA OPENED 3 1\n",
            b"DEFN G: (EQUAL (G X) X)\nLEMMA OPENED: (EQUAL (G X) X)\nAccepted, 2 claims.\n",
        ),
        (
            b"V X\nDEFN G 1 1\nUNDO G\nN 0\nDEFN G 1\n",
            b"DEFN G: (EQUAL (G X) X)\nUNDO G\nDEFN G: (EQUAL (G) 0)\nAccepted, 3 claims.\n",
        ),
    ] {
        let mut text = b"NQTHM-LOG 1\n".to_vec(alloc)?;
        text.extend_from_slice(lines)?;
        text.extend_from_slice(b"END\n")?;
        let (status, out) = checked(alloc, text.as_slice(), 3)?;
        assert_eq!(rt; out.as_slice(), want);
        assert_eq!(rt; status, 0);
    }
    Ok(())
}

// Each row is the lines behind the first, of which the last is not allowed, and the claims before it.
#[test]
fn a_log_of_no_definition_is_refused(rt: HostRuntime) -> Result<(), Fail> {
    let alloc = rt.alloc();
    for (lines, claims) in [
        // a name in use, a formal that stands twice, one that is no variable, and another variable
        ([b"V X".as_slice(), b"DEFN PLUS 1 1"].as_slice(), NO_CLAIM),
        (&[b"V X", b"DEFN G 1 1 1"], NO_CLAIM),
        (&[b"V X", b"N 0", b"DEFN G 1 1 2"], NO_CLAIM),
        (&[b"V X", b"V Y", b"DEFN G 1 2"], NO_CLAIM),
        // the function is not known in its own body, where no line begins the block with it, and has that line's arity
        (&[b"V X", b"A G 1"], NO_CLAIM),
        (&[b"F G 1", b"V X", b"V Y", b"DEFN G 1 1 2"], NO_CLAIM),
        // it is known no more behind its undoing
        (
            &[b"V X", b"DEFN G 1 1", b"UNDO G", b"V X", b"A G 1"],
            b"DEFN G: (EQUAL (G X) X)\nUNDO G\n",
        ),
    ] {
        let mut text = b"NQTHM-LOG 1\n".to_vec(alloc)?;
        text.extend_from_slice(text_of(alloc, lines)?.as_slice())?;
        let (status, out) = checked(alloc, text.as_slice(), 7)?;
        let want = refusal(alloc, claims, lines.len() as u64 + 1, b"not allowed")?;
        assert_eq!(rt; out.as_slice(), want.as_slice());
        assert_eq!(rt; status, 1);
    }
    Ok(())
}

#[test]
fn a_written_log_is_accepted(rt: HostRuntime) -> Result<(), Fail> {
    let alloc = rt.alloc();
    let given = Given {
        words: &["nqthm", "log"],
        ..Given::run(FIRST_LEMMA)
    };
    let written = answer_to(alloc, given)?;
    assert_eq!(rt; written.status, 0);
    let (status, out) = checked(alloc, written.out.as_slice(), 64)?;
    let mut want = BOTH_CLAIMS.to_vec(alloc)?;
    want.extend_from_slice(b"Accepted, 2 claims.\n")?;
    assert_eq!(rt; out.as_slice(), want.as_slice());
    assert_eq!(rt; status, 0);
    Ok(())
}

#[test]
fn a_log_whose_commentary_fails_is_refused(rt: HostRuntime) -> Result<(), Fail> {
    let alloc = rt.alloc();
    let given = Given {
        words: &["nqthm", "log"],
        failing_side: 1,
        ..Given::run(FIRST_LEMMA)
    };
    let written = answer_to(alloc, given)?;
    assert_eq!(rt; written.status, 5);
    assert_eq!(rt; written.side.as_slice(), b"".as_slice());
    let (status, _) = checked(alloc, written.out.as_slice(), 64)?;
    assert_eq!(rt; status, 1);
    Ok(())
}

#[test]
fn a_log_has_its_first_and_last_line(rt: HostRuntime) -> Result<(), Fail> {
    for text in [b"".as_slice(), b"; x"] {
        let given = Given {
            words: &["nqthm", "log"],
            ..Given::run(text)
        };
        let answered = answer_to(rt.alloc(), given)?;
        assert_eq!(rt; answered.status, 0);
        assert_eq!(rt; answered.out.as_slice(), b"NQTHM-LOG 1\nEND\n".as_slice());
        assert_eq!(rt; answered.side.as_slice(), NO_FORMS);
    }
    Ok(())
}

#[test]
fn a_failing_stream_of_a_check_has_its_status(rt: HostRuntime) -> Result<(), Fail> {
    let alloc = rt.alloc();
    let text = text_of(alloc, HAND_LOG.as_slice())?;
    for (failing_read, failing_write, status, want) in [
        (1, 0, 4, NO_CLAIM),
        (3, 0, 4, FIRST_CLAIM),
        (0, 1, 5, NO_CLAIM),
        (0, 2, 5, FIRST_CLAIM),
        (0, 3, 5, BOTH_CLAIMS),
    ] {
        let given = Given {
            words: &["nqthm", "check"],
            failing_read,
            failing_write,
            ..Given::run(text.as_slice())
        };
        let answered = answer_to(alloc, given)?;
        assert_eq!(rt; answered.status, status);
        assert_eq!(rt; answered.out.as_slice(), want);
    }
    Ok(())
}
