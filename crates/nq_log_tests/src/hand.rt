//! A log written by hand, and others that differ from it in one line.
use crate::checked::expect;
use std::alloc::{AllocError, Global};
use std::test::Fail;

/// The log, line by line. Its lemma ends in line 20.
const HAND: [&str; 21] = [
    "NQTHM-LOG 1",
    "BOOT-STRAP",
    "V P",
    "V Q",
    "A NOT 1",
    "A TRUE",
    "A FALSE",
    "A IF 1 4 5",
    "A IF 1 6 4",
    "A IMPLIES 1 1",
    "A EQUAL 8 7",
    "AXIOM TRUE 1 0",
    "TAUT 1 3",
    "JOIN 1 2 1 4 5",
    "JOIN 3 1 1 6 4",
    "AXIOM IMPLIES 1 0",
    "INST 5 2 1",
    "REPLACE 4 1 0 8 -",
    "CUT 6 7 9",
    "LEMMA TRIV 8 8",
    "END",
];

/// The same block as it is written for an event, with each term just before the first line that uses it.
const BLOCK: &str = "NQTHM-LOG 1
AXIOM TRUE 1 0
V P
A NOT 1
TAUT 1 2
A TRUE
A FALSE
JOIN 1 2 1 3 4
A IF 1 3 4
JOIN 3 1 1 5 3
AXIOM IMPLIES 1 0
V Q
INST 5 6 1
A IMPLIES 1 1
REPLACE 4 1 0 7 -
A IF 1 5 3
A EQUAL 7 8
CUT 6 7 9
LEMMA TRIV 7 8
END
";

/// Another line in the place of one, and what is written then behind the first claim.
const CHANGES: [(usize, &str, &str); 14] = [
    (13, "TAUT 1 4", "Refused, line 13: not allowed.\n"),
    (13, "TAUT 1 99", "Refused, line 13: not allowed.\n"),
    (13, "TAUT 01 3", "Refused, line 13: malformed.\n"),
    (17, "INST 5 1 2", "Refused, line 20: not allowed.\n"),
    (17, "INST 5 8 1", "Refused, line 17: not allowed.\n"),
    (18, "REPLACE 4 1 0 8 +", "Refused, line 20: not allowed.\n"),
    (18, "REPLACE 4 2 0 8 -", "Refused, line 18: not allowed.\n"),
    (16, "AXIOM IMPLIES 2 0", "Refused, line 16: not allowed.\n"),
    (19, "CUT 6 7 9\nDROP 8", "Refused, line 21: not allowed.\n"),
    (19, "DROP 7\nCUT 6 7 9", "Refused, line 20: not allowed.\n"),
    (19, "CUT 6 7 9\nDROP 9", "Refused, line 20: not allowed.\n"),
    (20, "END", "Refused, line 20: not allowed.\n"),
    (20, "LEMMA PLUS 8 8", "Refused, line 20: not allowed.\n"),
    (20, "UNDO TRIV", "Refused, line 20: not allowed.\n"),
];

/// How many lines are left, and what is written then.
const CUTS: [(usize, &str); 6] = [
    (0, "Refused, line 1: unexpected end.\n"),
    (1, "Refused, line 2: unexpected end.\n"),
    (2, "BOOT-STRAP\nRefused, line 3: unexpected end.\n"),
    (19, "BOOT-STRAP\nRefused, line 20: unexpected end.\n"),
    (
        20,
        "BOOT-STRAP\nLEMMA TRIV: (IMPLIES P P)\nRefused, line 21: unexpected end.\n",
    ),
    (
        21,
        "BOOT-STRAP\nLEMMA TRIV: (IMPLIES P P)\nAccepted, 2 claims.\n",
    ),
];

/// The log with another line of this number, counted from 1, and nothing behind so many lines.
fn hand_log(alloc: Global, number: usize, line: &str, count: usize) -> Result<Vec<u8>, AllocError> {
    let mut text = Vec::new(alloc);
    for (i, kept) in HAND.iter().enumerate() {
        if i >= count {
            break;
        }
        let here = if i + 1 == number { line } else { *kept };
        text.extend_from_slice(here.as_bytes())?;
        text.push(b'\n')?;
    }
    Ok(text)
}

#[test]
fn the_first_wrong_line_is_told(rt: HostRuntime) -> Result<(), Fail> {
    for (number, line, want) in CHANGES {
        let log = hand_log(rt.alloc(), number, line, 21)?;
        let mut whole = b"BOOT-STRAP\n".to_vec(rt.alloc())?;
        whole.extend_from_slice(want.as_bytes())?;
        expect(&rt, rt.alloc(), log.as_slice(), whole.as_slice())?;
    }
    Ok(())
}

#[test]
fn the_missing_line_is_told(rt: HostRuntime) -> Result<(), Fail> {
    for (count, want) in CUTS {
        let log = hand_log(rt.alloc(), 0, "", count)?;
        expect(&rt, rt.alloc(), log.as_slice(), want.as_bytes())?;
    }
    Ok(())
}

#[test]
fn terms_may_stand_where_they_are_first_used(rt: HostRuntime) -> Result<(), Fail> {
    expect(
        &rt,
        rt.alloc(),
        BLOCK.as_bytes(),
        b"LEMMA TRIV: (IMPLIES P P)\nAccepted, 1 claims.\n",
    )
}
