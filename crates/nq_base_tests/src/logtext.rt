//! The lines of a log.
use nq_logtext::{LogLine, Sign, Text, parse_line, write_line};
use std::alloc::{AllocError, Global};
use std::test::*;

/// A whole log, and what stands in its lines.
const LOG: [&str; 21] = [
    "NQTHM-LOG 1",
    "BOOT-STRAP",
    "V P",
    "V Q",
    "A NOT 1",
    "A TRUE",
    "A FALSE",
    "A IF 1 4 5",
    "A IF 1 6 4",
    "A IMPLIES 1 1",
    "A EQUAL 8 7",
    "AXIOM TRUE 1 0",
    "TAUT 1 3",
    "JOIN 1 2 1 4 5",
    "JOIN 3 1 1 6 4",
    "AXIOM IMPLIES 1 0",
    "INST 5 2 1",
    "REPLACE 4 1 0 8 -",
    "CUT 6 7 9",
    "LEMMA TRIV 8 8",
    "END",
];

/// Lines of the other kinds.
const OTHERS: [&str; 29] = [
    "F APP 2",
    "N 340282366920938463463374607431768211455",
    "TAUT",
    "EVENT TRIV",
    "WEAKEN 1",
    "WEAKEN 1 2 3",
    "INST 5 2 1 3 18446744073709551615",
    "REFL 8",
    "REPLACE 4 1 2.10.1 8 +",
    "SPLIT 3 1 9",
    "NOTNOT 3 1",
    "VALUE 7",
    "LINEAR",
    "LINEAR 1 7 + 2 8 -",
    "INDUCT 1 2 3 4",
    "DROP 1",
    "CASE 5 6",
    "HYP 7",
    "HYP 7 2 3",
    "SHELL PUSH EMPTY STACKP",
    "PART TOP ONE-OF ZERO NUMBERP",
    "PART POP NONE-OF ZERO",
    "DCL G 3",
    "AXIOMATIZE A1 9",
    "DEFN APP 12",
    "MEASURE 4 5 6 7",
    "TOGGLE OFF TRIV 1",
    "UNDO TRIV",
    "V *1*?@[]^_{}~!$%&",
];

/// Texts that are no lines.
const MALFORMED: [&str; 48] = [
    "",
    " ",
    "V",
    "V ",
    " V P",
    "V  P",
    "V P ",
    "V P\r",
    "V P\n",
    "v P",
    "V p",
    "V 1P",
    "V .P",
    "V :P",
    "V -1",
    "V +2B",
    "V P;",
    "V P Q",
    "V\tP",
    "X P",
    "CUT 6 7",
    "CUT 6 7 9 1",
    "CUT 06 7 9",
    "CUT 6 7 +9",
    "CUT 6 7 -9",
    "CUT 6 7 9a",
    "CUT 6  7 9",
    "CUT 6 7 18446744073709551616",
    "CUT 6 7 00",
    "N 340282366920938463463374607431768211456",
    "N -1",
    "N",
    "INST",
    "INST 5 1",
    "INST 5 X 1",
    "LINEAR 1 7",
    "LINEAR 1 7 + 2",
    "REPLACE 4 1 00 8 +",
    "REPLACE 4 1 0.1 8 +",
    "REPLACE 4 1 1.0 8 +",
    "REPLACE 4 1 1. 8 +",
    "REPLACE 4 1 1 8 *",
    "NQTHM-LOG 2",
    "NQTHM-LOG 3",
    "NQTHM-LOG 1\r",
    "TAUT 01 3",
    "END 1",
    "PART TOP ONEOF ZERO NUMBERP",
];

/// Whether the text is a line that is written as it was read.
fn comes_back(alloc: Global, text: &str) -> Result<bool, AllocError> {
    let Some(line) = parse_line(alloc, text.as_bytes())? else {
        return Ok(false);
    };
    let mut out = Text::new(alloc);
    write_line(&line, &mut out)?;
    Ok(out.as_slice() == text.as_bytes())
}

#[test]
fn a_log_comes_back(rt: HostRuntime) -> Result<(), Fail> {
    for text in LOG {
        assert!(rt; comes_back(rt.alloc(), text)?, "{text}");
    }
    for text in OTHERS {
        assert!(rt; comes_back(rt.alloc(), text)?, "{text}");
    }
    Ok(())
}

#[test]
fn malformed_lines_are_none(rt: HostRuntime) -> Result<(), Fail> {
    for text in MALFORMED {
        let found = parse_line(rt.alloc(), text.as_bytes())?;
        assert!(rt; found.is_none(), "{text}");
    }
    Ok(())
}

#[test]
fn names_are_short(rt: HostRuntime) -> Result<(), Fail> {
    let alloc = rt.alloc();
    let mut text = Text::of(alloc, b"V ")?;
    for _ in 0..256 {
        text.extend_from_slice(b"A")?;
    }
    assert!(rt; parse_line(alloc, text.as_slice())?.is_some());
    text.extend_from_slice(b"A")?;
    assert!(rt; parse_line(alloc, text.as_slice())?.is_none());
    Ok(())
}

#[test]
fn fields_have_their_names(rt: HostRuntime) -> Result<(), Fail> {
    let found = parse_line(rt.alloc(), b"REPLACE 4 1 2.10 8 -")?;
    let Some(
        LogLine::Replace {
            line,
            literal,
            path,
            term,
            sign,
        },
    ) = found
    else {
        return Err("it is a REPLACE line".into());
    };
    assert_eq!(rt; (line, literal, term), (4, 1, 8));
    assert_eq!(rt; path.as_slice(), [2, 10].as_slice());
    assert!(rt; sign == Sign::Minus);
    Ok(())
}
