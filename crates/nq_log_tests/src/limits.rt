//! Limits of definitions and shells.
use crate::checked::written;
use std::alloc::{AllocError, Global};
use std::test::Fail;

/// What is written for the log of a definition whose body is so deep.
fn with_depth(alloc: Global, depth: u64) -> Result<Vec<u8>, AllocError> {
    let mut log = b"NQTHM-LOG 1\nV X\n".to_vec(alloc)?;
    for i in 1..depth {
        let line = format!(in alloc; "A LISTP {i}\n")?;
        log.extend_from_slice(line.as_bytes())?;
    }
    let line = format!(in alloc; "DEFN G {depth} 1\nEND\n")?;
    log.extend_from_slice(line.as_bytes())?;
    written(alloc, log.as_slice(), 4096)
}

/// What is written for a log of X and so many terms, each of which is CONS of the one before and itself, and of these lines.
fn with_doublings(alloc: Global, count: u64, lines: &str) -> Result<Vec<u8>, AllocError> {
    let mut log = b"NQTHM-LOG 1\nV X\n".to_vec(alloc)?;
    for i in 1..=count {
        let line = format!(in alloc; "A CONS {i} {i}\n")?;
        log.extend_from_slice(line.as_bytes())?;
    }
    log.extend_from_slice(lines.as_bytes())?;
    written(alloc, log.as_slice(), 4096)
}

#[test]
fn bodies_have_a_depth(rt: HostRuntime) -> Result<(), Fail> {
    assert!(rt; with_depth(rt.alloc(), 2000)?.ends_with(b"\nAccepted, 1 claims.\n"));
    assert_eq!(rt;
        with_depth(rt.alloc(), 2001)?.as_slice(),
        b"Refused, line 2003: not allowed.\n".as_slice()
    );
    Ok(())
}

/// The lines of a definition whose body has 99,999 nodes behind 15 doublings: those of the 15th, 14th, 9th, 8th, 6th and 4th
/// doubling, and five of CONS. So the equation has more than 100,000.
const LARGE: &str = "A CONS 7 5
A CONS 9 17
A CONS 10 18
A CONS 15 19
A CONS 16 20
DEFN G 21 1
END
";

// The tree of n doublings has 2^(n + 1) - 1 nodes.
#[test]
fn bodies_have_a_size(rt: HostRuntime) -> Result<(), Fail> {
    let whole = with_doublings(rt.alloc(), 15, "DEFN G 16 1\nEND\n")?;
    assert!(rt; whole.ends_with(b"\nAccepted, 1 claims.\n"));
    assert_eq!(rt;
        with_doublings(rt.alloc(), 16, "DEFN G 17 1\nEND\n")?.as_slice(),
        b"Refused, line 19: not allowed.\n".as_slice()
    );
    assert_eq!(rt;
        with_doublings(rt.alloc(), 15, LARGE)?.as_slice(),
        b"DEFN G: <large term>\nAccepted, 1 claims.\n".as_slice()
    );
    Ok(())
}

/// What is written for a shell with so many parts.
fn with_parts(alloc: Global, count: u64) -> Result<Vec<u8>, AllocError> {
    let mut log = b"NQTHM-LOG 1\n".to_vec(alloc)?;
    for i in 0..count {
        let line = format!(in alloc; "PART U{i} NONE-OF ZERO\n")?;
        log.extend_from_slice(line.as_bytes())?;
    }
    log.extend_from_slice(b"SHELL BOX NIL BOXP\nEND\n")?;
    written(alloc, log.as_slice(), 4096)
}

/// What is written for a shell with a part of so many recognizers.
fn with_recognizers(alloc: Global, count: u64) -> Result<Vec<u8>, AllocError> {
    let mut log = b"NQTHM-LOG 1\nPART UNBOX ONE-OF ZERO".to_vec(alloc)?;
    for _ in 0..count {
        log.extend_from_slice(b" NUMBERP")?;
    }
    log.extend_from_slice(b"\nSHELL BOX NIL BOXP\nEND\n")?;
    written(alloc, log.as_slice(), 4096)
}

/// What is written for so many shells.
fn with_shells(alloc: Global, count: u64) -> Result<Vec<u8>, AllocError> {
    let mut log = b"NQTHM-LOG 1\n".to_vec(alloc)?;
    for i in 0..count {
        let line = format!(in alloc; "SHELL C{i} NIL C{i}P\n")?;
        log.extend_from_slice(line.as_bytes())?;
    }
    log.extend_from_slice(b"END\n")?;
    written(alloc, log.as_slice(), 4096)
}

#[test]
fn shells_have_limits(rt: HostRuntime) -> Result<(), Fail> {
    for (found, verdict) in [
        (with_parts(rt.alloc(), 20)?, "Accepted, 1 claims.\n"),
        (
            with_parts(rt.alloc(), 21)?,
            "Refused, line 23: not allowed.\n",
        ),
        (with_recognizers(rt.alloc(), 100)?, "Accepted, 1 claims.\n"),
        (
            with_recognizers(rt.alloc(), 101)?,
            "Refused, line 3: not allowed.\n",
        ),
        (with_shells(rt.alloc(), 26)?, "Accepted, 26 claims.\n"),
        (
            with_shells(rt.alloc(), 27)?,
            "Refused, line 28: not allowed.\n",
        ),
    ] {
        assert!(rt; found.ends_with(verdict.as_bytes()), "{verdict}");
    }
    Ok(())
}
