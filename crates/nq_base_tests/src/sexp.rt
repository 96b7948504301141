//! The reader.
ghost use Rattle.std.specs.Prelude.{◌≤◌};

use bumpalo::Bump;
use nq_io::{MemSource, SureSource};
use nq_sexp::{ReadFault, Reader, Sexp, read_all};
use std::alloc::{AllocError, Global};
use std::test::Fail;

/// How many forms a text has, and the fault at its end.
fn count_forms(
    alloc: Global,
    text: &[u8],
    piece: usize,
    fails: u64,
) -> Result<(u8, Option<ReadFault>), AllocError>
    requires { 1 ≤ piece }
{
    let mut source = MemSource::new(text.to_vec(alloc)?, piece, [fails].to_vec(alloc)?);
    let mut arena = Bump::new(alloc);
    let mut reader = Reader::new(alloc);
    let mut count = 0u8;
    for _ in 0..100u8 {
        if !reader.is_live() {
            break;
        }
        match reader.next(&arena, &mut source) {
            Ok(Some(_)) => count = count.saturating_add(1),
            Ok(None) => return Ok((count, None)),
            Err(fault) => return Ok((count, Some(fault))),
        }
        let _ = arena.reset();
    }
    Ok((count, None))
}

#[test]
fn texts_are_read_in_any_pieces(rt: HostRuntime) -> Result<(), Fail> {
    for (text, count, fault) in [
        (b"".as_slice(), 0, None),
        (b"; x", 0, None),
        (
            b"(boot-strap nqthm) #| a #| b |# |# x 'y\"z\"(a . 'b)",
            5,
            None,
        ),
        (b"(BOOT-STRAP NQTHM", 0, Some(ReadFault::Unbalanced(0))),
        (b"(A) (B (C)", 1, Some(ReadFault::Unbalanced(4))),
        (b"A ')", 1, Some(ReadFault::Unbalanced(3))),
        (b"' \"abc", 0, Some(ReadFault::Unbalanced(2))),
        (b"A #| b", 1, Some(ReadFault::Unbalanced(2))),
        (b"(A ')", 0, Some(ReadFault::BadToken(4))),
        (b"A ''", 1, Some(ReadFault::BadToken(3))),
        (b"(A . B C)", 0, Some(ReadFault::BadToken(3))),
        (b"(A . B . C)", 0, Some(ReadFault::BadToken(7))),
        (b"(A 1X", 0, Some(ReadFault::BadToken(3))),
        (b"(A #", 0, Some(ReadFault::BadToken(3))),
        (
            b"(PROVE-LEMMA W NIL (NUMBERP 340282366920938463463374607431768211456))",
            0,
            Some(ReadFault::NumeralTooWide(28)),
        ),
    ] {
        for piece in [1, 7, 100] {
            let found = count_forms(rt.alloc(), text, piece, 0)?;
            assert_eq!(rt; found, (count, fault), "in pieces of {piece}");
        }
    }
    Ok(())
}

#[test]
fn forms_nest_to_500_levels(rt: HostRuntime) -> Result<(), Fail> {
    let alloc = rt.alloc();
    let mut text = [b'('; 500].to_vec(alloc)?;
    text.extend_from_slice(&[b')'; 500])?;
    assert_eq!(rt; count_forms(alloc, &text, 64, 0)?, (1, None));
    let deeper = [b'\''; 501].to_vec(alloc)?;
    assert_eq!(rt;
        count_forms(alloc, &deeper, 64, 0)?,
        (0, Some(ReadFault::TooDeep(500)))
    );
    Ok(())
}

#[test]
fn a_failing_source_is_told(rt: HostRuntime) -> Result<(), Fail> {
    let found = count_forms(rt.alloc(), b"(A)\n(B)\n(C)", 4, 3)?;
    assert_eq!(rt; found, (2, Some(ReadFault::Read)));
    let cut = count_forms(rt.alloc(), b"(A) B", 100, 2)?;
    assert_eq!(rt; cut, (1, Some(ReadFault::Read)), "the symbol may go on");
    Ok(())
}

#[test]
fn a_source_is_not_asked_again_behind_its_end(rt: HostRuntime) -> Result<(), Fail> {
    let found = count_forms(rt.alloc(), b"(A) B", 100, 3)?;
    assert_eq!(rt; found, (2, None));
    Ok(())
}

fn is_symbol(form: &Sexp<'_>, name: &[u8]) -> bool {
    match form {
        Sexp::Symbol(found) => *found == name,
        _ => false,
    }
}

fn is_numeral(form: &Sexp<'_>, negative: bool, magnitude: u128) -> bool {
    match form {
        Sexp::Numeral(sign, n) => *sign == negative && *n == magnitude,
        _ => false,
    }
}

fn is_text(form: &Sexp<'_>, text: &[u8]) -> bool {
    match form {
        Sexp::Str(found) => *found == text,
        _ => false,
    }
}

#[test]
fn each_kind_of_form_is_read(rt: HostRuntime) -> Result<(), Fail> {
    let alloc = rt.alloc();
    let arena = Bump::new(alloc);
    let mut source = SureSource::new(b"plus-2 -0 +7 -12 \"a\\\"b\"".to_vec(alloc)?);
    let forms = read_all(alloc, &arena, &mut source)?;
    assert_eq!(rt; forms.len(), 5);
    assert!(rt; is_symbol(&forms[0], b"PLUS-2"));
    assert!(rt; is_numeral(&forms[1], false, 0));
    assert!(rt; is_numeral(&forms[2], false, 7));
    assert!(rt; is_numeral(&forms[3], true, 12));
    assert!(rt; is_text(&forms[4], b"a\"b"));
    Ok(())
}
