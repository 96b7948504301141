use crate::sample_text;
use std::test::Fail;

const TWO_EVENTS: &str = "(BOOT-STRAP NQTHM)
(DEFN S1 (X) (IF (LISTP X) (ADD1 (S1 (CDR X))) 99))
(PROVE-LEMMA S2 NIL (IMPLIES (AND P Q) (OR Q R)))
";

const TEN_EVENTS: &str = "(BOOT-STRAP NQTHM)
(PROVE-LEMMA S1 NIL (IMPLIES (AND P Q) (OR Q R)))
(DEFN S2 (X Y) (PLUS X (TIMES 83 Y)))
(DEFN S3 (X) (IF (LISTP X) (ADD1 (S3 (CDR X))) 89))
(PROVE-LEMMA S4 NIL (IMPLIES (AND P Q) (OR Q R)))
(DEFN S5 (X Y) (PLUS X (TIMES 56 Y)))
(DEFN S6 (X Y) (PLUS X (TIMES 0 Y)))
(PROVE-LEMMA S7 NIL (EQUAL (PLUS 25 38) 63))
(PROVE-LEMMA S8 NIL (IMPLIES (AND P Q) (OR Q R)))
(PROVE-LEMMA S9 NIL (EQUAL (PLUS 92 84) 176))
(DEFN S10 (X Y) (PLUS X (TIMES 39 Y)))
";

// The seed, the size, and the text. A seed counts modulo 65537.
const SAMPLES: [(u64, u64, &str); 3] = [
    (7, 2, TWO_EVENTS),
    (65_544, 2, TWO_EVENTS),
    (1, 10, TEN_EVENTS),
];

#[test]
fn samples_have_their_texts(rt: HostRuntime) -> Result<(), Fail> {
    for (seed, size, want) in SAMPLES {
        let text = sample_text(rt.alloc(), seed, size)?;
        assert_eq!(rt; text.as_str(), want, "seed {seed}, size {size}");
    }
    Ok(())
}

#[test]
fn large_samples_end_in_their_last_event(rt: HostRuntime) -> Result<(), Fail> {
    let text = sample_text(rt.alloc(), 1, 500)?;
    let last = "\n(PROVE-LEMMA S500 NIL (EQUAL (PLUS 32 79) 111))\n";
    assert!(rt; text.as_str().ends_with(last));
    Ok(())
}
