//! Definitions of functions that call themselves.
use crate::checked::{Begun, expect_refused, expect_rows};
use std::test::Fail;

/// A log up to its 18th line: two axioms say that the length of a list is an ordinal, and that it falls behind CDR; the block
/// of G has X, `(COUNT X)`, `(CDR X)` and `(G (CDR X))` as its terms, and these axioms as its lines.
const BEGUN: Begun = Begun {
    log: "NQTHM-LOG 1
V X
A COUNT 1
A ORDINALP 2
AXIOMATIZE O 3
V X
A COUNT 1
A CDR 1
A COUNT 3
A ORD-LESSP 4 2
AXIOMATIZE P 5
F G 1
V X
A COUNT 1
A CDR 1
A G 3
EVENT O
EVENT P
",
    claims: "AXIOM O: (ORDINALP (COUNT X))
AXIOM P: (ORD-LESSP (COUNT (CDR X)) (COUNT X))
",
};

/// What stands behind these lines, and what is written for it.
const FALLS: [(&str, &str); 1] = [(
    "MEASURE 2 1 2\nDEFN G 4 1\nEND\n",
    "DEFN G: (EQUAL (G X) (G (CDR X)))\nAccepted, 3 claims.\n",
)];

/// What may not stand there.
const OTHERS: [(&str, u64); 16] = [
    // no measure, one for no call, and one for two
    ("DEFN G 4 1", 19),
    ("MEASURE 2 1\nDEFN G 4 1", 20),
    ("MEASURE 2 1 2 2\nDEFN G 4 1", 20),
    // lines that show something else
    ("MEASURE 2 1 1\nDEFN G 4 1", 20),
    ("MEASURE 2 2 2\nDEFN G 4 1", 20),
    ("MEASURE 1 1 2\nDEFN G 4 1", 20),
    // a measure that calls the function, and one that is not wanted
    ("MEASURE 4 1 2\nDEFN G 4 1", 20),
    ("MEASURE 2 1 2\nDEFN G 3 1", 20),
    // another line behind the measure, and lines that are not there
    ("MEASURE 2 1 2\nV Y", 20),
    ("MEASURE 2 1 3", 19),
    // another function, another closing line, and a rule that uses the function
    ("MEASURE 2 1 2\nDEFN H 4 1", 20),
    ("LEMMA L 3 1", 19),
    ("END", 19),
    ("F H 1", 19),
    ("REFL 4", 19),
    ("A G 1 1", 19),
];

#[test]
fn a_measure_falls_at_each_call(rt: HostRuntime) -> Result<(), Fail> {
    expect_rows(&rt, rt.alloc(), BEGUN, &FALLS)
}

#[test]
fn other_measures_are_refused(rt: HostRuntime) -> Result<(), Fail> {
    expect_refused(&rt, rt.alloc(), BEGUN, &OTHERS)
}
