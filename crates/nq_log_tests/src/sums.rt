//! Linear sums.
use crate::checked::{Begun, expect_rows};
use std::test::Fail;

/// A and B, `(NOT (LESSP A B))` as term 4, `(NOT (LESSP B A))` as term 6, and `(NOT (EQUAL A B))` as term 8.
const TERMS: Begun = Begun {
    log: "NQTHM-LOG 1
V A
V B
A LESSP 1 2
A NOT 3
A LESSP 2 1
A NOT 5
A EQUAL 1 2
A NOT 7
",
    claims: "",
};

/// A line behind these terms, and whether it is allowed: then the next line is missing.
const SUMS: [(&str, &str); 12] = [
    (
        "LINEAR 1 4 + 1 6 +\n",
        "Refused, line 11: unexpected end.\n",
    ),
    (
        "LINEAR 3 4 + 3 6 +\n",
        "Refused, line 11: unexpected end.\n",
    ),
    (
        "LINEAR 1 4 + 1 8 +\n",
        "Refused, line 11: unexpected end.\n",
    ),
    (
        "LINEAR 1 6 + 1 8 -\n",
        "Refused, line 11: unexpected end.\n",
    ),
    ("LINEAR 1 4 + 2 6 +\n", "Refused, line 10: not allowed.\n"),
    ("LINEAR 1 4 + 1 8 -\n", "Refused, line 10: not allowed.\n"),
    ("LINEAR 0 4 + 0 6 +\n", "Refused, line 10: not allowed.\n"),
    (
        "LINEAR 9223372036854775808 4 + 9223372036854775808 6 +\n",
        "Refused, line 10: not allowed.\n",
    ),
    ("LINEAR 1 4 - 1 6 +\n", "Refused, line 10: not allowed.\n"),
    ("LINEAR 1 1 +\n", "Refused, line 10: not allowed.\n"),
    ("LINEAR 1 9 +\n", "Refused, line 10: not allowed.\n"),
    ("LINEAR\n", "Refused, line 10: not allowed.\n"),
];

#[test]
fn a_sum_is_allowed_where_it_is_negative(rt: HostRuntime) -> Result<(), Fail> {
    expect_rows(&rt, rt.alloc(), TERMS, &SUMS)
}
