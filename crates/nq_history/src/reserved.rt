//! The names that are in use in every history.
ghost use Rattle.std.specs.Prelude.{◌≡◌, ◌<◌, ◌+◌, ◌^◌, length, bytes_eq};
ghost use Rattle.std.specs.List.{list_any};
ghost use Rattle.nq_logic.specs.Names.{ends_nest, is_nest, is_reserved};

/// The constants that are written as symbols, the abbreviations, and the functions that the logic leaves out.
const RESERVED_NAMES: [&[u8]; 16] = [
    b"T",
    b"F",
    b"NIL",
    b"QUOTE",
    b"LIST",
    b"COND",
    b"CASE",
    b"LET",
    b"OTHERWISE",
    b"FOR",
    b"V&C$",
    b"EVAL$",
    b"APPLY$",
    b"SUBRP",
    b"BODY",
    b"FORMALS",
];

/// Is the name among these?
fn is_among(names: &[&[u8]], name: &[u8]) -> bool
    ensures { result ≡ list_any (λ known. bytes_eq name.now known.now) names.now }
{
    names.iter().any(|known| name == *known)
}

/// A and D, in all at least two with the count before them, and then R.
fn ends_nest(count: usize, rest: &[u8]) -> bool
    requires { count + length rest.now < 2 ^ 64 }
    ensures { result ≡ ends_nest count rest.now }
{
    match rest {
        [b'R'] => count >= 2,
        [b'A' | b'D', more @ ..] => ends_nest(count + 1, more),
        _ => false,
    }
}

/// Does the name abbreviate a nest of CAR and CDR: C, two or more of A and D, and R?
fn is_nest(name: &[u8]) -> bool
    ensures { result ≡ is_nest name.now }
{
    match name {
        [b'C', rest @ ..] => ends_nest(0, rest),
        _ => false,
    }
}

/// Is the name in use in every history? These are the constants T, F and NIL, the abbreviations, the nests of CAR and CDR,
/// and the functions that the logic leaves out.
pub fn is_reserved(name: &[u8]) -> bool
    ensures { result ≡ is_reserved name.now }
{
    is_among(&RESERVED_NAMES, name) || is_nest(name)
}
