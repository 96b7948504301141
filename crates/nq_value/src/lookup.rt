//! The row of a symbol.
ghost use Rattle.std.specs.Prelude.{◌≡◌, true, All, IfSome, is_some};
ghost use Rattle.nq_logic.specs.Names.{has_name};
ghost use Rattle.nq_bank.specs.Content.{IsNamed, text_at};
ghost use Rattle.nq_value.specs.RowNames.{row_name};
ghost use Rattle.nq_value.specs.Rows.{table_names, names_of, are_named, IsNamedRow};

use crate::row::{Accessor, Arithmetic, Comparison, Connective, Row, RowOfOne, RowOfTwo, Test};
use nq_bank::{Bank, Sym, ground};

/// The rows, in the order of the table.
const ROWS: [(Sym, Row); 35] = [
    (ground::TRUEP, Row::One(RowOfOne::Test(Test::Truep))),
    (ground::FALSEP, Row::One(RowOfOne::Test(Test::Falsep))),
    (ground::NUMBERP, Row::One(RowOfOne::Test(Test::Numberp))),
    (ground::LISTP, Row::One(RowOfOne::Test(Test::Listp))),
    (ground::LITATOM, Row::One(RowOfOne::Test(Test::Litatom))),
    (ground::NEGATIVEP, Row::One(RowOfOne::Test(Test::Negativep))),
    (ground::SUB1, Row::One(RowOfOne::Sub1)),
    (ground::CAR, Row::One(RowOfOne::Accessor(Accessor::Car))),
    (ground::CDR, Row::One(RowOfOne::Accessor(Accessor::Cdr))),
    (
        ground::UNPACK,
        Row::One(RowOfOne::Accessor(Accessor::Unpack)),
    ),
    (
        ground::NEGATIVE_GUTS,
        Row::One(RowOfOne::Accessor(Accessor::NegativeGuts)),
    ),
    (ground::ADD1, Row::One(RowOfOne::Add1)),
    (ground::MINUS, Row::One(RowOfOne::Minus)),
    (ground::NOT, Row::One(RowOfOne::Test(Test::Not))),
    (ground::NLISTP, Row::One(RowOfOne::Test(Test::Nlistp))),
    (ground::ZEROP, Row::One(RowOfOne::Test(Test::Zerop))),
    (ground::FIX, Row::One(RowOfOne::Fix)),
    (ground::IDENTITY, Row::One(RowOfOne::Identity)),
    (ground::COUNT, Row::One(RowOfOne::Count)),
    (ground::EQUAL, Row::Two(RowOfTwo::Equal)),
    (ground::AND, Row::Two(RowOfTwo::Connective(Connective::And))),
    (ground::OR, Row::Two(RowOfTwo::Connective(Connective::Or))),
    (
        ground::IMPLIES,
        Row::Two(RowOfTwo::Connective(Connective::Implies)),
    ),
    (ground::IFF, Row::Two(RowOfTwo::Connective(Connective::Iff))),
    (ground::MAX, Row::Two(RowOfTwo::Max)),
    (
        ground::PLUS,
        Row::Two(RowOfTwo::Arithmetic(Arithmetic::Plus)),
    ),
    (
        ground::TIMES,
        Row::Two(RowOfTwo::Arithmetic(Arithmetic::Times)),
    ),
    (
        ground::DIFFERENCE,
        Row::Two(RowOfTwo::Arithmetic(Arithmetic::Difference)),
    ),
    (
        ground::QUOTIENT,
        Row::Two(RowOfTwo::Arithmetic(Arithmetic::Quotient)),
    ),
    (
        ground::REMAINDER,
        Row::Two(RowOfTwo::Arithmetic(Arithmetic::Remainder)),
    ),
    (
        ground::LESSP,
        Row::Two(RowOfTwo::Comparison(Comparison::Lessp)),
    ),
    (
        ground::GREATERP,
        Row::Two(RowOfTwo::Comparison(Comparison::Greaterp)),
    ),
    (ground::LEQ, Row::Two(RowOfTwo::Comparison(Comparison::Leq))),
    (ground::GEQ, Row::Two(RowOfTwo::Comparison(Comparison::Geq))),
    (ground::IF, Row::If),
];

/// The table.
fn rows() -> [(Sym, Row); 35]
    ensures names { names_of result ≡ table_names }
    ensures rows { are_named result ≡ true }
{
    ROWS
}

/// The row of a function among these.
fn row_among(bank: &Bank, rows: &[(Sym, Row)], f: Sym) -> Option<Row>
    requires rows { All IsNamedRow rows.now }
    requires function { IsNamed bank.now f }
    ensures found { is_some result ≡ has_name (text_at bank.now f) (names_of rows.now) }
    ensures row { IfSome result (λ r. text_at bank.now f ≡ row_name r) }
{
    for known in rows {
        if bank.is_ground(f, known.0) {
            return Some(known.1);
        }
    }
    None
}

/// The row of a function in the table.
pub fn row_of(bank: &Bank, f: Sym) -> Option<Row>
    requires { IsNamed bank.now f }
    ensures found { is_some result ≡ has_name (text_at bank.now f) table_names }
    ensures row { IfSome result (λ r. text_at bank.now f ≡ row_name r) }
{
    row_among(bank, &rows(), f)
}
