//! The functions of the table of values.

/// A row, by the number of its arguments.
#[derive(Clone, Copy, Debug, PartialEq, Eq)]
pub enum Row {
    One(RowOfOne),
    Two(RowOfTwo),
    /// IF
    If,
}

/// A function of one argument.
#[derive(Clone, Copy, Debug, PartialEq, Eq)]
pub enum RowOfOne {
    Test(Test),
    Accessor(Accessor),
    Sub1,
    Fix,
    Add1,
    Minus,
    Identity,
    Count,
}

/// A function of one argument that gives T or F.
#[derive(Clone, Copy, Debug, PartialEq, Eq)]
pub enum Test {
    Truep,
    Falsep,
    Numberp,
    Listp,
    Litatom,
    Negativep,
    Not,
    Nlistp,
    Zerop,
}

/// A function that gives a part of a value.
#[derive(Clone, Copy, Debug, PartialEq, Eq)]
pub enum Accessor {
    Car,
    Cdr,
    Unpack,
    NegativeGuts,
}

/// A function of two arguments.
#[derive(Clone, Copy, Debug, PartialEq, Eq)]
pub enum RowOfTwo {
    Equal,
    Connective(Connective),
    Comparison(Comparison),
    Arithmetic(Arithmetic),
    Max,
}

/// A function of two truth values.
#[derive(Clone, Copy, Debug, PartialEq, Eq)]
pub enum Connective {
    And,
    Or,
    Implies,
    Iff,
}

/// A function that compares two numbers.
#[derive(Clone, Copy, Debug, PartialEq, Eq)]
pub enum Comparison {
    Lessp,
    Greaterp,
    Leq,
    Geq,
}

/// A function that makes a number of two.
#[derive(Clone, Copy, Debug, PartialEq, Eq)]
pub enum Arithmetic {
    Plus,
    Times,
    Difference,
    Quotient,
    Remainder,
}
