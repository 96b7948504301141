use crate::text::Text;

/// Which way round an equation is used.
#[derive(Clone, Copy, Debug, PartialEq, Eq)]
pub enum Sign {
    /// `+`: as it stands.
    Plus,
    /// `-`: with its sides exchanged.
    Minus,
}

/// Whether a part of a shell is of one of the recognizers, or of none.
#[derive(Clone, Copy, Debug, PartialEq, Eq)]
pub enum Mode {
    /// `ONE-OF`
    OneOf,
    /// `NONE-OF`
    NoneOf,
}

/// The version of a log, which its first line tells.
#[derive(Clone, Copy, Debug, PartialEq, Eq)]
pub enum Version {
    /// `1`
    First,
}

/// A variable and the term that stands for it, each by the number of its term line.
#[derive(Clone, Copy, Debug)]
pub struct Binding {
    pub variable: u64,
    pub term: u64,
}

/// A term with its factor in a sum, and the side on which its expression is read.
#[derive(Clone, Copy, Debug)]
pub struct Multiple {
    pub factor: u64,
    pub term: u64,
    pub sign: Sign,
}

/// A line of a log, with its fields in their order.
///
/// Terms and lines are told by their numbers, which count from 1 in each block. Each variant is a first word. A line is
/// here where the grammar has it: whether it is allowed is judged by the lines before it.
#[derive(Drop)]
pub enum LogLine {
    /// `NQTHM-LOG`, the first line.
    Header {
        version: Version,
    },
    /// `END`, the last line.
    End,
    /// `F`: the function that the block's definition defines.
    Function {
        function: Text,
        arity: u64,
    },
    /// `V`: the next term is this variable.
    Variable {
        name: Text,
    },
    /// `N`: the next term is this numeral, below 2^128.
    Numeral {
        value: u128,
    },
    /// `A`: the next term is this call.
    Call {
        function: Text,
        arguments: Vec<u64>,
    },
    /// `TAUT`: the terms, of which one is the negation of another.
    Taut {
        terms: Vec<u64>,
    },
    /// `AXIOM`: a row of the axioms of this name, and in it the part, or 0 where the row has none.
    Axiom {
        name: Text,
        row: u64,
        part: u64,
    },
    /// `EVENT`: the term of the axiom or lemma of this name.
    Event {
        name: Text,
    },
    /// `WEAKEN`: the line with more literals.
    Weaken {
        line: u64,
        terms: Vec<u64>,
    },
    /// `CUT`: the first line without the term, and the second without its negation.
    Cut {
        first: u64,
        second: u64,
        term: u64,
    },
    /// `INST`: the line with its variables replaced.
    Inst {
        line: u64,
        bindings: Vec<Binding>,
    },
    /// `REFL`: the term equals itself.
    Refl {
        term: u64,
    },
    /// `REPLACE`: the line with the term at a path in one of its literals, under the equation of the two terms. A path is
    /// a list of argument places from 1; the empty one is the literal itself. Literals count from 1.
    Replace {
        line: u64,
        literal: u64,
        path: Vec<u64>,
        term: u64,
        sign: Sign,
    },
    /// `JOIN`: two lines under a test and its negation as one line with an IF.
    Join {
        first: u64,
        second: u64,
        test: u64,
        left: u64,
        right: u64,
    },
    /// `SPLIT`: the line with one side of an IF, 1 or 2, in the place of this literal.
    Split {
        line: u64,
        literal: u64,
        side: u64,
    },
    /// `NOTNOT`: the line with a literal freed of two NOTs.
    NotNot {
        line: u64,
        literal: u64,
    },
    /// `VALUE`: a call on values equals its value.
    Value {
        term: u64,
    },
    /// `LINEAR`: terms that cannot all be false, by a sum of their expressions.
    Linear {
        multiples: Vec<Multiple>,
    },
    /// `INDUCT`: the goal, by the cases before it, the line that says that the measure is an ordinal, and the base line.
    Induct {
        goal: u64,
        measure: u64,
        ordinal: u64,
        base: u64,
    },
    /// `DROP`: the line is used no more.
    Drop {
        line: u64,
    },
    /// `CASE`: a case of the next induction, by its test and its step line.
    Case {
        test: u64,
        line: u64,
    },
    /// `HYP`: an instance that the last case uses, and the line that says that the measure falls there.
    Hyp {
        line: u64,
        bindings: Vec<Binding>,
    },
    /// `BOOT-STRAP`: back to the ground history.
    BootStrap,
    /// `SHELL`: a shell of the parts before it. The base NIL stands for none.
    Shell {
        constructor: Text,
        base: Text,
        recognizer: Text,
    },
    /// `PART`: a part of the block's shell, with its restriction and default.
    Part {
        accessor: Text,
        mode: Mode,
        default: Text,
        recognizers: Vec<Text>,
    },
    /// `DCL`: a function without axioms.
    Dcl {
        function: Text,
        arity: u64,
    },
    /// `AXIOMATIZE`: the term is an axiom from here on.
    Axiomatize {
        name: Text,
        term: u64,
    },
    /// `LEMMA`: the term, which the line shows.
    Lemma {
        name: Text,
        term: u64,
        line: u64,
    },
    /// `DEFN`: the definition of a function, by its body and its formals, which are variables.
    Defn {
        function: Text,
        body: u64,
        formals: Vec<u64>,
    },
    /// `MEASURE`: why the next line's definition ends: the measure, the line that says that it is an ordinal, and for
    /// each recursive call the line that says that it falls.
    Measure {
        measure: u64,
        ordinal: u64,
        lines: Vec<u64>,
    },
    /// `TOGGLE`: the old event is disabled for 1, enabled for 0.
    Toggle {
        name: Text,
        old: Text,
        disables: u64,
    },
    /// `UNDO`: the event of this name and all later ones are gone.
    Undo {
        name: Text,
    },
}
