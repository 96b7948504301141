use nq_bank::{Sym, TermId};
use nq_clause::Pair;
use nq_linear_rule::Summand;
use nq_rule::{Branches, CaseOfInduction, Side};

/// A rule line of the log. A line is cited by its number, and a literal of it by its place, both from 1.
#[derive(Drop)]
pub enum Rule {
    /// TAUT: these terms, where some t and `(NOT t)` are among them.
    Taut(Vec<TermId>),
    /// AXIOM: the clause that stands in the tables of axioms under this name, in this row, for the part or the earlier shell of
    /// this number, or for neither where it is 0.
    AxiomRow(Sym, u64, u64),
    /// EVENT: the term of the axiom or lemma of this name.
    EventTerm(Sym),
    /// WEAKEN: the line, and then the terms.
    Weaken(u64, Vec<TermId>),
    /// CUT: the first line without t, and then the second without `(NOT t)`.
    Cut(u64, u64, TermId),
    /// INST: the line with terms in place of distinct variables.
    Instance(u64, Vec<Pair>),
    /// REFL: `(EQUAL t t)`.
    Reflexive(TermId),
    /// REPLACE: a literal of the line with the term at a path of argument places, and then the equation of what stood there
    /// and the term, as a hypothesis.
    Replace(u64, u64, Vec<u64>, TermId, Side),
    /// JOIN: the first line without the NOT of the test and the first branch, the second without the test and the second
    /// branch, and then the IF.
    Join(u64, u64, Branches),
    /// SPLIT on the first side: the NOT of the test and the first branch in the place of a literal that is an IF.
    SplitFirst(u64, u64),
    /// SPLIT on the second side: the test and the second branch in the place of a literal that is an IF.
    SplitSecond(u64, u64),
    /// NOTNOT: what stands under two NOTs in the place of a literal.
    NotNot(u64, u64),
    /// VALUE: `(EQUAL t v)`, where t is a call on values, and v its value by the table of values.
    Value(TermId),
    /// LINEAR: these terms, each so many times, where the sum of their expressions is negative.
    Linear(Vec<Summand>),
    /// INDUCT: the claim, by its measure, with the line that says that the measure is an ordinal, the line of the base case,
    /// and the cases.
    Induct(TermId, TermId, u64, u64, Vec<CaseOfInduction>),
}

/// A line of a log: its rule, the clause that the rule gave, and whether it stands still.
#[derive(Drop)]
pub struct Line {
    /// The rule by which it was added.
    pub rule: Rule,
    /// The literals of its clause, each once.
    pub clause: Vec<TermId>,
    /// Whether it may still be cited: it was not dropped.
    pub stands: bool,
}
