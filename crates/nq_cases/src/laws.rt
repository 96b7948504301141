//! Goals that stand for goals.
ghost use Rattle.nq_cases.specs.Laws.{ReplacedLiteral, RewritingSimplifies, SplitsSimplify, CasesSimplify};
ghost use Rattle.nq_cases.specs.CountLaws.{SplitsCount};

/// A goal implies the goal with an equal literal in the place of one.
pub fn replaced_literal()
    ensures implies { ReplacedLiteral }
    ensures simplifies { RewritingSimplifies }
{}

/// The goals at which splits of a goal end stand for it.
pub fn splits_simplify()
    ensures { SplitsSimplify }
{}

/// The cases of a term together are equivalent to it.
pub fn cases_simplify()
    ensures { CasesSimplify }
{}

/// Splits lead to at most one goal for each path of a goal.
pub fn splits_count()
    ensures { SplitsCount }
{}
