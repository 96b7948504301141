//! Laws of clauses of variables and NOTs of variables. The bodies are empty: what a caller gets is the law.
ghost use Rattle.nq_decided.specs.FailedFalsehoods.{FalsehoodsFail};
ghost use Rattle.nq_decided.specs.Falsehoods.{FalsehoodsSimplify};
ghost use Rattle.nq_decided.specs.Laws.{ClausesAreNormal, LiteralsAreDropped};

/// Such a clause is normal.
pub fn normal_clauses()
    ensures { ClausesAreNormal }
{}

/// Its first literal can be dropped.
pub fn dropped_literals()
    ensures { LiteralsAreDropped }
{}

/// A proposition over variables says what the clauses of its false assignments say together.
pub fn simplified_falsehoods()
    ensures { FalsehoodsSimplify }
{}

/// One that is false under some assignment fails: a SIMP leads to those clauses, and IRR from each of them down to one literal.
pub fn failed_falsehoods()
    ensures { FalsehoodsFail }
{}
