//! What the moves' definitions promise. Each function's contract is a law and its body is empty.
ghost use Rattle.nq_moves.specs.Laws.{ExchangedBack, CandidatesAreEquations, SubstitutedIsMove, DroppedIsMove, ArgumentsFollow, SeveralAreNoNumeral, NewVariablesAreNew, SubstitutedLasts};
ghost use Rattle.nq_moves.specs.Ways.{WaysLast};

/// Terms that new variables have replaced come back by an instance.
pub fn exchanged_back()
    ensures { ExchangedBack }
{}

/// A candidate of SUBST is a literal of the goal that denies its equation.
pub fn candidates_are_equations()
    ensures { CandidatesAreEquations }
{}

/// What the calls promise of ids are moves of the goals that these denote.
pub fn calls_make_moves()
    ensures substituted { SubstitutedIsMove }
    ensures dropped { DroppedIsMove }
{}

/// The arguments of a call are replaced one after the other.
pub fn arguments_follow()
    ensures next { ArgumentsFollow }
    ensures several { SeveralAreNoNumeral }
{}

/// New variables are new.
pub fn new_variables_are_new()
    ensures { NewVariablesAreNew }
{}

/// A move that was made lasts.
pub fn moves_last()
    ensures { SubstitutedLasts }
{}

/// A way back serves however the work grows.
pub fn ways_last()
    ensures { WaysLast }
{}
