//! What is tried of a goal, in which order, and with which share of the steps. It decides only what is tried.
use nq_history::Hints;
use nq_kernel::{MoveKind, Work};
use nq_search::Plan;

/// How many inductions may follow one another.
pub const INDUCTIONS: u32 = 4;

/// How many eliminations may follow one another before an induction.
const ELIMINATIONS: u32 = 5;

/// How many ways of a goal are tried.
pub const TURNS: u32 = 10;

/// What may be tried of a goal.
#[derive(Clone, Copy, Debug, PartialEq, Eq)]
pub enum Choice {
    /// The goal is taken apart.
    Part,
    /// A simplification.
    Simplify,
    /// Linear arithmetic on the goal's literals.
    Refute,
    /// An induction that the hints name.
    Hint,
    /// A move.
    Move(MoveKind),
    /// An induction by the scheme of this number.
    Induct(u32),
    /// Nothing.
    Nothing,
}

/// What is tried of a goal at a turn.
pub fn choice_of(hints: &Hints, plan: Plan, turn: u32) -> Choice {
    if plan.simplified {
        choice_of_simplified(hints, plan, turn)
    } else if plan.whole {
        choice_of_lemma(hints, turn)
    } else {
        choice_of_next(turn)
    }
}

/// What is tried at a turn of a goal that is not simplified yet.
fn choice_of_next(turn: u32) -> Choice {
    match turn {
        0 => Choice::Refute,
        1 => Choice::Simplify,
        _ => Choice::Nothing,
    }
}

/// The first step with a lemma. Beside instances it is taken apart first, so that of each instance what holds stands alone before terms
/// are rewritten.
fn first_step(hints: &Hints) -> Choice {
    if hints.instances.as_slice().is_empty() {
        Choice::Simplify
    } else {
        Choice::Part
    }
}

/// What is tried of a lemma at a turn.
fn choice_of_lemma(hints: &Hints, turn: u32) -> Choice {
    match turn {
        0 => hinted(hints),
        1 => first_step(hints),
        2 => Choice::Induct(0),
        3 => Choice::Induct(1),
        _ => Choice::Nothing,
    }
}

/// The induction that the hints name.
fn hinted(hints: &Hints) -> Choice {
    if hints.induct.is_some() {
        Choice::Hint
    } else {
        Choice::Nothing
    }
}

/// What is tried of a simplified goal at a turn.
fn choice_of_simplified(hints: &Hints, plan: Plan, turn: u32) -> Choice {
    match turn {
        0 => Choice::Refute,
        1 => first_induction(hints, plan),
        2 => Choice::Move(MoveKind::Subst),
        3 => eliminating(plan),
        4 => fertilizing(plan),
        5 => Choice::Move(MoveKind::Gen),
        6 => dropping(hints, plan),
        7 => Choice::Induct(0),
        8 => further_induction(plan, 1),
        9 => further_induction(plan, 2),
        _ => Choice::Nothing,
    }
}

/// The induction that the hints name, where it is the first.
fn first_induction(hints: &Hints, plan: Plan) -> Choice {
    if plan.inductions == INDUCTIONS {
        hinted(hints)
    } else {
        Choice::Nothing
    }
}

/// ELIM, a few times after an induction.
fn eliminating(plan: Plan) -> Choice {
    if plan.eliminations < ELIMINATIONS {
        Choice::Move(MoveKind::Elim)
    } else {
        Choice::Nothing
    }
}

/// FERT, after an induction.
fn fertilizing(plan: Plan) -> Choice {
    if plan.inducted {
        Choice::Move(MoveKind::Fert)
    } else {
        Choice::Nothing
    }
}

/// IRR, before an induction.
fn dropping(hints: &Hints, plan: Plan) -> Choice {
    if plan.inductions > 0 && !hints.no_induct {
        Choice::Move(MoveKind::Irr)
    } else {
        Choice::Nothing
    }
}

/// An induction by another scheme than the best, where few stand above.
fn further_induction(plan: Plan, turn: u32) -> Choice {
    if plan.inductions >= INDUCTIONS - 1 {
        Choice::Induct(turn)
    } else {
        Choice::Nothing
    }
}

/// The count of steps at which a share, in tenths, of those that are left to a plan ends.
pub fn share(work: &Work, plan: Plan, tenths: u64) -> u64 {
    let used = work.counter.used();
    let left = plan.until.saturating_sub(used);
    used.saturating_add((left / 10).saturating_mul(tenths))
}

/// The plan of goals to which a move leads.
pub fn plan_after_move(work: &Work, plan: Plan, kind: MoveKind, tenths: u64) -> Plan {
    match kind {
        MoveKind::Subst => Plan {
            whole: false,
            simplified: false,
            ..plan
        },
        MoveKind::Gen => Plan {
            whole: false,
            simplified: false,
            inducted: false,
            until: share(work, plan, tenths),
            ..plan
        },
        MoveKind::Irr => Plan {
            whole: false,
            until: share(work, plan, tenths),
            ..plan
        },
        MoveKind::Fert => further(work, plan, tenths),
        MoveKind::Elim => Plan {
            eliminations: plan.eliminations.saturating_add(1),
            ..further(work, plan, tenths)
        },
        MoveKind::Simp => further(work, plan, tenths),
        MoveKind::Ind => further(work, plan, tenths),
    }
}

/// The plan of goals to which another move leads.
fn further(work: &Work, plan: Plan, tenths: u64) -> Plan {
    Plan {
        whole: false,
        simplified: false,
        until: share(work, plan, tenths),
        ..plan
    }
}

/// The plan of goals to which an induction leads.
pub fn plan_after_induction(work: &Work, plan: Plan, tenths: u64) -> Plan {
    Plan {
        whole: false,
        simplified: false,
        inducted: true,
        inductions: plan.inductions.saturating_sub(1),
        eliminations: 0,
        until: share(work, plan, tenths),
        ..plan
    }
}
