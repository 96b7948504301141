//! Goals that the free search closes. What it finds is a line with only literals of the goal; of the way nothing is shown.
use nq_bank::TermId;
use nq_history::{Hints, History};
use nq_kernel::{Stop, Work};
use nq_legal::Closer;
use nq_rule_table::Rules;
use nq_search::{Plan, seek};
use nq_tactic::Waterfall;

/// Into how many parts the steps that are left are divided of which a search gets one.
const PARTS: u64 = 4;

/// The share, in tenths, of the steps that are left, which a way of a goal gets where others follow.
const SHARE: u64 = 5;

/// How many ways of a goal may be tried.
const TURNS: u32 = 10;

/// Closes goals by the free search. A search takes no more than a part of the steps that are left.
#[derive(Clone, Copy)]
pub struct SearchCloser<'a> {
    /// The rules of the history.
    pub rules: &'a Rules,
}

/// The plan of a search with a part of the steps that are left.
fn plan_of(work: &Work) -> Plan {
    let used = work.counter.used();
    let left = work.counter.limit().saturating_sub(used);
    Plan {
        levels: 30,
        inductions: 2,
        turns: TURNS,
        whole: false,
        simplified: false,
        inducted: false,
        eliminations: 0,
        until: used.saturating_add(left / PARTS),
    }
}

impl<'a> Closer for SearchCloser<'a> {
    fn close(
        &mut self,
        work: &mut Work,
        history: &History,
        hints: &Hints,
        goal: &[TermId],
    ) -> Result<Option<u64>, Stop> {
        let plan = plan_of(work);
        let mut tactic = Waterfall::new(work.bank.alloc(), self.rules, SHARE);
        let found = seek(work, &mut tactic, history, hints, plan, goal)?;
        Ok(found)
    }
}
