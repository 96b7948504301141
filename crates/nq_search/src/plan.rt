//! How long a search goes on. It decides only what is tried.

/// What a search may still do with a goal, and what is known of the goal.
#[derive(Clone, Copy, Debug)]
pub struct Plan {
    /// How many ways may follow one another.
    pub levels: u32,
    /// How many inductions may be among them.
    pub inductions: u32,
    /// How many ways of a goal may be tried.
    pub turns: u32,
    /// The goal is the lemma itself.
    pub whole: bool,
    /// The goal is simplified.
    pub simplified: bool,
    /// The goal came from an induction, and was not generalized since.
    pub inducted: bool,
    /// How many eliminations there were since the last induction.
    pub eliminations: u32,
    /// The count of steps at which the search ends.
    pub until: u64,
}
