ghost use Rattle.std.specs.Prelude.{◌≡◌, ◌+◌};

/// How many forms were run, and how they were answered: the numbers of the summary line.
#[derive(Clone, Copy, Debug, PartialEq, Eq)]
pub struct Counts {
    /// All forms.
    pub forms: u64,
    /// Those that were accepted, proved or undone.
    pub accepted: u64,
    /// Those that were refused.
    pub refused: u64,
    /// Those that failed, or ran out of steps.
    pub failed: u64,
    /// Those that were passed over.
    pub skipped: u64,
    ghost sums: { accepted + refused + failed + skipped ≡ forms },
}
