// Counting forms as they are answered. Apart from the struct, whose ghost field may not lead to the totals.
ghost use Rattle.std.specs.Prelude.{◌≡◌, ◌+◌, ◌<◌, ◌^◌};
ghost use Rattle.nq_comment.specs.Totals.{no_forms, totals_in, unsuccessful, with_kind};

use crate::counts::Counts;
use crate::kind::Kind;

impl Counts {
    /// The counts before the first form.
    pub fn zero() -> Self
        ensures { totals_in result ≡ no_forms }
    {
        Counts {
            forms: 0,
            accepted: 0,
            refused: 0,
            failed: 0,
            skipped: 0,
        }
    }

    /// The counts with one form more.
    pub fn with(self, kind: Kind) -> Self
        requires { self.forms + 1 < 2 ^ 64 }
        ensures { totals_in result ≡ with_kind kind (totals_in self) }
    {
        let forms = self.forms + 1;
        let (accepted, refused) = (self.accepted, self.refused);
        let (failed, skipped) = (self.failed, self.skipped);
        match kind {
            Kind::Accepted => Counts {
                forms,
                accepted: accepted + 1,
                refused,
                failed,
                skipped,
            },
            Kind::Refused => Counts {
                forms,
                accepted,
                refused: refused + 1,
                failed,
                skipped,
            },
            Kind::Failed => Counts {
                forms,
                accepted,
                refused,
                failed: failed + 1,
                skipped,
            },
            Kind::Skipped => Counts {
                forms,
                accepted,
                refused,
                failed,
                skipped: skipped + 1,
            },
        }
    }

    /// How many forms were refused or failed.
    pub fn unsuccessful(self) -> u64
        ensures { result ≡ unsuccessful (totals_in self) }
    {
        self.refused + self.failed
    }
}
