//! Parts without a restriction.
ghost use Rattle.std.specs.Prelude.{◌≡◌};
ghost use Rattle.nq_bank.specs.Content.{Content};
ghost use Rattle.nq_bank.specs.Shells.{part_at};
ghost use Rattle.nq_part_lines.specs.Defaults.{is_free};

use nq_bank::Part;

/// Has a part no restriction?
pub fn is_free(part: &Part) -> bool
    ensures { (bank : Content) → result ≡ is_free (part_at bank part.now).restriction }
{
    !part.one_of && part.recognizers.is_empty()
}
