//! What ready histories tell of their shells.
ghost use Rattle.nq_part_lines.specs.KnownLaws.{ReadyRows, UserNamesAreNew, UsersAreKnown};

/// Tells a caller's proof that the rows of shells are there, that each user's shell is known, and that the names of users' shells are
/// new. It does nothing.
pub fn known_shells()
    ensures rows { ReadyRows }
    ensures known { UsersAreKnown }
    ensures names { UserNamesAreNew }
{}
