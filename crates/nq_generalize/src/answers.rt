//! Answers of tests, as functions of their own so that their contracts say them in a loop.
ghost use Rattle.std.specs.Prelude.{◌≡◌, ◌||◌, ◌&&◌, ◌<◌, ◌^◌, not, suc, if◌then◌else◌};

/// Is one of them true?
pub fn is_either(left: bool, right: bool) -> bool
    ensures { result ≡ (left || right) }
{
    left || right
}

/// Are both true?
pub fn is_both(left: bool, right: bool) -> bool
    ensures { result ≡ (left && right) }
{
    left && right
}

/// Is neither true?
pub fn is_neither(left: bool, right: bool) -> bool
    ensures { result ≡ (not left && not right) }
{
    !left && !right
}

/// The count with one more, if it is so here.
pub fn counted(count: u64, here: bool) -> u64
    requires { suc count < 2 ^ 64 }
    ensures { result ≡ (if here then suc count else count) }
{
    if here { count + 1 } else { count }
}
