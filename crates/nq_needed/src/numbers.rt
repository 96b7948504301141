//! The numbers that lines have in another log.
ghost use Rattle.std.specs.Prelude.{◌≡◌};
ghost use Rattle.nq_needed.specs.Renumbering.{number_in};

/// The new number of a line, or 0 where it has none.
pub fn number_at(numbers: &[u64], line: u64) -> u64
    ensures { result ≡ number_in numbers.now line }
{
    if line == 0 {
        return 0;
    }
    match numbers.get((line - 1) as usize) {
        Some(n) => *n,
        None => 0,
    }
}
