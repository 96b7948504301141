//! Steps of new nodes.
ghost use Rattle.std.specs.Prelude.{◌≡◌, ◌+◌, OnOk, Err};
ghost use Rattle.nq_kernel.specs.Growing.{CountsUp};

use nq_kernel::{Stop, Work};

/// Counts so many new nodes.
pub fn count_made(work: &mut Work, made: u64) -> Result<(), Stop>
    ensures same { work.new ≡ record work.old { counter = work.new.counter } }
    ensures counted { OnOk result (work.new.counter.used ≡ work.old.counter.used + made) }
    ensures rises { CountsUp work.old.counter work.new.counter }
    ensures out { result ≡ Err Stop.OutOfSteps → work.new.counter.used ≡ work.new.counter.limit }
{
    let _ = work.counter.used();
    for counted in 0..made {
        let _ = counted;
        work.enter(0)?;
    }
    Ok(())
}
