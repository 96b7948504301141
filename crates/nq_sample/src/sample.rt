ghost use Rattle.std.specs.Prelude.{◌≡◌, IfOk, string_bytes};
ghost use Rattle.nq_sample.specs.Sample.{sample_of};

use crate::draws::Draws;
use crate::event::Event;
use std::alloc::{AllocError, Global};

/// The text of the sample of this seed and size: a first line, and a line for each event.
pub fn sample_text(alloc: Global, seed: u64, size: u64) -> Result<String, AllocError>
    ensures { IfOk result (λ text. string_bytes text ≡ sample_of seed size) }
{
    let mut text = String::from_str(alloc, "(BOOT-STRAP NQTHM)\n")?;
    let mut draws = Draws::new(seed);
    for before in 0..size {
        let kind = draws.draw_kind();
        let event = Event {
            number: before + 1,
            kind,
        };
        writeln!(text, "{event}")?;
    }
    Ok(text)
}
