//! Laws of samples, and samples whose texts are known. The bodies are empty: what a caller gets is the law.
ghost use Rattle.nq_sample.specs.Examples.{WorkedSamples};
ghost use Rattle.nq_sample.specs.Laws.{SamplesAreShort};

/// A sample of at most 2000 events is below the limit of an event file, so a run reads it to its end.
pub fn samples_are_short()
    ensures { SamplesAreShort }
{}

/// The definition gives samples whose texts are known.
pub fn worked_samples()
    ensures { WorkedSamples }
{}
