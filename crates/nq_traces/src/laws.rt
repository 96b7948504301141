//! Laws of traces. The bodies are empty: what a caller gets is the law.
ghost use Rattle.nq_traces.specs.Traces.{TraceLaws};

/// How a trace of legal steps goes on.
pub fn trace_laws()
    ensures { TraceLaws }
{}
