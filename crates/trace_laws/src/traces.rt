//! What holds of the lines of a trace.
ghost use Rattle.trace_laws.specs.Readable.{LawTraceRead};

/// The trace of every run of a script within the limits reads back, line by line, as what it was written from.
pub fn law_trace_read()
    ensures { LawTraceRead }
{}
