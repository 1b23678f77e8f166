//! The theorems about trace files, each as the promise of a function.

ghost use Rattle.trace_file.specs.Laws.{WrittenIsRead, CleanIsItsTrace, OneTraceFile};

/// A trace begun, with at most 4,096 well-made records appended where there is room, opens and delivers exactly those records.
pub fn written_is_read()
    ensures { WrittenIsRead }
{}

/// The same counts and records have one trace file among those that open and end clean.
pub fn one_trace_file()
    ensures its_trace { CleanIsItsTrace }
    ensures only_one { OneTraceFile }
{}
