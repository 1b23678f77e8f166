//! The theorem about bundles, as the promise of a function.

ghost use Rattle.bundle.specs.Laws.{LogsInOrder};

/// Of each thread the records of its log are delivered in order, and the threads follow the arrival list, up to the first record that is not well made.
pub fn logs_in_order()
    ensures { LogsInOrder }
{}
