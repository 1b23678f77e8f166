//! The eight published dark corners: behaviour that may surprise and is permitted.

use crate::judged::Case;
use crate::records::{X, Y, compliant, fences, notifies, reads, waits, writes, writes_strictly};

/// The corners, all of them permitted.
pub const DARK_CORNERS: &[Case] = &[
    Case {
        title: "relaxed writes may be read in different orders by different threads",
        asked: compliant!(6),
        threads: 3,
        records: &[
            writes!(0, X, 1),
            writes!(0, X, 2),
            reads!(1, X, 0, 1),
            reads!(1, X, 0, 2),
            reads!(2, X, 0, 2),
            reads!(2, X, 0, 1),
        ],
    },
    Case {
        title: "relaxed writes may be read in different orders by one thread",
        asked: compliant!(5),
        threads: 2,
        records: &[
            writes!(0, X, 1),
            writes!(0, X, 2),
            reads!(1, X, 0, 1),
            reads!(1, X, 0, 2),
            reads!(1, X, 0, 1),
        ],
    },
    Case {
        title: "strict writes of two threads may be read in different orders by different threads",
        asked: compliant!(6),
        threads: 4,
        records: &[
            writes_strictly!(0, X, 1),
            writes_strictly!(1, X, 1),
            reads!(2, X, 0, 1),
            reads!(2, X, 1, 1),
            reads!(3, X, 1, 1),
            reads!(3, X, 0, 1),
        ],
    },
    Case {
        title: "strict writes of two threads may be read in different orders by one thread",
        asked: compliant!(5),
        threads: 3,
        records: &[
            writes_strictly!(0, X, 1),
            writes_strictly!(1, X, 1),
            reads!(2, X, 0, 1),
            reads!(2, X, 1, 1),
            reads!(2, X, 0, 1),
        ],
    },
    Case {
        title: "an own and a remote write may be read in different orders",
        asked: compliant!(5),
        threads: 2,
        records: &[
            writes!(0, X, 1),
            writes!(1, X, 1),
            reads!(1, X, 0, 1),
            reads!(1, X, 1, 1),
            reads!(1, X, 0, 1),
        ],
    },
    Case {
        title: "relaxed writes before a fence may be read in different orders",
        asked: compliant!(8),
        threads: 2,
        records: &[
            writes!(0, X, 1),
            writes!(0, X, 2),
            fences!(0),
            writes!(0, Y, 3),
            reads!(1, Y, 0, 3),
            reads!(1, X, 0, 1),
            reads!(1, X, 0, 2),
            reads!(1, X, 0, 1),
        ],
    },
    Case {
        title: "relaxed writes before a barrier may be read in different orders by one thread",
        asked: compliant!(9),
        threads: 2,
        records: &[
            writes!(0, X, 1),
            writes!(0, X, 2),
            notifies!(0, 5),
            notifies!(1, 5),
            waits!(0, 5),
            waits!(1, 5),
            reads!(1, X, 0, 1),
            reads!(1, X, 0, 2),
            reads!(1, X, 0, 1),
        ],
    },
    Case {
        title: "relaxed writes before a barrier may be read in different orders by different threads",
        asked: compliant!(12),
        threads: 3,
        records: &[
            writes!(0, X, 1),
            writes!(0, X, 2),
            notifies!(0, 5),
            notifies!(1, 5),
            notifies!(2, 5),
            waits!(0, 5),
            waits!(1, 5),
            waits!(2, 5),
            reads!(1, X, 0, 1),
            reads!(1, X, 0, 2),
            reads!(2, X, 0, 2),
            reads!(2, X, 0, 1),
        ],
    },
];
