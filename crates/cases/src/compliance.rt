//! The nine published compliance tests: behaviour that the rules forbid, each with a value that they permit.

use crate::judged::Case;
use crate::records::{
    X, Y, compliant, fences, notifies, reads, reads_initial_strictly, unlawful, waits, writes,
    writes_strictly,
};

/// Each forbidden behaviour, and beside it a permitted one.
pub const COMPLIANCE_TESTS: &[Case] = &[
    Case {
        title: "an own read returns the newest own write, the forbidden value",
        asked: unlawful!(0, 2, OwnLaterWrite),
        threads: 1,
        records: &[writes!(0, X, 1), writes!(0, X, 2), reads!(0, X, 0, 1)],
    },
    Case {
        title: "an own read returns the newest own write, a permitted value",
        asked: compliant!(3),
        threads: 1,
        records: &[writes!(0, X, 1), writes!(0, X, 2), reads!(0, X, 0, 2)],
    },
    Case {
        title: "a strict write, then a relaxed one, the forbidden value",
        asked: unlawful!(1, 1, Overwritten),
        threads: 2,
        records: &[
            writes_strictly!(0, X, 1),
            writes!(0, X, 2),
            reads!(1, X, 0, 2),
            reads!(1, X, 0, 1),
        ],
    },
    Case {
        title: "a strict write, then a relaxed one, a permitted value",
        asked: compliant!(4),
        threads: 2,
        records: &[
            writes_strictly!(0, X, 1),
            writes!(0, X, 2),
            reads!(1, X, 0, 2),
            reads!(1, X, 0, 2),
        ],
    },
    Case {
        title: "a relaxed write, then a strict one, the forbidden value",
        asked: unlawful!(1, 1, Overwritten),
        threads: 2,
        records: &[
            writes!(0, X, 1),
            writes_strictly!(0, X, 2),
            reads!(1, X, 0, 2),
            reads!(1, X, 0, 1),
        ],
    },
    Case {
        title: "a relaxed write, then a strict one, a permitted value",
        asked: compliant!(4),
        threads: 2,
        records: &[
            writes!(0, X, 1),
            writes_strictly!(0, X, 2),
            reads!(1, X, 0, 2),
            reads!(1, X, 0, 2),
        ],
    },
    Case {
        title: "two strict writes, the forbidden value",
        asked: unlawful!(1, 1, Overwritten),
        threads: 2,
        records: &[
            writes_strictly!(0, X, 1),
            writes_strictly!(0, X, 2),
            reads!(1, X, 0, 2),
            reads!(1, X, 0, 1),
        ],
    },
    Case {
        title: "two strict writes, a permitted value",
        asked: compliant!(4),
        threads: 2,
        records: &[
            writes_strictly!(0, X, 1),
            writes_strictly!(0, X, 2),
            reads!(1, X, 0, 2),
            reads!(1, X, 0, 2),
        ],
    },
    Case {
        title: "a strict write between two relaxed ones, the forbidden value",
        asked: unlawful!(1, 1, Overwritten),
        threads: 2,
        records: &[
            writes!(0, X, 1),
            writes_strictly!(0, Y, 2),
            writes!(0, X, 3),
            reads!(1, X, 0, 3),
            reads!(1, X, 0, 1),
        ],
    },
    Case {
        title: "a strict write between two relaxed ones, a permitted value",
        asked: compliant!(5),
        threads: 2,
        records: &[
            writes!(0, X, 1),
            writes_strictly!(0, Y, 2),
            writes!(0, X, 3),
            reads!(1, X, 0, 3),
            reads!(1, X, 0, 3),
        ],
    },
    Case {
        title: "a strict read between two relaxed writes, the forbidden value",
        asked: unlawful!(1, 1, Overwritten),
        threads: 2,
        records: &[
            writes!(0, X, 1),
            reads_initial_strictly!(0, Y),
            writes!(0, X, 2),
            reads!(1, X, 0, 2),
            reads!(1, X, 0, 1),
        ],
    },
    Case {
        title: "a strict read between two relaxed writes, a permitted value",
        asked: compliant!(5),
        threads: 2,
        records: &[
            writes!(0, X, 1),
            reads_initial_strictly!(0, Y),
            writes!(0, X, 2),
            reads!(1, X, 0, 2),
            reads!(1, X, 0, 2),
        ],
    },
    Case {
        title: "a fence between two relaxed writes, the forbidden value",
        asked: unlawful!(1, 1, Overwritten),
        threads: 2,
        records: &[
            writes!(0, X, 1),
            fences!(0),
            writes!(0, X, 2),
            reads!(1, X, 0, 2),
            reads!(1, X, 0, 1),
        ],
    },
    Case {
        title: "a fence between two relaxed writes, a permitted value",
        asked: compliant!(5),
        threads: 2,
        records: &[
            writes!(0, X, 1),
            fences!(0),
            writes!(0, X, 2),
            reads!(1, X, 0, 2),
            reads!(1, X, 0, 2),
        ],
    },
    Case {
        title: "a notify between two relaxed writes, the forbidden value",
        asked: unlawful!(1, 1, Overwritten),
        threads: 2,
        records: &[
            writes!(0, X, 1),
            notifies!(0, 5),
            writes!(0, X, 2),
            reads!(1, X, 0, 2),
            reads!(1, X, 0, 1),
        ],
    },
    Case {
        title: "a notify between two relaxed writes, a permitted value",
        asked: compliant!(5),
        threads: 2,
        records: &[
            writes!(0, X, 1),
            notifies!(0, 5),
            writes!(0, X, 2),
            reads!(1, X, 0, 2),
            reads!(1, X, 0, 2),
        ],
    },
    Case {
        title: "a relaxed and a strict write before a barrier, the forbidden value",
        asked: unlawful!(1, 2, Overwritten),
        threads: 2,
        records: &[
            writes!(0, X, 1),
            writes_strictly!(0, X, 2),
            notifies!(0, 5),
            notifies!(1, 5),
            waits!(0, 5),
            waits!(1, 5),
            reads!(1, X, 0, 1),
        ],
    },
    Case {
        title: "a relaxed and a strict write before a barrier, a permitted value",
        asked: compliant!(7),
        threads: 2,
        records: &[
            writes!(0, X, 1),
            writes_strictly!(0, X, 2),
            notifies!(0, 5),
            notifies!(1, 5),
            waits!(0, 5),
            waits!(1, 5),
            reads!(1, X, 0, 2),
        ],
    },
];
