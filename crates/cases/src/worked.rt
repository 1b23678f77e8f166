//! The eleven traces that the rules are explained by.

use crate::judged::Case;
use crate::records::{
    X, Y, compliant, fences, notifies, reads, reads_initial, unlawful, waits, writes,
    writes_strictly,
};

/// The traces, in the order in which the rules are explained.
pub const WORKED_TRACES: &[Case] = &[
    Case {
        title: "an own older write",
        asked: unlawful!(0, 2, OwnLaterWrite),
        threads: 2,
        records: &[writes!(0, X, 1), writes!(0, X, 2), reads!(0, X, 0, 1)],
    },
    Case {
        title: "overwritten over a fence",
        asked: unlawful!(1, 1, Overwritten),
        threads: 2,
        records: &[
            writes!(0, X, 1),
            fences!(0),
            writes!(0, X, 2),
            reads!(1, X, 0, 2),
            reads!(1, X, 0, 1),
        ],
    },
    Case {
        title: "relaxed writes are not ordered",
        asked: compliant!(4),
        threads: 2,
        records: &[
            writes!(0, X, 1),
            writes!(0, X, 2),
            reads!(1, X, 0, 2),
            reads!(1, X, 0, 1),
        ],
    },
    Case {
        title: "strict writes of two threads are not ordered",
        asked: compliant!(5),
        threads: 3,
        records: &[
            writes_strictly!(0, X, 1),
            writes_strictly!(1, X, 1),
            reads!(2, X, 0, 1),
            reads!(2, X, 1, 1),
            reads!(2, X, 0, 1),
        ],
    },
    Case {
        title: "all observations count",
        asked: unlawful!(1, 2, Overwritten),
        threads: 2,
        records: &[
            writes!(0, X, 1),
            fences!(0),
            writes!(0, X, 2),
            writes!(0, Y, 3),
            reads!(1, Y, 0, 3),
            reads!(1, X, 0, 2),
            reads!(1, X, 0, 1),
        ],
    },
    Case {
        title: "a wait observes the notify",
        asked: unlawful!(1, 2, Overwritten),
        threads: 2,
        records: &[
            writes!(0, X, 1),
            writes_strictly!(0, X, 2),
            notifies!(0, 5),
            notifies!(1, 5),
            waits!(1, 5),
            reads!(1, X, 0, 1),
        ],
    },
    Case {
        title: "the initial value is gone once a write was read",
        asked: unlawful!(1, 1, InitialGone),
        threads: 2,
        records: &[writes!(0, X, 1), reads!(1, X, 0, 1), reads_initial!(1, X)],
    },
    Case {
        title: "the initial value stays while no write was observed",
        asked: compliant!(3),
        threads: 2,
        records: &[writes!(0, X, 1), reads_initial!(1, X), reads_initial!(1, X)],
    },
    Case {
        title: "a wait before the other notify",
        asked: unlawful!(0, 1, NotifyMissing),
        threads: 2,
        records: &[notifies!(0, 5), waits!(0, 5)],
    },
    Case {
        title: "two labels in one phase",
        asked: unlawful!(0, 1, OtherLabel),
        threads: 2,
        records: &[notifies!(0, 5), notifies!(1, 6), waits!(0, 5)],
    },
    Case {
        title: "an own write orders no others",
        asked: compliant!(4),
        threads: 2,
        records: &[
            writes!(0, X, 1),
            writes!(1, X, 1),
            reads!(1, X, 0, 1),
            reads!(1, X, 1, 1),
        ],
    },
];
