//! What the judge answers at its corners.

use feed::Refusal;
use judging::{Judge, Line, RunAnswer, judge_file};
use model::{Outcome, Reason, UnlawfulRecord};
use std::test::Fail;
use trace_file::TraceFile;

/// Thread 0 writes, thread 1 reads that write and then the initial value.
const GONE: [u8; 52] = [
    0, 2, 0, 1, 0, 0, 0, 3, 0, 0, 0, 16, 0, 0, 0, 52, 1, 0, 0, 0, 0, 0, 0, 0, 0, 0, 0, 1, 2, 1, 0,
    0, 0, 0, 0, 1, 0, 0, 0, 1, 2, 1, 0, 0, 255, 0, 0, 0, 0, 0, 0, 0,
];

#[test]
fn a_file_is_judged(rt: HostRuntime) {
    assert!(rt;
        matches!(
            judge_file(&GONE),
            Line::Unlawful(UnlawfulRecord {
                thread: 1,
                index: 1,
                reason: Reason::InitialGone
            })
        )
    );
    assert!(rt;
        matches!(
            judge_file(&GONE[0..15]),
            Line::Refused(Refusal::ShortHeader)
        )
    );
}

#[test]
fn budgets_and_steps(rt: HostRuntime) -> Result<(), Fail> {
    let mut judge = Judge::open(TraceFile::open(&GONE).ok().ok_or("refused")?);
    assert!(rt;
        matches!(
            judge.run(0),
            Ok(RunAnswer {
                outcome: None,
                taken: 0
            })
        )
    );
    assert!(rt; matches!(judge.step(), Ok(None)));
    assert!(rt;
        matches!(
            judge.run(1),
            Ok(RunAnswer {
                outcome: None,
                taken: 1
            })
        )
    );
    assert!(rt;
        matches!(
            judge.run(usize::MAX),
            Ok(RunAnswer {
                taken: 0,
                outcome: Some(Outcome::Unlawful(UnlawfulRecord {
                    thread: 1,
                    index: 1,
                    ..
                }))
            })
        )
    );
    assert_eq!(rt; judge.step().err(), Some(Refusal::AlreadySettled));
    assert_eq!(rt; judge.run(0).err(), Some(Refusal::AlreadySettled));
    Ok(())
}

#[test]
fn questions(rt: HostRuntime) -> Result<(), Fail> {
    let mut judge = Judge::open(TraceFile::open(&GONE).ok().ok_or("refused")?);
    assert_eq!(rt; judge.question(1, 0, 1).err(), Some(Refusal::NoSuchWrite));
    assert!(rt; judge.run(2).is_ok());
    assert!(rt; matches!(judge.question(1, 0, 1), Ok(true)));
    assert_eq!(rt; judge.question(1, 0, 0).err(), Some(Refusal::NoSuchWrite));
    assert_eq!(rt; judge.question(2, 0, 1).err(), Some(Refusal::NoSuchWrite));
    assert_eq!(rt; judge.question(0, 2, 1).err(), Some(Refusal::NoSuchWrite));
    Ok(())
}
