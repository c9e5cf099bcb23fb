//! The printed endings of threads, those too that no file of the built form comes to.

use built_code::TrapKind;
use built_model::End;
use built_reports::write_ending;
use rt_base::{CallList, MemSink};
use std::test::Fail;

/// How a thread ended, and what its line says.
const ENDINGS: [(End, &str); 20] = [
    (End::Returned, "thread 7: returned\n"),
    (End::Exited(0), "thread 7: exited 0\n"),
    (End::Exited(-3), "thread 7: exited -3\n"),
    (End::Exited(2147483647), "thread 7: exited 2147483647\n"),
    (End::Halted, "thread 7: halted\n"),
    (End::Stopped, "thread 7: stopped after 10000000 events\n"),
    (End::Waiting, "thread 7: waiting after 2000000 tries\n"),
    (End::Full, "thread 7: full\n"),
    (
        End::Trapped(TrapKind::NullAccess),
        "thread 7: trapped null-access\n",
    ),
    (
        End::Trapped(TrapKind::BadAccess),
        "thread 7: trapped bad-access\n",
    ),
    (
        End::Trapped(TrapKind::BadPointer),
        "thread 7: trapped bad-pointer\n",
    ),
    (
        End::Trapped(TrapKind::BadWord),
        "thread 7: trapped bad-word\n",
    ),
    (
        End::Trapped(TrapKind::Overflow),
        "thread 7: trapped overflow\n",
    ),
    (
        End::Trapped(TrapKind::Division),
        "thread 7: trapped division\n",
    ),
    (End::Trapped(TrapKind::Shift), "thread 7: trapped shift\n"),
    (
        End::Trapped(TrapKind::NullCall),
        "thread 7: trapped null-call\n",
    ),
    (
        End::Trapped(TrapKind::StackOverflow),
        "thread 7: trapped stack-overflow\n",
    ),
    (
        End::Trapped(TrapKind::BadFree),
        "thread 7: trapped bad-free\n",
    ),
    (
        End::Trapped(TrapKind::BadUnlock),
        "thread 7: trapped bad-unlock\n",
    ),
    (End::Trapped(TrapKind::Abort), "thread 7: trapped abort\n"),
];

#[test]
fn prints_endings(rt: HostRuntime) -> Result<(), Fail> {
    for (end, wanted) in ENDINGS {
        let mut sink = MemSink::new(rt.alloc(), 100, 7, CallList::new(rt.alloc()))?;
        let written = write_ending(7, end, &mut sink);
        assert!(rt; written.is_ok());
        assert_eq!(rt; sink.bytes(), wanted.as_bytes());
    }
    Ok(())
}
