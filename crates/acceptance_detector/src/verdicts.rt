//! Verdicts on functions of the library and of a unit, with suppressions and without.

use crate::units::calling;
use core_unit::Unit;
use ctx_set::StackStep;
use rt_ctx::{Context, Kind, Verdict, verdict};
use std::alloc::Global;
use std::test::Fail;
use suppress::{Suppressions, read};

fn text_of(verdict: Verdict) -> &'static str {
    match verdict {
        Verdict::Pass => "passed",
        Verdict::Suppressed => "suppressed",
        Verdict::Report(Kind::UnsafeLibraryCall) => "library",
        Verdict::Report(Kind::BlockingCall) => "blocking",
    }
}

// A function that is reached: its stack, which it ends; the nonblocking frames and the disabled depth; the lines of the
// suppressions; and what is said of it.
type Reach = (&'static [StackStep], u32, u32, &'static [u8], &'static str);

const MAIN: StackStep = StackStep { target: 2, site: 0 };

const F: StackStep = StackStep { target: 1, site: 2 };

const HELPER: StackStep = StackStep { target: 0, site: 1 };

const MALLOC: StackStep = StackStep {
    target: 4096,
    site: 3,
};

const FREE: StackStep = StackStep {
    target: 4098,
    site: 3,
};

const PUTS: StackStep = StackStep {
    target: 4104,
    site: 3,
};

const ABS: StackStep = StackStep {
    target: 4106,
    site: 3,
};

const EXIT: StackStep = StackStep {
    target: 4109,
    site: 3,
};

const NO_ROW: StackStep = StackStep {
    target: 4111,
    site: 3,
};

// Suppressions of a function by its name, and of each stack with a function.
const BOTH: &[u8] = b"function-name-matches:^mall*c$\ncall-stack-contains:helper\n";

const REACHES: [Reach; 17] = [
    (&[MAIN, F, MALLOC], 1, 0, b"", "library"),
    (&[MAIN, F, HELPER, PUTS], 3, 0, b"", "library"),
    (&[MAIN, F, HELPER], 1, 0, b"", "blocking"),
    (&[MAIN, F], 1, 0, b"", "passed"),
    (&[MAIN, F, MALLOC], 0, 0, b"", "passed"),
    (&[MAIN, F, MALLOC], 1, 1, b"", "passed"),
    (&[MAIN, F, HELPER], 1, 2, b"", "passed"),
    (&[MAIN, F, ABS], 1, 0, b"", "passed"),
    (&[MAIN, F, EXIT], 1, 0, b"", "passed"),
    (&[MAIN, F, NO_ROW], 1, 0, b"", "passed"),
    (&[MAIN, F, MALLOC], 1, 0, BOTH, "suppressed"),
    (&[MAIN, F, HELPER, PUTS], 1, 0, BOTH, "suppressed"),
    (&[MAIN, F, HELPER], 1, 0, BOTH, "suppressed"),
    (&[MAIN, F, PUTS], 1, 0, BOTH, "library"),
    (&[MAIN, F, FREE], 1, 0, BOTH, "library"),
    (&[MAIN, F, MALLOC], 1, 1, BOTH, "passed"),
    (
        &[MAIN, F, MALLOC],
        1,
        0,
        b"function-name-matches:f\n",
        "library",
    ),
];

// The verdict on the last function of a stack.
fn said(unit: &Unit, reach: &Reach, suppressions: &Suppressions) -> &'static str {
    let (stack, depth, disabled, _, _) = reach;
    let context = Context {
        depth: *depth,
        disabled: *disabled,
    };
    match stack.last() {
        Some(reached) => text_of(verdict(&context, unit, stack, reached.target, suppressions)),
        None => "no function",
    }
}

// The verdict on a reach under the suppressions of its file.
fn answer_to(alloc: Global, unit: &Unit, reach: &Reach) -> &'static str {
    match read(alloc, reach.3) {
        Ok(suppressions) => said(unit, reach, &suppressions),
        Err(_) => "no suppressions",
    }
}

#[test]
fn verdicts_follow_context_and_suppressions(rt: HostRuntime) -> Result<(), Fail> {
    let unit = calling(rt.alloc(), "helper", "main", 0, 0)?;
    for reach in &REACHES {
        assert_eq!(rt; answer_to(rt.alloc(), &unit, reach), reach.4);
    }
    Ok(())
}
