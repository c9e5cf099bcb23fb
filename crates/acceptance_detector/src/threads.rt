//! The printed text of threads: each way to end, and outputs.

use mcode::TrapKind;
use rt_base::{CallList, MemSink};
use src_model::{End, Options};
use std::test::Fail;
use thread_text::write_thread;

// A thread by its number, how it ended and what it wrote, and what is printed of it.
struct Printed {
    number: u32,
    end: End,
    output: &'static [u8],
    dropped: u64,
    text: &'static str,
}

const OPTIONS: Options = Options {
    halt_on_error: true,
    print_stats: false,
    events: 10,
    wait_limit: 5,
};

const ROWS: [Printed; 8] = [
    Printed {
        number: 0,
        end: End::Exited(0),
        output: b"done\n",
        dropped: 0,
        text: "thread 0: exited 0\nthread 0 output 5\ndone\n",
    },
    Printed {
        number: 0,
        end: End::Exited(-1),
        output: b"",
        dropped: 0,
        text: "thread 0: exited -1\n",
    },
    Printed {
        number: 1,
        end: End::Returned,
        output: b"filled",
        dropped: 0,
        text: "thread 1: returned\nthread 1 output 6\nfilled\n",
    },
    Printed {
        number: 0,
        end: End::Trapped(TrapKind::BadWord),
        output: b"",
        dropped: 0,
        text: "thread 0: trapped bad-word\n",
    },
    Printed {
        number: 63,
        end: End::Halted,
        output: b"ab",
        dropped: 3,
        text: "thread 63: halted\nthread 63 output 2\nab\nthread 63 dropped 3\n",
    },
    Printed {
        number: 0,
        end: End::Stopped,
        output: b"",
        dropped: 0,
        text: "thread 0: stopped after 10 events\n",
    },
    Printed {
        number: 0,
        end: End::Waiting,
        output: b"",
        dropped: 0,
        text: "thread 0: waiting after 5 tries\n",
    },
    Printed {
        number: 2,
        end: End::Full,
        output: b"",
        dropped: 0,
        text: "thread 2: full\n",
    },
];

#[test]
fn prints_threads(rt: HostRuntime) -> Result<(), Fail> {
    for row in &ROWS {
        let mut sink = MemSink::new(rt.alloc(), 200, 7, CallList::new(rt.alloc()))?;
        let written = write_thread(
            &OPTIONS,
            row.number,
            row.end,
            row.output,
            row.dropped,
            &mut sink,
        );
        assert!(rt; written.is_ok());
        assert_eq!(rt; sink.bytes(), row.text.as_bytes());
    }
    Ok(())
}
