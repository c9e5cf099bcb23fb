//! What a thread writes.

ghost use Rattle.std.specs.Prelude.{◌≡◌, ◌+◌, ◌<◌, ◌^◌, [], IfOk};
ghost use Rattle.thread_run.specs.Writing.{with_byte, written};

use machine_code::Ask;
use std::alloc::{AllocError, Global};
use std::marker::Model;

/// So many bytes of a thread are kept.
const ROOM: usize = 65_536;

/// The first bytes that a thread wrote, in memory that is taken once, and how many came behind them.
#[derive(Drop)]
pub struct Output {
    bytes: Vec<u8>,
    dropped: u64,
}

impl Model for Output {
    ghost use Rattle.std.specs.Prelude.{◌≤◌, vec_capacity};
    ghost use Rattle.thread_run.specs.Writing.{Written};

    ghost Value = { Written };

    ghost view = { λ o. record { kept = o.bytes.items; dropped = o.dropped } };

    ghost invariant = { λ o. 65536 ≤ vec_capacity o.bytes };
}

impl Output {
    /// Nothing is written yet.
    pub(crate) fn new(alloc: Global) -> Result<Output, AllocError>
        ensures { IfOk result (λ output. output ≡ record { kept = []; dropped = 0 }) }
    {
        let bytes = Vec::with_capacity(alloc, ROOM)?;
        Ok(Output { bytes, dropped: 0 })
    }

    /// Writes a byte.
    fn write(&mut self, byte: u8)
        requires { self.old.dropped + 1 < 2 ^ 64 }
        ensures { self.new ≡ with_byte byte self.old }
    {
        if self.bytes.len() < ROOM {
            match self.bytes.push(byte) {
                Ok(()) => {}
                Err(_) => unreachable!(),
            }
        } else {
            self.dropped += 1;
        }
    }

    /// Follows an event of the thread.
    pub(crate) fn follow(&mut self, ask: Ask)
        requires { self.old.dropped + 1 < 2 ^ 64 }
        ensures { self.new ≡ written ask self.old }
    {
        match ask {
            Ask::Out(byte) => self.write(byte),
            Ask::Load(_)
            | Ask::Store(_, _)
            | Ask::Exchange(_, _, _)
            | Ask::FetchAdd(_, _)
            | Ask::FetchSub(_, _)
            | Ask::Enter(_, _)
            | Ask::Leave
            | Ask::Reach(_, _)
            | Ask::Create(_, _)
            | Ask::Trap(_)
            | Ask::Over(_) => {}
        }
    }

    /// The bytes that are kept.
    pub(crate) fn bytes(&self) -> &[u8]
        ensures { result.now ≡ self.now.kept }
    {
        self.bytes.as_slice()
    }

    /// How many bytes came behind them.
    pub(crate) fn dropped(&self) -> u64
        ensures { result ≡ self.now.dropped }
    {
        self.dropped
    }
}
