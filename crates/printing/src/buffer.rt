//! A buffer in front of a sink.

ghost use Rattle.std.specs.Prelude.{◌≡◌, [], ◌++◌, Bool, true, false, OnOk};
ghost use Rattle.std.specs.List.{flat_map};
ghost use Rattle.printing.specs.Gathered.{IsGathered};
ghost use Rattle.rt_base.specs.Outside.{IsWritten};

use arrayvec::ArrayVec;
use rt_base::{Sink, SinkFault, write_all};
use std::marker::Model;

const CAPACITY: usize = 8192;

/// Bytes of a text that no sink was handed yet, at most 8,192: a sink is handed them when the next piece doesn't fit. It takes no memory.
#[derive(Drop)]
pub struct TextBuffer {
    bytes: ArrayVec<u8, CAPACITY>,
}

impl Model for TextBuffer {
    ghost use Rattle.std.specs.Prelude.{List, ℕ};

    ghost Value = { List ℕ };

    ghost view = { λ b. b.bytes.items };
}

impl TextBuffer {
    /// The buffer without bytes.
    pub fn new() -> TextBuffer
        ensures { result ≡ [] }
    {
        TextBuffer {
            bytes: ArrayVec::new(),
        }
    }

    // Holds the piece behind the bytes, if it fits.
    fn holds(&mut self, piece: &[u8]) -> bool
        ensures held { result ≡ true → self.new ≡ self.old ++ piece.now }
        ensures full { result ≡ false → self.new ≡ self.old }
    {
        self.bytes.try_extend_from_slice(piece).is_ok()
    }

    /// Writes a piece behind what was written before. At a fault, which comes only where the sink's count of faults rose, the sink took a prefix of
    /// the bytes that it wasn't handed before, with this piece behind them.
    pub fn write<S: Sink>(&mut self, piece: &[u8], out: &mut S) -> Result<(), SinkFault>
        ensures { IsGathered piece.now result self.old (S.state out.old) self.new (S.state out.new) }
    {
        if self.holds(piece) {
            return Ok(());
        }
        self.flush(out)?;
        if self.holds(piece) {
            return Ok(());
        }
        write_all(out, piece)
    }

    /// Writes the pieces one after the other, as `write` does each.
    pub fn write_pieces<S: Sink>(&mut self, pieces: &[&str], out: &mut S) -> Result<(), SinkFault>
        ensures { IsGathered (flat_map (λ piece. piece.now) pieces.now) result self.old (S.state out.old) self.new (S.state out.new) }
    {
        'each: for piece in pieces {
            self.write(piece.as_bytes(), out)?;
        }
        Ok(())
    }

    /// Hands the sink all bytes that it wasn't handed yet. At a fault, which comes only where its count of faults rose, it took a prefix of them.
    pub fn flush<S: Sink>(&mut self, out: &mut S) -> Result<(), SinkFault>
        ensures written { IsWritten self.old result (S.state out.old) (S.state out.new) }
        ensures empty { OnOk result (self.new ≡ []) }
    {
        write_all(out, self.bytes.as_slice())?;
        self.bytes.clear();
        Ok(())
    }
}
