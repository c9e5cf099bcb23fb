// A piece written whole.
ghost use Rattle.std.specs.Prelude.{length, OnOk, OnErr};
ghost use Rattle.rt_base.specs.Outside.{IsWritten};
ghost use Rattle.rt_base.specs.Writes.{Writes, WritesToFault};

use crate::outside::Sink;

/// A write failed, and the count of faults of the sink rose.
#[derive(Clone, Copy, Debug)]
pub struct SinkFault;

/// Writes all of a piece, by as many writes as the sink needs. At a fault, which comes only where
/// the sink's count of faults rose, a prefix of the piece was taken. It takes no memory.
pub fn write_all<S: Sink>(out: &mut S, bytes: &[u8]) -> Result<(), SinkFault>
    ensures written { IsWritten bytes.now result (S.state out.old) (S.state out.new) }

    // What the writes of this call took, each begun where the bytes before it ended.
    ensures to_end { OnOk result (Writes S.write_gives bytes.now out.old (length bytes.now) out.new) }
    ensures to_fault { OnErr result (WritesToFault S.write_gives bytes.now out.old out.new) }
{
    let mut written = 0;
    while written < bytes.len() {
        let Ok(count) = out.write(&bytes[written..]) else {
            return Err(SinkFault);
        };
        written += count;
    }
    Ok(())
}
