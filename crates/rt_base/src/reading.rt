// A file read to its end.
ghost use Rattle.std.specs.Prelude.{◌≡◌, ◌≤◌, length, IfOk};
ghost use Rattle.rt_base.specs.Outside.{Rose, IsContents, IsLongerThan, KeepsContents};
ghost use Rattle.rt_base.specs.Reads.{ReadsToEnd, ReadsPast, ReadsToFault};

use crate::bytes::Bytes;
use crate::outside::Files;
use std::alloc::Global;
use thiserror::Error;

/// Why a file was not read whole.
#[derive(Debug, Drop, Error)]
pub enum ReadRefusal {
    /// A read failed, and the count of faults of the name rose.
    #[error("a read failed")]
    Fault,
    /// The file has more bytes than the limit.
    #[error("the file is too long")]
    Long,
    /// There was no memory for the bytes.
    #[error("out of memory")]
    NoMemory,
}

// How many bytes are asked for at once.
const PIECE: usize = 8192;

/// Reads the whole of a file that has at most `limit` bytes. A fault comes only where the count of
/// faults of this very name rose, and `Long` only where the file has more than `limit` bytes.
pub fn read_all<F: Files>(
    alloc: Global,
    files: &mut F,
    name: &str,
    limit: u32,
) -> Result<Bytes, ReadRefusal>
    ensures read { IfOk result (IsContents ((F.state files.old).contents name.now)) }
    ensures within { IfOk result (λ bytes. length bytes ≤ limit) }
    ensures fault { result ≡ Err ReadRefusal.Fault → Rose ((F.state files.old).faults name.now) ((F.state files.new).faults name.now) }
    ensures long { result ≡ Err ReadRefusal.Long → IsLongerThan ((F.state files.old).contents name.now) limit }

    // What the reads of this call took, each begun where the bytes before it ended. So `Long` comes
    // exactly where they took more than `limit` bytes, want of memory aside.
    ensures to_end { IfOk result (λ bytes. ReadsToEnd F.read_gives name.now files.old bytes files.new) }
    ensures past { result ≡ Err ReadRefusal.Long → ReadsPast F.read_gives name.now files.old limit files.new }
    ensures to_fault { result ≡ Err ReadRefusal.Fault → ReadsToFault F.read_gives name.now files.old limit files.new }

    ensures kept { KeepsContents (F.state files.old) (F.state files.new) }
{
    let mut bytes = Bytes::new(alloc);
    let mut piece = [0u8; PIECE];
    loop {
        let at = bytes.len();
        let Ok(count) = files.read(name, at as u64, &mut piece) else {
            return Err(ReadRefusal::Fault);
        };
        if count == 0 {
            return Ok(bytes);
        }
        if count > limit as usize - at {
            return Err(ReadRefusal::Long);
        }
        let Ok(()) = bytes.extend(&piece[..count]) else {
            return Err(ReadRefusal::NoMemory);
        };
    }
}
