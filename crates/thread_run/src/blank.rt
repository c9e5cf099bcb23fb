//! The states of threads to come.

ghost use Rattle.std.specs.Prelude.{◌≡◌, [], ◌+◌, ◌-◌, ◌<◌, ℕ, length, Some, slice_get, IfOk};
ghost use Rattle.thread_run.specs.Blanks.{AreBlanks};

use crate::detector::Detector;
use crate::output::Output;
use machine_code::Thread;
use std::alloc::{AllocError, Global};
use word_mem::{SpareList, Words};

/// The state of a thread to come, with its number and its spare.
#[derive(Drop)]
pub struct Blank<W: Words> {
    pub(crate) number: u32,
    pub(crate) spare: W::Spare,
    pub(crate) machine: Thread,
    pub(crate) detector: Detector,
    pub(crate) output: Output,
    ghost low: { (0 < number) × (number < 64) },
    ghost spared: { W.number spare ≡ number },
    ghost fresh: { detector ≡ record { frames = []; context = record { depth = 0; disabled = 0 } } },
    ghost silent: { output ≡ record { kept = []; dropped = 0 } },
}

/// A list of the states of threads to come, the one that comes next last.
pub type BlankList<W> = Vec<Blank<W>>;

impl<W: Words> Blank<W> {
    /// The state of a thread to come, with all memory that it needs.
    fn new(alloc: Global, number: u32, spare: W::Spare) -> Result<Blank<W>, AllocError>
    where
        W::Spare: Drop,
        requires low { (0 < number) × (number < 64) }
        requires spared { W.number spare ≡ number }
        ensures number { IfOk result (λ blank. blank.number ≡ number) }
        ensures spare { IfOk result (λ blank. blank.spare ≡ spare) }
    {
        let machine = Thread::blank(alloc)?;
        let detector = Detector::new(alloc)?;
        let output = Output::new(alloc)?;
        Ok(Blank {
            number,
            spare,
            machine,
            detector,
            output,
        })
    }

    /// The number of the thread.
    pub fn number(&self) -> u32
        ensures { result ≡ self.now.number }
    {
        self.number
    }
}

/// The states of threads 1 to 63, with all memory that they need.
pub fn blanks<W: Words>(alloc: Global, mut spares: SpareList<W>) -> Result<BlankList<W>, AllocError>
where
    W::Spare: Drop,
    requires count { length spares.items ≡ 63 }
    requires numbers { (k : ℕ) (s : W.Spare) → slice_get spares.items k ≡ Some s → W.number s ≡ k + 1 }
    ensures { IfOk result (λ list. AreBlanks (λ b. b.number) (λ b. b.spare) 63 spares.items list.items) }
{
    let mut list = Vec::with_capacity(alloc, 63)?;
    'each: while let Some(spare) = spares.pop() {
        let number = spares.len() as u32 + 1;
        let blank = Blank::new(alloc, number, spare)?;
        list.push(blank)?;
    }
    Ok(list)
}
