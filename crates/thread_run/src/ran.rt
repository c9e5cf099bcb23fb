//! What a run leaves.

use crate::thread::CThread;
use reports::Board;
use word_mem::Words;

/// A list of C threads.
pub type ThreadList<W, B> = Vec<CThread<W, B>>;

/// The threads of a run, which have ended, in order of number, with its memory and its board.
pub struct Ran<W: Words, B: Board> {
    pub threads: ThreadList<W, B>,
    pub words: W,
    pub board: B,
}

/// Why a run can't begin.
#[derive(Drop)]
pub enum RunRefusal {
    NoMemory,
}
