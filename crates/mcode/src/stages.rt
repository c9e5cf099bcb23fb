//! The stages of calls of library functions.

use core_unit::Word;

/// Where a call of a library function stands: the event that it makes next, with what it needs to go on. An address is that of an
/// object, below 2^20.
#[derive(Clone, Copy)]
pub enum Stage {
    /// `malloc` and `calloc` take so many words, and one for a header, from the break.
    TakeBlock(u32),
    /// They give them back, since the heap ends before.
    ReturnBlock(u32),
    /// They write the header, at this address, of a block of so many words.
    MarkLive(u32, u32),
    /// `free` reads the header at this address.
    ReadHeader(u32),
    /// It writes that this block, of so many words, is freed.
    MarkFreed(u32, u32),
    /// `pthread_create` starts a thread, whose number is stored by this pointer, at a function with an argument.
    CreateThread(Word, u32, u64),
    /// It stores this number at an address.
    TellThread(u32, u32),
    /// `pthread_join` asks whether this thread has returned; its result is stored by this pointer, unless that is null.
    TryJoin(u32, Word),
    /// It loads the halt word before it asks again.
    AwaitJoin(u32, Word),
    /// It reads the result.
    ReadResult(u32, Word),
    /// It stores the result, this word, at an address.
    WriteResult(u32, u64),
    /// `pthread_mutex_lock` tries to lock the mutex at this address.
    TryLock(u32),
    /// It loads the halt word before it tries again.
    AwaitLock(u32),
    /// `pthread_mutex_unlock` unlocks the mutex at this address.
    Unlock(u32),
    /// `puts` reads the character at this address.
    ReadText(u32),
    /// It writes that character as this byte.
    WriteText(u32, u8),
    /// It writes the end of the line.
    EndText,
    /// `putchar` writes this byte.
    WriteByte(u8),
}
