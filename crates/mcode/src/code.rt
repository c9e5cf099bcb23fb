//! The instructions of the plain machine.

use arithmetic::{Operation, TrapKind};
use core_unit::{StepValue, UnaryOperator, Word};
use eff_types::Level;

/// Which words serve a load. Zero serves each.
#[derive(Clone, Copy)]
pub enum Served {
    Number,
    DataPointer,
    /// A pointer to a function of the type with this number, whose level is this one or above.
    FunctionPointer(u32, Level),
    /// Nothing else: of a type that is no scalar.
    Nothing,
}

/// What a machine does at a place of its code. A place is the number of an instruction. Most work on the value that was found last
/// and on the values that are held, the latest first.
#[derive(Clone, Copy)]
pub enum Instruction {
    /// The value is this one.
    SetValue(Word),
    /// The value is the address of this offset of the frame.
    SetLocal(u32),
    /// The value is the address of this offset of the thread-local variables.
    SetThreadLocal(u32),
    /// Holds the value.
    HoldValue,
    /// Loads from the address that is the value.
    LoadAs(Served),
    /// Stores the value, at this level if it is a function, at the address that is held.
    StoreAs(Level),
    Change(UnaryOperator),
    /// An operation on the value that is held and the value.
    Apply(Operation),
    /// An operation on the old value that is held, and 1.
    Advance(Operation),
    /// Stores the new value at the address that is held below the old one.
    StoreStep(Level, StepValue),
    /// The address of a member at this offset.
    Shift(u32),
    /// The value as 0 or 1.
    Truth,
    GoTo(u32),
    /// Goes to a place where the value is 0 or null.
    GoIfZero(u32),
    /// Goes to a place where it is neither.
    GoIfNotZero(u32),
    /// From an offset of the frame on, stores this word so many times.
    Fill(u32, u64, u32),
    /// From an offset of the frame on, stores characters of the code's texts: the index of the first one, and how many.
    FillText(u32, u32, u32),
    /// Stores the value at an offset of the frame.
    Put(u32, Level),
    /// Is trapped where the callee, which is held below so many arguments, is null.
    Guard(u32),
    /// Loads the halt word.
    CheckHalt,
    /// Enters a function from a call site.
    EnterFunction(u32, u32),
    /// Enters the function that is held below so many arguments, from a call site.
    EnterThrough(u32, u32),
    /// Reaches the function that was entered.
    ReachFunction(u32),
    /// Stores the argument that is so many places below the latest, at an offset of the frame.
    Bind(u32, u32, Level),
    /// So many arguments, and what the call held beside them, are held no longer.
    Forget(u32),
    /// Reaches the library function of a row from a call site, with so many arguments, and then does what it does.
    CallRow(u32, u32, u32),
    /// The end of the body of a function: the value is 0 where reaching the end returns.
    FallOff,
    LeaveFunction,
    FailWith(TrapKind),
}

/// What code knows of a function that is defined.
#[derive(Clone, Copy)]
pub struct Entry {
    /// The place of its first instruction.
    pub place: u32,
    pub frame_words: u32,
    /// The number of its type: functions have one number where their types are equal up to outer effects.
    pub signature: u32,
    /// Whether it is marked `_Noreturn`.
    pub noreturn: bool,
    /// Whether reaching the end of its body returns: of `main`, and where it gives nothing.
    pub falls: bool,
    /// Whether its result is a number.
    pub gives_number: bool,
    /// The level of its result, if that is a pointer to a function.
    pub result_level: Level,
}
