//! Effects, types and conversions.

use eff_types::{
    CType, Conflict, Conversion, Effects, FnType, Level, Mismatch, TypeList, adds, common, convert,
    copy, equal, equal_up_to_outer_effects, merge,
};
use sqlite_items::{Boxed, Items};
use std::alloc::{AllocError, Global};
use std::test::Fail;

/// What each two effects merge to, by their digits, or `.` for a conflict. A digit counts 4 for each level, 2 for
/// `allocating` and 1 for `blocking`.
const MERGED: [&str; 12] = [
    "012345..8...",
    "113355......",
    "2323........",
    "3333........",
    "45..45..8...",
    "55..55......",
    "............",
    "............",
    "8...8...8...",
    "............",
    "............",
    "............",
];

fn effects_at(digit: usize) -> Effects {
    Effects {
        level: match digit / 4 {
            0 => Level::Plain,
            1 => Level::NonAllocating,
            _ => Level::NonBlocking,
        },
        no_block_inference: digit % 2 == 1,
        no_alloc_inference: digit / 2 % 2 == 1,
    }
}

fn digit_of(outcome: Result<Effects, Conflict>) -> u8 {
    let Ok(effects) = outcome else {
        return b'.';
    };
    let digit = match effects.level {
        Level::Plain => 0,
        Level::NonAllocating => 4,
        Level::NonBlocking => 8,
    };
    let digit = if effects.no_alloc_inference {
        digit + 2
    } else {
        digit
    };
    let digit = if effects.no_block_inference {
        digit + 1
    } else {
        digit
    };
    if digit < 10 {
        b'0' + digit
    } else {
        b'a' + (digit - 10)
    }
}

/// What each two effects add and share, by their digits: the level that is added, 1 or 2, or 0 for none, and the digit of
/// what both have.
const ADDED: [(usize, usize, u8); 4] = [(1, 5, 1), (5, 8, 2), (8, 8, 0), (8, 1, 0)];

const SHARED: [(usize, usize, usize); 2] = [(5, 8, 4), (8, 1, 0)];

fn rank_of(level: Option<Level>) -> u8 {
    match level {
        Some(Level::NonAllocating) => 1,
        Some(Level::NonBlocking) => 2,
        Some(Level::Plain) => 3,
        None => 0,
    }
}

#[test]
fn each_two_effects_merge(rt: HostRuntime) {
    for (i, row) in MERGED.iter().enumerate() {
        for (j, wanted) in row.bytes().enumerate() {
            let outcome = merge(effects_at(i), effects_at(j));
            assert!(rt; digit_of(outcome) == wanted, "{i} with {j}");
        }
    }
}

#[test]
fn levels_are_added_and_shared(rt: HostRuntime) {
    for (from, to, wanted) in ADDED {
        let added = adds(effects_at(from), effects_at(to));
        assert!(rt; rank_of(added) == wanted, "{from} to {to}");
    }
    for (a, b, wanted) in SHARED {
        let shared = common(effects_at(a), effects_at(b));
        assert!(rt; shared == effects_at(wanted), "{a} and {b}");
    }
}

/// A type in short. `Held` is a pointer to a pointer to a function, and `Other` one to a function with another parameter.
#[derive(Clone, Copy)]
enum Sketch {
    Void,
    Char,
    Int,
    Unsigned,
    Mutex,
    Struct(u32),
    IntArray,
    VoidPointer,
    IntPointer,
    CharPointer,
    Function(Level),
    Other,
    Held(Level),
}

fn pointer(alloc: Global, target: CType) -> Result<CType, AllocError> {
    Ok(CType::Pointer(Boxed::new(alloc, target)?))
}

fn function(alloc: Global, level: Level, param: CType) -> Result<CType, AllocError> {
    let mut params: TypeList = Items::new(alloc);
    params.push(param)?;
    let effects = Effects {
        level,
        no_block_inference: false,
        no_alloc_inference: false,
    };
    let result = Boxed::new(alloc, CType::Void)?;
    Ok(CType::Function(FnType {
        result,
        params,
        effects,
    }))
}

fn made(alloc: Global, sketch: Sketch) -> Result<CType, AllocError> {
    match sketch {
        Sketch::Void => Ok(CType::Void),
        Sketch::Char => Ok(CType::Char),
        Sketch::Int => Ok(CType::Int),
        Sketch::Unsigned => Ok(CType::Unsigned),
        Sketch::Mutex => Ok(CType::Mutex),
        Sketch::Struct(number) => Ok(CType::Struct(number)),
        Sketch::IntArray => Ok(CType::Array(Boxed::new(alloc, CType::Int)?, 4)),
        Sketch::VoidPointer => pointer(alloc, CType::Void),
        Sketch::IntPointer => pointer(alloc, CType::Int),
        Sketch::CharPointer => pointer(alloc, CType::Char),
        Sketch::Function(level) => pointer(alloc, function(alloc, level, CType::Int)?),
        Sketch::Other => pointer(alloc, function(alloc, Level::Plain, CType::Char)?),
        Sketch::Held(level) => {
            let held = pointer(alloc, function(alloc, level, CType::Int)?)?;
            pointer(alloc, held)
        }
    }
}

/// An answer by its mark: `=` equal types, `n` number, `p` pointer, `0` null, `e` effects with nothing added, `A` and `B`
/// with `nonallocating` and `nonblocking` added, `l` left out, `m` a mismatch.
fn mark_of(answer: Result<Conversion, Mismatch>) -> u8 {
    match answer {
        Ok(Conversion::Same) => b'=',
        Ok(Conversion::Number) => b'n',
        Ok(Conversion::Pointer) => b'p',
        Ok(Conversion::Null) => b'0',
        Ok(Conversion::Effects(None)) => b'e',
        Ok(Conversion::Effects(Some(Level::Plain))) => b'?',
        Ok(Conversion::Effects(Some(Level::NonAllocating))) => b'A',
        Ok(Conversion::Effects(Some(Level::NonBlocking))) => b'B',
        Err(Mismatch::LeftOut) => b'l',
        Err(Mismatch::Mismatch) => b'm',
    }
}

/// The answers of a plain conversion, of a cast, and of the same of a null pointer constant.
fn marks_of(from: &CType, to: &CType) -> [u8; 4] {
    [
        mark_of(convert(from, to, false, false)),
        mark_of(convert(from, to, false, true)),
        mark_of(convert(from, to, true, false)),
        mark_of(convert(from, to, true, true)),
    ]
}

/// From, to, and the four answers by their marks.
const ROWS: [(Sketch, Sketch, &[u8; 4]); 24] = [
    // equal types
    (Sketch::Int, Sketch::Int, b"===="),
    (Sketch::VoidPointer, Sketch::VoidPointer, b"===="),
    (
        Sketch::Function(Level::NonBlocking),
        Sketch::Function(Level::NonBlocking),
        b"====",
    ),
    (Sketch::Struct(1), Sketch::Struct(1), b"===="),
    // number to number
    (Sketch::Char, Sketch::Unsigned, b"nnnn"),
    // a null constant to any pointer; pointer and number
    (Sketch::Int, Sketch::IntPointer, b"ll00"),
    (Sketch::Int, Sketch::Function(Level::NonBlocking), b"ll00"),
    (Sketch::VoidPointer, Sketch::Int, b"llll"),
    // function pointers equal up to outer effects
    (
        Sketch::Function(Level::Plain),
        Sketch::Function(Level::NonAllocating),
        b"AA00",
    ),
    (
        Sketch::Function(Level::NonBlocking),
        Sketch::Function(Level::Plain),
        b"ee00",
    ),
    // any other pair with a function pointer
    (Sketch::Function(Level::Plain), Sketch::Other, b"ll00"),
    (Sketch::Function(Level::Plain), Sketch::VoidPointer, b"ll00"),
    (Sketch::VoidPointer, Sketch::Function(Level::Plain), b"ll00"),
    (Sketch::Struct(1), Sketch::Function(Level::Plain), b"ll00"),
    (Sketch::Function(Level::Plain), Sketch::Unsigned, b"llll"),
    // data pointers equal but for effects inside
    (
        Sketch::Held(Level::Plain),
        Sketch::Held(Level::NonBlocking),
        b"ll00",
    ),
    // a data pointer to or from `void *`
    (Sketch::IntPointer, Sketch::VoidPointer, b"pp00"),
    (Sketch::VoidPointer, Sketch::Held(Level::Plain), b"pp00"),
    // other data pointers
    (Sketch::IntPointer, Sketch::CharPointer, b"mp00"),
    // anything else
    (Sketch::Struct(1), Sketch::Struct(2), b"mmmm"),
    (Sketch::Struct(1), Sketch::IntPointer, b"mm00"),
    (Sketch::Mutex, Sketch::Int, b"mmmm"),
    (Sketch::IntArray, Sketch::IntPointer, b"mm00"),
    (Sketch::Int, Sketch::Void, b"mmmm"),
];

/// Pairs of types that differ, and whether they are equal up to outer effects.
const PAIRS: [(Sketch, Sketch, bool); 2] = [
    (
        Sketch::Function(Level::Plain),
        Sketch::Function(Level::NonBlocking),
        true,
    ),
    (
        Sketch::Held(Level::Plain),
        Sketch::Held(Level::NonBlocking),
        false,
    ),
];

/// Whether a copy is equal to its original.
fn is_copied(alloc: Global, original: &CType) -> Result<bool, AllocError> {
    Ok(equal(&copy(alloc, original)?, original))
}

fn deep_pointer(alloc: Global, depth: usize) -> Result<CType, AllocError> {
    let mut deep = function(alloc, Level::NonBlocking, CType::Int)?;
    for _ in 0..depth {
        deep = pointer(alloc, deep)?;
    }
    Ok(deep)
}

#[test]
fn types_are_converted_copied_and_compared(rt: HostRuntime) -> Result<(), Fail> {
    for (row, (from, to, wanted)) in ROWS.iter().enumerate() {
        let from = made(rt.alloc(), *from)?;
        let to = made(rt.alloc(), *to)?;
        assert!(rt; marks_of(&from, &to) == **wanted, "row {row}");
        assert!(rt; equal(&from, &to) == (wanted[0] == b'='), "row {row}");
        assert!(rt; is_copied(rt.alloc(), &from)?, "row {row}");
    }
    Ok(())
}

#[test]
fn outer_effects_are_left_out(rt: HostRuntime) -> Result<(), Fail> {
    for (row, (a, b, wanted)) in PAIRS.iter().enumerate() {
        let a = made(rt.alloc(), *a)?;
        let b = made(rt.alloc(), *b)?;
        assert!(rt; equal_up_to_outer_effects(&a, &b) == *wanted, "row {row}");
        assert!(rt; !equal(&a, &b), "row {row}");
    }
    Ok(())
}

#[test]
fn deep_types_are_compared_and_copied(rt: HostRuntime) -> Result<(), Fail> {
    let deep = deep_pointer(rt.alloc(), 1000)?;
    let deeper = deep_pointer(rt.alloc(), 1001)?;
    assert!(rt; is_copied(rt.alloc(), &deep)?);
    assert!(rt; !equal(&deep, &deeper));
    assert!(rt; mark_of(convert(&deep, &deeper, false, true)) == b'p');
    Ok(())
}
