//! The functions of the library that a unit may call, and what the analysis and the detector know of them.

ghost use Rattle.std.specs.Prelude.{◌≡◌, ◌<◌, ℕ, Some, map, slice_get, IfOk, length};
ghost use Rattle.core_unit.specs.Library.{row_type, rows, seen};

/// A row of the library table.
pub struct LibRow {
    pub name: &'static str,
    pub nonblocking_safe: bool,
    pub nonallocating_safe: bool,
    /// Whether a call is detected in a real-time context.
    pub intercepted: bool,
    pub noreturn: bool,
}

/// A function that may allocate or block, and that the detector intercepts.
const UNSAFE: LibRow = LibRow {
    name: "",
    nonblocking_safe: false,
    nonallocating_safe: false,
    intercepted: true,
    noreturn: false,
};
/// A function that does neither.
const SAFE: LibRow = LibRow {
    name: "",
    nonblocking_safe: true,
    nonallocating_safe: true,
    intercepted: false,
    noreturn: false,
};
/// A function that ends the thread.
const ENDING: LibRow = LibRow {
    name: "",
    nonblocking_safe: false,
    nonallocating_safe: false,
    intercepted: false,
    noreturn: true,
};

static LIBRARY: [LibRow; 15] = [
    LibRow {
        name: "malloc",
        ..UNSAFE
    },
    LibRow {
        name: "calloc",
        ..UNSAFE
    },
    LibRow {
        name: "free",
        ..UNSAFE
    },
    LibRow {
        name: "pthread_create",
        ..UNSAFE
    },
    LibRow {
        name: "pthread_join",
        ..UNSAFE
    },
    LibRow {
        name: "pthread_mutex_lock",
        ..UNSAFE
    },
    LibRow {
        name: "pthread_mutex_unlock",
        ..UNSAFE
    },
    LibRow {
        name: "usleep",
        ..UNSAFE
    },
    LibRow {
        name: "puts",
        ..UNSAFE
    },
    LibRow {
        name: "putchar",
        ..UNSAFE
    },
    LibRow {
        name: "abs",
        ..SAFE
    },
    LibRow {
        name: "__rtsan_disable",
        ..SAFE
    },
    LibRow {
        name: "__rtsan_enable",
        ..SAFE
    },
    LibRow {
        name: "exit",
        ..ENDING
    },
    LibRow {
        name: "abort",
        ..ENDING
    },
];

/// The rows of the library; the target number of a row is its index and `FIRST_ROW`.
pub fn library() -> &'static [LibRow]
    ensures { map seen result.now ≡ rows }
{
    &LIBRARY
}
