// What the compiler asks of a unit.

ghost use Rattle.std.specs.Prelude.{◌≡◌, ◌<◌, ◌≤◌, ◌↔◌, ◌+◌, length, min, Some, None, IsTrue, MatchOption, slice_get};
ghost use Rattle.built_codegen.specs.Unit.{HasNoEntry, IsEntry, IsFirstMissing, missing_callee, body_nodes, unit_nodes, node_limit, return_nodes, lesser};

use built_unit::{FunctionInfo, Unit};

/// How many nodes a unit may have that is compiled (this project's own limit).
pub const NODE_LIMIT: usize = 262_144;

// The least number of a defined function with this name.
pub fn entry_function(unit: &Unit, entry: &str) -> Option<u32>
    ensures { MatchOption result (HasNoEntry unit.now entry.now) (λ n. IsEntry unit.now entry.now n) }
{
    for id in 0..unit.functions() {
        let function = unit.function(id);
        if function.body.is_some() && function.name.as_str() == entry {
            return Some(id);
        }
    }
    None
}

// The first function by number that is called and has no definition.
pub fn first_missing(unit: &Unit) -> Option<u32>
    ensures { IsFirstMissing unit.now result }
{
    let mut first = None;
    for site in unit.all_sites() {
        first = lesser(first, missing_callee(unit, site.direct));
    }
    first
}

// The called function, where it has no definition.
fn missing_callee(unit: &Unit, callee: Option<u32>) -> Option<u32>
    ensures { result ≡ missing_callee unit.now callee }
{
    let function = callee?;
    if function >= unit.functions() || unit.function(function).body.is_some() {
        return None;
    }
    Some(function)
}

// The lesser of two numbers, where there are two.
fn lesser(a: Option<u32>, b: Option<u32>) -> Option<u32>
    ensures { result ≡ lesser a b }
{
    match (a, b) {
        (Some(x), Some(y)) => Some(x.min(y)),
        (Some(x), None) => Some(x),
        (None, Some(y)) => Some(y),
        (None, None) => None,
    }
}

// Whether the unit has more nodes than the limit.
pub fn is_long(unit: &Unit) -> bool
    ensures { IsTrue result ↔ (node_limit < unit_nodes unit.now) }
{
    let mut room = NODE_LIMIT;
    for id in 0..unit.functions() {
        match room_after(unit.function(id), room) {
            Some(left) => room = left,
            None => return true,
        }
    }
    false
}

// What is left of the room for nodes after those of a function.
fn room_after(function: &FunctionInfo, room: usize) -> Option<usize>
    requires { room ≤ node_limit }
    ensures { MatchOption result (room < body_nodes function.now.body) (λ left. left + body_nodes function.now.body ≡ room) }
{
    let Some(body) = &function.body else {
        return Some(room);
    };
    let calls = body.calls.as_slice().len();
    if calls > room {
        return None;
    }
    room.checked_sub(2 + 3 * calls + return_nodes(body.returns))
}

// The nodes of the return statement.
fn return_nodes(returns: Option<u32>) -> usize
    ensures { result ≡ return_nodes returns }
{
    match returns {
        Some(_) => 2,
        None => 0,
    }
}
