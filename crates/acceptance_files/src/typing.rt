//! What the typing refuses, what it limits and what it warns of, as tables of sources: that the rules are those that were
//! meant, and that the call succeeds, is said by no clause.

use crate::parse::AUDIO;
use c_parse::parse;
use c_text::tokens;
use core_unit::Which;
use sqlite_items::Items;
use std::alloc::Global;
use std::test::Fail;
use type_rules::TypeWarning;
use type_units::{TypeRefusal, TypedParts, type_parts};

/// The warnings of the typing of a source, or why it is no unit; NoMemory too where it isn't read.
fn warned(alloc: Global, source: &[u8]) -> Result<Items<TypeWarning>, TypeRefusal> {
    if source.len() > 100_000 {
        return Err(TypeRefusal::NoMemory);
    }
    let Ok(tokens) = tokens(alloc, source) else {
        return Err(TypeRefusal::NoMemory);
    };
    let Ok(tree) = parse(alloc, source, tokens.as_slice()) else {
        return Err(TypeRefusal::NoMemory);
    };
    match type_parts(alloc, source, &[], &tree) {
        Ok(TypedParts { parts: _, warnings }) => Ok(warnings),
        Err(refusal) => Err(refusal),
    }
}

fn is_broken(alloc: Global, source: &[u8], rule: u8, at: u32) -> bool {
    match warned(alloc, source) {
        Err(TypeRefusal::Bad { number, place }) => number == rule && place == at,
        _ => false,
    }
}

fn place_of(warning: &TypeWarning) -> u32 {
    match warning {
        TypeWarning::Conversion { place, .. } => *place,
        TypeWarning::Redeclaration { place, .. } => *place,
    }
}

fn is_warned_at(alloc: Global, source: &[u8], places: &[u32]) -> bool {
    match warned(alloc, source) {
        Ok(warnings) => {
            let noted = warnings.as_slice();
            noted.len() == places.len()
                && noted
                    .iter()
                    .zip(places)
                    .all(|(warning, place)| place_of(warning) == *place)
        }
        Err(_) => false,
    }
}

fn limit_of(alloc: Global, source: &[u8]) -> &'static str {
    match warned(alloc, source) {
        Err(TypeRefusal::Limit(limit)) => name_of(limit),
        _ => "none",
    }
}

fn name_of(limit: Which) -> &'static str {
    match limit {
        Which::Functions => "functions",
        Which::Parameters => "parameters",
        Which::CallSites => "call sites",
        Which::StaticWords => "static words",
        Which::ThreadWords => "thread words",
        Which::FrameWords => "frame words",
    }
}

/// Sources with the number of the first rule that each breaks, and its place.
const BROKEN: [(&[u8], u8, u32); 22] = [
    (b"int f(void) { return x; }", 1, 21),
    (b"int f(void) { return y + (1 = x); }", 1, 21),
    (b"int f(void) { int b; int b; return 0; }", 2, 25),
    (b"int a; enum { a = 1 / 0 };", 2, 14),
    (
        b"struct s { int a; }; struct s v; int f(void) { return v; }",
        3,
        54,
    ),
    (b"int f(void) { return; }", 3, 14),
    (b"void g(void) { } int f(void) { return 1 + g(); }", 3, 38),
    (
        b"void f(void) [[clang::nonblocking]];\nvoid f(void) [[clang::blocking]];\n",
        4,
        42,
    ),
    (
        b"int g(int a) { return a; } int f(void) { return g(); }",
        5,
        48,
    ),
    (b"int f(void) { return abs(1, 2); }", 5, 21),
    (b"int f(void) { 1 = 2; return 0; }", 6, 14),
    (b"int n; int a[n];", 7, 13),
    (b"int a[0];", 7, 6),
    (b"int n; int m = n;", 7, 15),
    (
        b"struct s { int a; }; struct s v; int f(void) { return v.b; }",
        8,
        56,
    ),
    (b"int a = {1, 2};", 9, 8),
    (b"int f(void) = 1;", 9, 14),
    (b"void v;", 10, 5),
    (
        b"struct s; struct s *p; int f(void) { return p->a; }",
        10,
        44,
    ),
    (b"void f(void) { int *p = 5; }", 11, 24),
    (
        b"typedef void (*nb)(void) [[clang::nonblocking]];\ntypedef void (*pl)(void);\nvoid u(pl p) { }\nvoid (*q)(nb) = u;\n",
        11,
        108,
    ),
    (b"void f(void) { void (*p)(void *) = free; }", 11, 35),
];

/// Sources with the places of their warnings.
const WARNED: [(&[u8], &[u32]); 3] = [
    (
        b"typedef void (*nb)(void) [[clang::nonblocking]];\nvoid h(void) { }\nvoid take(nb p) { }\nnb give(void) { return h; }\nvoid g(void) {\n  nb p = NULL;\n  p = h;\n  take(h);\n  p = (nb)h;\n}\n",
        &[109, 150, 160, 174],
    ),
    (
        b"typedef void (*na)(void) [[clang::nonallocating]];\ntypedef void (*nb)(void) [[clang::nonblocking]];\nvoid g(na a, nb b) {\n  na x = b;\n  nb y = a;\n}\n",
        &[142],
    ),
    (
        b"void f(void);\nvoid f(void) [[clang::nonblocking]];\nvoid f(void) { }\n",
        &[56],
    ),
];

/// Sources with the limit that each passes.
const LARGE: [(&[u8], &str); 5] = [
    (b"int x[524288];", "none"),
    (b"int x[524289];", "static words"),
    (b"_Thread_local int t[1024];", "none"),
    (b"_Thread_local int t[1025];", "thread words"),
    (b"int main(void) { int a[4097]; return 0; }", "frame words"),
];

#[test]
fn the_first_broken_rule_is_told(rt: HostRuntime) -> Result<(), Fail> {
    for (source, number, place) in BROKEN {
        assert!(rt;
            is_broken(rt.alloc(), source, number, place),
            "rule {number} at {place}"
        );
    }
    Ok(())
}

#[test]
fn conversions_and_redeclarations_are_warned(rt: HostRuntime) -> Result<(), Fail> {
    for (source, places) in WARNED {
        assert!(rt; is_warned_at(rt.alloc(), source, places));
    }
    assert!(rt; is_warned_at(rt.alloc(), AUDIO, &[]));
    Ok(())
}

#[test]
fn limits_are_told(rt: HostRuntime) -> Result<(), Fail> {
    for (source, limit) in LARGE {
        assert_eq!(rt; limit_of(rt.alloc(), source), limit);
    }
    Ok(())
}
