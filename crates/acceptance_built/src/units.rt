//! Units of files of the built form, and files of another form.

ghost use Rattle.std.specs.Prelude.{◌≡◌, ◌≤◌, length};

use built_form::{FormRefusal, read_form};
use built_unit::{Body, FunctionInfo, SiteInfo, Unit};
use c_text::tokens;
use eff_types::{Effects, Level};
use std::alloc::Global;
use std::process::Abort;
use std::test::Fail;

/// The unit of a text that is spelled well.
fn read(rt: &impl Abort, alloc: Global, source: &str) -> Result<Unit, FormRefusal> {
    let source = source.as_bytes();
    assert!(rt; source.len() <= 1048576);
    let tokens = tokens(alloc, source).map_err(|_| FormRefusal::NoMemory)?;
    read_form(alloc, source, tokens.as_slice())
}

const PLAIN: Effects = Effects {
    level: Level::Plain,
    no_block_inference: false,
    no_alloc_inference: false,
};

const BLOCKING: Effects = Effects {
    level: Level::Plain,
    no_block_inference: true,
    no_alloc_inference: false,
};

const NONBLOCKING: Effects = Effects {
    level: Level::NonBlocking,
    no_block_inference: false,
    no_alloc_inference: false,
};

/// A file with functions of each kind.
const EACH_KIND: &str = "void far ( void ) ; void near ( void ) { } \
        void wait ( void ) [ [ clang : : blocking ] ] { near ( ) ; } \
        void f ( void ) [ [ clang : : nonblocking ] ] { far ( ) ; wait ( ) ; f ( ) ; } \
        int main ( void ) { f ( ) ; return 0 ; } ";

/// A function: its name, its place, its effects, and of its body the calls and what it returns.
type Row = (
    &'static str,
    u32,
    Effects,
    Option<(&'static [u32], Option<u32>)>,
);

const FUNCTIONS: [Row; 5] = [
    ("far", 5, PLAIN, None),
    ("near", 25, PLAIN, Some((&[], None))),
    ("wait", 48, BLOCKING, Some((&[1], None))),
    ("f", 109, NONBLOCKING, Some((&[2, 3, 4], None))),
    ("main", 187, PLAIN, Some((&[5], Some(0)))),
];

/// Call sites: the function, the place and the function that is called.
const SITES: [(u32, u32, Option<u32>); 5] = [
    (2, 91, Some(1)),
    (3, 152, Some(0)),
    (3, 162, Some(2)),
    (3, 173, Some(3)),
    (4, 203, Some(3)),
];

/// Files that are spelled well and of another form.
const OF_ANOTHER_FORM: [&str; 18] = [
    "void f ( void ) [ [ clang : : allocating ] ] ; ",
    "void f ( void ) ; void f ( void ) ; ",
    "void f ( void ) { g ( ) ; } void g ( void ) ; ",
    "void malloc ( void ) ; ",
    "void main ( void ) ; ",
    "void void ( void ) ; ",
    "void f ( ) ; ",
    "void f ( void ) { return 0 ; } ",
    "int x ; ",
    "int f ( void ) { return 0 ; } ",
    "int main ( void ) ; ",
    "int main ( void ) { return 1 ; } ",
    "int main ( void ) [ [ clang : : blocking ] ] { return 0 ; } ",
    "int main ( void ) { return 0 ; } int main ( void ) { return 0 ; } ",
    "int main ( void ) { main ( ) ; return 0 ; } ",
    "int main ( void ) { return 0 ; } void f ( void ) { main ( ) ; } ",
    "void g ( void ) { } void f ( void ) [ [ clang : : nonblocking ] ] { g ( ) ; } ",
    "void f ( void ) ",
];

fn is_body(body: &Option<Body>, wanted: Option<(&[u32], Option<u32>)>) -> bool {
    match (body, wanted) {
        (Some(body), Some((calls, returns))) => {
            body.calls.as_slice() == calls && body.returns == returns
        }
        (None, None) => true,
        (Some(_), None) | (None, Some(_)) => false,
    }
}

fn is_function(function: &FunctionInfo, wanted: Option<&Row>) -> bool {
    let Some((name, place, effects, body)) = wanted else {
        return false;
    };
    function.name.as_str() == *name
        && function.place == *place
        && function.effects == *effects
        && is_body(&function.body, *body)
}

fn is_site(site: &SiteInfo, wanted: (u32, u32, Option<u32>)) -> bool {
    (site.function, site.place, site.direct) == wanted
}

#[test]
fn functions_of_each_kind(rt: HostRuntime) -> Result<(), Fail> {
    let unit = read(&rt, rt.alloc(), EACH_KIND)?;
    assert!(rt; unit.functions() == 5 && unit.sites() == 5);
    for id in 0..unit.functions() {
        let wanted = FUNCTIONS.get(id as usize);
        assert!(rt; is_function(unit.function(id), wanted), "function {id}");
    }
    for (site, wanted) in unit.all_sites().iter().zip(SITES) {
        assert!(rt; is_site(site, wanted), "{}", site.place);
    }
    Ok(())
}

#[test]
fn files_of_another_form(rt: HostRuntime) {
    for source in OF_ANOTHER_FORM {
        let answer = read(&rt, rt.alloc(), source);
        assert!(rt; matches!(answer, Err(FormRefusal::NotBuilt)), "{source}");
    }
}
