//! The unit of a small source whose functions call one another, built by hand.

ghost use Rattle.std.specs.Prelude.{◌≡◌, ◌∷◌, [], ◌++◌, IfOk};
ghost use Rattle.acceptance_detector.specs.Calls as of_calls;

use core_unit::{Body, Expr, FunctionInfo, Name, NumberList, SiteInfo, Stmt, Unit, UnitParts};
use eff_types::{CType, Effects, FnType, Level};
use sqlite_items::{Boxed, Items};
use std::alloc::{AllocError, Global};

const PLAIN: Effects = Effects {
    level: Level::Plain,
    no_block_inference: false,
    no_alloc_inference: false,
};

const BLOCKING: Effects = Effects {
    level: Level::Plain,
    no_block_inference: true,
    no_alloc_inference: false,
};

const NONBLOCKING: Effects = Effects {
    level: Level::NonBlocking,
    no_block_inference: false,
    no_alloc_inference: false,
};

// `void (void)`.
fn bare(alloc: Global, effects: Effects) -> Result<FnType, AllocError>
    ensures { IfOk result (λ kind. kind ≡ of_calls.bare effects) }
{
    Ok(FnType {
        result: Boxed::new(alloc, CType::Void)?,
        params: Items::new(alloc),
        effects,
    })
}

// The name of the function with this number.
fn callee(alloc: Global, number: u32, effects: Effects) -> Result<Boxed<Expr>, AllocError>
    ensures { IfOk result (λ e. e ≡ Expr.Function number (CType.Function (of_calls.bare effects))) }
{
    let kind = bare(alloc, effects)?;
    Boxed::new(alloc, Expr::Function(number, CType::Function(kind)))
}

// The body that calls the function with this number, with effects as it is declared.
fn calling_body(
    alloc: Global,
    place: u32,
    site: u32,
    number: u32,
    effects: Effects,
) -> Result<Items<Stmt>, AllocError>
    ensures { IfOk result (λ items. items ≡ of_calls.calls place site number effects ∷ []) }
{
    let callee = callee(alloc, number, effects)?;
    let mut items = Items::new(alloc);
    items.push(Stmt::Expression(Expr::Call(place, site, callee, Items::new(alloc))))?;
    Ok(items)
}

// Adds a function with this body.
fn add_function(
    alloc: Global,
    functions: &mut Items<FunctionInfo>,
    name: &str,
    effects: Effects,
    items: Items<Stmt>,
) -> Result<(), AllocError>
    ensures { IfOk result (λ _. functions.new ≡ functions.old ++ of_calls.function name.now effects items ∷ []) }
{
    let name = Name::new(alloc, name)?;
    let kind = bare(alloc, effects)?;
    functions.push(FunctionInfo {
        name,
        kind,
        noreturn: false,
        internal: false,
        place: 0,
        body: Some(Body { items }),
        frame_words: 0,
    })
}

fn functions_of(
    alloc: Global,
    low: &str,
    root: &str,
    inner: u32,
    outer: u32,
) -> Result<Items<FunctionInfo>, AllocError>
    ensures { IfOk result (λ functions. functions ≡ of_calls.functions low.now root.now inner outer) }
{
    let mut functions = Items::new(alloc);
    add_function(alloc, &mut functions, low, BLOCKING, Items::new(alloc))?;
    let body = calling_body(alloc, inner, 1, 0, BLOCKING)?;
    add_function(alloc, &mut functions, "f", NONBLOCKING, body)?;
    let body = calling_body(alloc, outer, 2, 1, NONBLOCKING)?;
    add_function(alloc, &mut functions, root, PLAIN, body)?;
    Ok(functions)
}

fn sites_of(alloc: Global, inner: u32, outer: u32) -> Result<Items<SiteInfo>, AllocError>
    ensures { IfOk result (λ sites. sites ≡ of_calls.sites inner outer) }
{
    let sites = [
        SiteInfo {
            function: 1,
            place: inner,
            direct: Some(0),
        },
        SiteInfo {
            function: 2,
            place: outer,
            direct: Some(1),
        },
    ];
    Items::from_slice(alloc, &sites)
}

fn definitions_of(alloc: Global) -> Result<NumberList, AllocError>
    ensures { IfOk result (λ definitions. definitions ≡ 0 ∷ 1 ∷ 2 ∷ []) }
{
    Items::from_slice(alloc, &[0, 1, 2])
}

// The parts of a unit with these functions, calls and definitions, and nothing else.
fn parts_of(
    alloc: Global,
    functions: Items<FunctionInfo>,
    sites: Items<SiteInfo>,
    definitions: NumberList,
) -> UnitParts
    ensures { result ≡ record { functions = functions; definitions = definitions; sites = sites; variables = []; structures = []; statics = []; thread_locals = []; static_words = []; thread_words = [] } }
{
    UnitParts {
        functions,
        definitions,
        sites,
        variables: Items::new(alloc),
        structures: Items::new(alloc),
        statics: Items::new(alloc),
        thread_locals: Items::new(alloc),
        static_words: Items::new(alloc),
        thread_words: Items::new(alloc),
    }
}

/// The unit of three functions: 0, which is declared `blocking`; 1, `f`, which is `nonblocking` and calls it at the first place; 2,
/// which calls `f` at the second place.
pub fn calling(
    alloc: Global,
    low: &str,
    root: &str,
    inner: u32,
    outer: u32,
) -> Result<Unit, AllocError>
    ensures { IfOk result (λ unit. unit ≡ of_calls.calling low.now root.now inner outer) }
{
    let sites = sites_of(alloc, inner, outer)?;
    let definitions = definitions_of(alloc)?;
    let functions = functions_of(alloc, low, root, inner, outer)?;
    Ok(Unit::new(parts_of(alloc, functions, sites, definitions)))
}
