// The first function without a definition among those that are named. `sizeof` keeps no tree, so what stands under it names none.

ghost use Rattle.std.specs.Prelude.{◌≡◌, flat_map};
ghost use Rattle.c_codegen.specs.Names as spec;
ghost use Rattle.c_codegen.specs.Names.{names, initializer_names, statement_names, function_names, word_names, pointed, used_functions};
ghost use Rattle.c_codegen.specs.Refusals as refusals;
ghost use Rattle.c_codegen.specs.Refusals.{IsFirstMissing, first_missing};

use core_unit::{Expr, FunctionInfo, Initializer, Place, Stmt, Unit, Word, unpack};

// The lesser of two numbers, where there are two.
#[tactic(auto, unfolding(crate::specs::Refusals::lesser))]
fn lesser(a: Option<u32>, b: Option<u32>) -> Option<u32>
    ensures { result ≡ refusals.lesser a b }
{
    match (a, b) {
        (Some(x), Some(y)) => Some(x.min(y)),
        (Some(x), None) => Some(x),
        (None, Some(y)) => Some(y),
        (None, None) => None,
    }
}

// The function, where it has no definition.
#[tactic(auto, using(crate::proofs::Refused::missing_none, crate::proofs::Refused::missing_some, crate::proofs::Refused::missing_past))]
fn missing(function: u32, unit: &Unit) -> Option<u32>
    ensures { result ≡ refusals.missing unit.now function }
{
    if function >= unit.functions() {
        return Some(function);
    }
    match &unit.function(function).body {
        Some(_) => None,
        None => Some(function),
    }
}

#[cycle(naming)]
#[tactic(auto, using(crate::proofs::NameEquations::name_rules))]
fn first_in_place(place: &Place, unit: &Unit) -> Option<u32>
    ensures { result ≡ first_missing unit.now (spec.place_names place.now) }
{
    match place {
        Place::Variable(_, _, _) => None,
        Place::Text(_, _) => None,
        Place::Indirection(pointer, _) => first_in_value(pointer.get(), unit),
        Place::Arrow(pointer, _) => first_in_value(pointer.get(), unit),
        Place::Element(left, right, _, _, _) => lesser(
            first_in_value(left.get(), unit),
            first_in_value(right.get(), unit),
        ),
        Place::Member(whole, _, _) => first_in_place(whole.get(), unit),
    }
}

#[cycle(naming)]
#[tactic(auto, using(crate::proofs::NameEquations::name_rules))]
fn first_in_value(expression: &Expr, unit: &Unit) -> Option<u32>
    ensures { result ≡ first_missing unit.now (names expression.now) }
{
    match expression {
        Expr::Number(_, _) => None,
        Expr::Null => None,
        Expr::Sizeof(_) => None,
        Expr::Function(function, _) => missing(*function, unit),
        Expr::LibraryFunction(_) => None,
        Expr::TargetFunction(e) => first_in_value(e.get(), unit),
        Expr::FunctionPointer(e) => first_in_value(e.get(), unit),
        Expr::ArrayPointer(place) => first_in_place(place.get(), unit),
        Expr::AddressOf(place) => first_in_place(place.get(), unit),
        Expr::Load(place) => first_in_place(place.get(), unit),
        Expr::Assign(place, e) => lesser(
            first_in_place(place.get(), unit),
            first_in_value(e.get(), unit),
        ),
        Expr::Compound(place, _, e) => lesser(
            first_in_place(place.get(), unit),
            first_in_value(e.get(), unit),
        ),
        Expr::Step(place, _, _) => first_in_place(place.get(), unit),
        Expr::Unary(_, e) => first_in_value(e.get(), unit),
        Expr::Binary(_, a, b) => {
            lesser(first_in_value(a.get(), unit), first_in_value(b.get(), unit))
        }
        Expr::Logical(_, a, b) => {
            lesser(first_in_value(a.get(), unit), first_in_value(b.get(), unit))
        }
        Expr::Conditional(test, a, b) => {
            let chosen = lesser(first_in_value(a.get(), unit), first_in_value(b.get(), unit));
            lesser(first_in_value(test.get(), unit), chosen)
        }
        Expr::Comma(a, b) => {
            lesser(first_in_value(a.get(), unit), first_in_value(b.get(), unit))
        }
        Expr::Call(_, _, callee, arguments) => lesser(
            first_in_value(callee.get(), unit),
            first_in_arguments(arguments.as_slice(), unit),
        ),
        Expr::Convert(_, _, e) => first_in_value(e.get(), unit),
        Expr::Discard(e) => first_in_value(e.get(), unit),
    }
}

#[cycle(naming)]
fn first_in_arguments(arguments: &[Expr], unit: &Unit) -> Option<u32>
    ensures { result ≡ first_missing unit.now (flat_map names arguments.now) }
{
    let mut first = None;
    'each: for argument in arguments {
        first = lesser(first, first_in_value(argument, unit));
    }
    first
}

#[tactic(auto, using(crate::proofs::NameEquations::first_none))]
fn first_in_optional(expression: &Option<Expr>, unit: &Unit) -> Option<u32>
    ensures { result ≡ first_missing unit.now (spec.optional_names expression.now) }
{
    match expression {
        None => None,
        Some(e) => first_in_value(e, unit),
    }
}

#[cycle(initial)]
#[tactic(auto, using(crate::proofs::NameEquations::initializer_name_rules))]
fn first_in_initializer(initializer: &Initializer, unit: &Unit) -> Option<u32>
    ensures { result ≡ first_missing unit.now (initializer_names initializer.now) }
{
    match initializer {
        Initializer::Absent(_) => None,
        Initializer::Value(_, e) => first_in_value(e, unit),
        Initializer::List(initializers, _) => first_in_initializers(initializers.as_slice(), unit),
        Initializer::Text(_, _) => None,
        Initializer::Zeros(_) => None,
        Initializer::Mutex => None,
    }
}

#[cycle(initial)]
fn first_in_initializers(initializers: &[Initializer], unit: &Unit) -> Option<u32>
    ensures { result ≡ first_missing unit.now (flat_map initializer_names initializers.now) }
{
    let mut first = None;
    'each: for initializer in initializers {
        first = lesser(first, first_in_initializer(initializer, unit));
    }
    first
}

#[cycle(stating)]
#[tactic(auto, using(crate::proofs::NameEquations::statement_name_rules))]
fn first_in_statement(statement: &Stmt, unit: &Unit) -> Option<u32>
    ensures { result ≡ first_missing unit.now (statement_names statement.now) }
{
    match statement {
        Stmt::Block(items) => first_in_statements(items.as_slice(), unit),
        Stmt::Variable(variable) => first_in_initializer(&variable.initializer, unit),
        Stmt::Empty => None,
        Stmt::Expression(e) => first_in_value(e, unit),
        Stmt::If(condition, body, other) => {
            let item = first_in_statement(body.get(), unit);
            let branches = lesser(item, first_in_statements(other.as_slice(), unit));
            lesser(first_in_value(condition, unit), branches)
        }
        Stmt::Loop(_, condition, body) => lesser(
            first_in_value(condition, unit),
            first_in_statement(body.get(), unit),
        ),
        Stmt::For(start, test, step, body) => {
            let item = first_in_statement(body.get(), unit);
            let turn = lesser(first_in_optional(step, unit), item);
            let turns = lesser(first_in_optional(test, unit), turn);
            lesser(first_in_statements(start.as_slice(), unit), turns)
        }
        Stmt::Break => None,
        Stmt::Continue => None,
        Stmt::Return(value) => first_in_optional(value, unit),
    }
}

#[cycle(stating)]
fn first_in_statements(statements: &[Stmt], unit: &Unit) -> Option<u32>
    ensures { result ≡ first_missing unit.now (flat_map statement_names statements.now) }
{
    let mut first = None;
    'each: for statement in statements {
        first = lesser(first, first_in_statement(statement, unit));
    }
    first
}

#[tactic(auto, using(crate::proofs::NameEquations::first_none))]
fn first_in_function(function: &FunctionInfo, unit: &Unit) -> Option<u32>
    ensures { result ≡ first_missing unit.now (function_names function.now) }
{
    match &function.body {
        None => None,
        Some(body) => first_in_statements(body.items.as_slice(), unit),
    }
}

fn first_in_functions(functions: &[FunctionInfo], unit: &Unit) -> Option<u32>
    ensures { result ≡ first_missing unit.now (flat_map function_names functions.now) }
{
    let mut first = None;
    'each: for function in functions {
        first = lesser(first, first_in_function(function, unit));
    }
    first
}

// The function that a value points to.
#[tactic(auto, using(crate::proofs::NameEquations::first_none, crate::proofs::NameEquations::first_one))]
fn first_pointed(value: Option<Word>, unit: &Unit) -> Option<u32>
    ensures { result ≡ first_missing unit.now (pointed value) }
{
    match value {
        Some(Word::FunctionPointer(function, _)) => missing(function, unit),
        Some(Word::Zero) => None,
        Some(Word::Undefined) => None,
        Some(Word::Number(_)) => None,
        Some(Word::DataPointer(_)) => None,
        Some(Word::Mutex(_)) => None,
        Some(Word::Live(_)) => None,
        Some(Word::Freed(_)) => None,
        None => None,
    }
}

fn first_in_word(word: u64, unit: &Unit) -> Option<u32>
    ensures { result ≡ first_missing unit.now (word_names word) }
{
    first_pointed(unpack(word), unit)
}

fn first_in_words(words: &[u64], unit: &Unit) -> Option<u32>
    ensures { result ≡ first_missing unit.now (flat_map word_names words.now) }
{
    let mut first = None;
    'each: for word in words {
        first = lesser(first, first_in_word(*word, unit));
    }
    first
}

// The first function by number that the unit uses and doesn't define.
#[tactic(auto, using(crate::proofs::NameEquations::first_used, crate::proofs::Refused::first_found))]
pub fn first_undefined(unit: &Unit) -> Option<u32>
    ensures { IsFirstMissing unit.now result }
{
    let parts = unit.parts();
    let named = first_in_functions(parts.functions.as_slice(), unit);
    let statics = first_in_words(parts.static_words.as_slice(), unit);
    let locals = first_in_words(parts.thread_words.as_slice(), unit);
    lesser(named, lesser(statics, locals))
}
