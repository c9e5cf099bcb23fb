// How many instructions a tree has, as far as 32 bits tell it.

ghost use Rattle.std.specs.Prelude.{◌≡◌, ℕ, ◌+◌};
ghost use Rattle.core_unit.specs.Layout.{told};
ghost use Rattle.core_unit.specs.Places.{callee as callee_in};
ghost use Rattle.c_codegen.specs.Sizes as spec;

use core_unit::{Expr, Initializer, LoopKind, Place, Stmt, Storage};

// The sum, as far as 32 bits tell it.
#[tactic(auto, using(core_unit::proofs::Sums::told_sum))]
pub fn sum(a: u32, b: u32) -> u32
    ensures { (m n : ℕ) → a ≡ told m → b ≡ told n → result ≡ told (m + n) }
{
    a.saturating_add(b)
}

// Of a call, by those of its callee and of its arguments.
#[tactic(auto, using(crate::proofs::Sums::few))]
fn call_size(callee: &Expr, called: u32, arguments: u32) -> u32
    ensures { (m n : ℕ) → called ≡ told m → arguments ≡ told n → result ≡ told (spec.call_size (callee_in callee.now) m n) }
{
    match callee {
        Expr::Function(_, _) => sum(arguments, 2),
        Expr::LibraryFunction(_) => sum(arguments, 2),
        _ => sum(sum(called, arguments), 4),
    }
}

#[cycle(counting)]
#[tactic(auto, using(crate::proofs::SizeEquations::size_rules, crate::proofs::Sums::few))]
pub fn place_size(place: &Place) -> u32
    ensures { result ≡ told (spec.place_size place.now) }
{
    match place {
        Place::Variable(_, _, _) => 1,
        Place::Text(_, _) => 1,
        Place::Indirection(pointer, _) => size(pointer.get()),
        Place::Arrow(pointer, _) => size(pointer.get()),
        Place::Element(left, right, _, _, _) => sum(sum(size(left.get()), size(right.get())), 2),
        Place::Member(whole, _, _) => sum(place_size(whole.get()), 1),
    }
}

// The instructions of an expression, or 2^32 - 1 where there are more.
#[cycle(counting)]
#[tactic(auto, using(crate::proofs::SizeEquations::size_rules, crate::proofs::Sums::few))]
pub fn size(expression: &Expr) -> u32
    ensures { result ≡ told (spec.size expression.now) }
{
    match expression {
        Expr::Number(_, _) => 1,
        Expr::Null => 1,
        Expr::Sizeof(_) => 1,
        Expr::Function(_, _) => 1,
        Expr::LibraryFunction(_) => 1,
        Expr::TargetFunction(e) => size(e.get()),
        Expr::FunctionPointer(e) => size(e.get()),
        Expr::ArrayPointer(place) => place_size(place.get()),
        Expr::AddressOf(place) => place_size(place.get()),
        Expr::Load(place) => sum(place_size(place.get()), 1),
        Expr::Assign(place, e) => sum(sum(place_size(place.get()), size(e.get())), 2),
        Expr::Compound(place, _, e) => sum(sum(place_size(place.get()), size(e.get())), 5),
        Expr::Step(place, _, _) => sum(place_size(place.get()), 5),
        Expr::Unary(_, e) => sum(size(e.get()), 1),
        Expr::Binary(_, a, b) => sum(sum(size(a.get()), size(b.get())), 2),
        Expr::Logical(_, a, b) => sum(sum(size(a.get()), size(b.get())), 2),
        Expr::Conditional(c, a, b) => {
            sum(sum(sum(size(c.get()), size(a.get())), size(b.get())), 2)
        }
        Expr::Comma(a, b) => sum(size(a.get()), size(b.get())),
        Expr::Call(_, _, callee, arguments) => call_size(
            callee.get(),
            size(callee.get()),
            arguments_size(arguments.as_slice()),
        ),
        Expr::Convert(_, _, e) => size(e.get()),
        Expr::Discard(e) => size(e.get()),
    }
}

#[cycle(counting)]
fn arguments_size(expressions: &[Expr]) -> u32
    ensures { result ≡ told (spec.arguments_size expressions.now) }
{
    let mut total = 0;
    'each: for expression in expressions {
        total = sum(total, sum(size(expression), 1));
    }
    total
}

// Of an initializer.
#[cycle(initializers)]
#[tactic(auto, using(crate::proofs::SizeEquations::initializer_size_rules, crate::proofs::Sums::few))]
fn initializer_size(initializer: &Initializer) -> u32
    ensures { result ≡ told (spec.initializer_size initializer.now) }
{
    match initializer {
        Initializer::Absent(_) => 1,
        Initializer::Value(_, e) => sum(size(e), 1),
        Initializer::List(initializers, _) => sum(initializers_size(initializers.as_slice()), 1),
        Initializer::Text(_, _) => 2,
        Initializer::Zeros(_) => 1,
        Initializer::Mutex => 1,
    }
}

#[cycle(initializers)]
fn initializers_size(initializers: &[Initializer]) -> u32
    ensures { result ≡ told (spec.listed_size initializers.now) }
{
    let mut total = 0;
    'each: for initializer in initializers {
        total = sum(total, initializer_size(initializer));
    }
    total
}

// Of a block variable.
#[tactic(auto, using(crate::proofs::Sums::few))]
fn variable_size(storage: Storage, initializer: &Initializer) -> u32
    ensures { result ≡ told (spec.variable_size storage initializer.now) }
{
    match storage {
        Storage::Automatic(_) => initializer_size(initializer),
        Storage::Static(_) => 0,
        Storage::ThreadLocal(_) => 0,
    }
}

// Of the condition of a `for`.
#[tactic(auto, using(crate::proofs::Sums::few))]
pub fn test_size(test: &Option<Expr>) -> u32
    ensures { result ≡ told (spec.test_size test.now) }
{
    match test {
        None => 0,
        Some(e) => sum(size(e), 1),
    }
}

// Of what ends each turn of a `for`.
#[tactic(auto, using(crate::proofs::Sums::few))]
pub fn optional_size(expression: &Option<Expr>) -> u32
    ensures { result ≡ told (spec.optional_size expression.now) }
{
    match expression {
        None => 0,
        Some(e) => size(e),
    }
}

// Of a `while` and a `do`, by their parts.
#[tactic(auto, using(crate::proofs::Sums::few))]
fn loop_size(kind: LoopKind, test: u32, body: u32) -> u32
    ensures { (m n : ℕ) → test ≡ told m → body ≡ told n → result ≡ told (spec.loop_size kind m n) }
{
    match kind {
        LoopKind::While => sum(sum(test, body), 3),
        LoopKind::DoWhile => sum(sum(test, body), 2),
    }
}

// Of what stands behind the condition of `if`, by its parts.
#[tactic(auto, using(crate::proofs::Sums::few))]
fn branches_size(others: &[Stmt], item: u32, other: u32) -> u32
    ensures { (m n : ℕ) → item ≡ told m → other ≡ told n → result ≡ told (spec.listed_branches_size others.now m n) }
{
    if others.is_empty() {
        sum(item, 1)
    } else {
        sum(sum(item, other), 2)
    }
}

// Of a `return`.
#[tactic(auto, using(crate::proofs::Sums::few))]
fn return_size(value: &Option<Expr>) -> u32
    ensures { result ≡ told (spec.return_size value.now) }
{
    match value {
        None => 2,
        Some(e) => sum(size(e), 1),
    }
}

// The instructions of a statement, or 2^32 - 1 where there are more.
#[cycle(statements)]
#[tactic(auto, using(crate::proofs::SizeEquations::statement_size_rules, crate::proofs::Sums::few))]
pub fn statement_size(statement: &Stmt) -> u32
    ensures { result ≡ told (spec.statement_size statement.now) }
{
    match statement {
        Stmt::Block(items) => list_size(items.as_slice()),
        Stmt::Variable(variable) => variable_size(variable.storage, &variable.initializer),
        Stmt::Empty => 0,
        Stmt::Expression(e) => size(e),
        Stmt::If(condition, body, other) => {
            let item = statement_size(body.get());
            let others = list_size(other.as_slice());
            sum(
                size(condition),
                branches_size(other.as_slice(), item, others),
            )
        }
        Stmt::Loop(kind, condition, body) => {
            loop_size(*kind, size(condition), statement_size(body.get()))
        }
        Stmt::For(start, test, step, body) => {
            let head = sum(list_size(start.as_slice()), test_size(test));
            let round = sum(head, statement_size(body.get()));
            sum(sum(round, optional_size(step)), 2)
        }
        Stmt::Break => 1,
        Stmt::Continue => 1,
        Stmt::Return(value) => return_size(value),
    }
}

// The instructions of statements, or 2^32 - 1 where there are more.
#[cycle(statements)]
pub fn list_size(statements: &[Stmt]) -> u32
    ensures { result ≡ told (spec.list_size statements.now) }
{
    let mut total = 0;
    'each: for statement in statements {
        total = sum(total, statement_size(statement));
    }
    total
}
