// The places of bodies, in order of evaluation.
ghost use Rattle.std.specs.Prelude.{◌∷◌, OnOk};
ghost use Rattle.core_unit.specs.Places as unit;
ghost use Rattle.unit_spots.specs.Walk.{Finds, parts_spots};

use crate::callees::call_action;
use crate::spots::{Action, Spot, SpotList};
use core_unit::{Expr, Initializer, LocalVariable, LoopKind, Place, Stmt, Storage};
use std::alloc::{AllocError, Global};

#[tactic(auto, using(crate::proofs::Found::found_use))]
fn add_use(at: u32, found: &mut SpotList) -> Result<(), AllocError>
    ensures { OnOk result (Finds (λ rest. unit.Uses at ∷ rest) found.old found.new) }
{
    found.push(Spot {
        place: at,
        action: Action::UsesThreadLocal,
    })
}

// The use of a variable, if it is thread-local.
fn variable_spots(storage: Storage, at: u32, found: &mut SpotList) -> Result<(), AllocError>
    ensures { OnOk result (Finds (unit.used storage at) found.old found.new) }
{
    match storage {
        Storage::Automatic(_) => Ok(()),
        Storage::Static(_) => Ok(()),
        Storage::ThreadLocal(_) => add_use(at, found),
    }
}

#[tactic(auto, using(crate::proofs::Found::found_declaration))]
fn add_declaration(at: u32, found: &mut SpotList) -> Result<(), AllocError>
    ensures { OnOk result (Finds (λ rest. unit.Declares at ∷ rest) found.old found.new) }
{
    found.push(Spot {
        place: at,
        action: Action::DeclaresStatic,
    })
}

// The declaration of a block variable, unless it is automatic.
fn declared_spots(storage: Storage, at: u32, found: &mut SpotList) -> Result<(), AllocError>
    ensures { OnOk result (Finds (unit.declared storage at) found.old found.new) }
{
    match storage {
        Storage::Automatic(_) => Ok(()),
        Storage::Static(_) => add_declaration(at, found),
        Storage::ThreadLocal(_) => add_declaration(at, found),
    }
}

// A call of this callee, which was evaluated before.
#[tactic(auto, using(crate::proofs::Found::found_call))]
fn add_call(
    alloc: Global,
    at: u32,
    site: u32,
    callee: &Expr,
    found: &mut SpotList,
) -> Result<(), AllocError>
    ensures { OnOk result (Finds (λ rest. unit.Calls at site (unit.callee callee.now) ∷ rest) found.old found.new) }
{
    let action = call_action(alloc, callee)?;
    found.push(Spot { place: at, action })
}

#[cycle(walking)]
#[tactic(auto, using(core_unit::proofs::Equations::spot_rules))]
fn place_spots(alloc: Global, place: &Place, found: &mut SpotList) -> Result<(), AllocError>
    ensures { OnOk result (Finds (unit.place_spots place.now) found.old found.new) }
{
    match place {
        Place::Variable(at, storage, _) => variable_spots(*storage, *at, found),
        Place::Text(_, _) => Ok(()),
        Place::Indirection(pointer, _) => spots(alloc, pointer.get(), found),
        Place::Arrow(pointer, _) => spots(alloc, pointer.get(), found),
        Place::Element(left, right, _, _, _) => {
            spots(alloc, left.get(), found)?;
            spots(alloc, right.get(), found)
        }
        Place::Member(whole, _, _) => place_spots(alloc, whole.get(), found),
    }
}

#[cycle(walking)]
#[tactic(auto, using(core_unit::proofs::Equations::spot_rules))]
fn spots(alloc: Global, expression: &Expr, found: &mut SpotList) -> Result<(), AllocError>
    ensures { OnOk result (Finds (unit.spots expression.now) found.old found.new) }
{
    match expression {
        Expr::Number(_, _) => Ok(()),
        Expr::Null => Ok(()),
        Expr::Sizeof(_) => Ok(()),
        Expr::Function(_, _) => Ok(()),
        Expr::LibraryFunction(_) => Ok(()),
        Expr::TargetFunction(e) => spots(alloc, e.get(), found),
        Expr::FunctionPointer(e) => spots(alloc, e.get(), found),
        Expr::ArrayPointer(place) => place_spots(alloc, place.get(), found),
        Expr::AddressOf(place) => place_spots(alloc, place.get(), found),
        Expr::Load(place) => place_spots(alloc, place.get(), found),
        Expr::Assign(place, e) => {
            place_spots(alloc, place.get(), found)?;
            spots(alloc, e.get(), found)
        }
        Expr::Compound(place, _, e) => {
            place_spots(alloc, place.get(), found)?;
            spots(alloc, e.get(), found)
        }
        Expr::Step(place, _, _) => place_spots(alloc, place.get(), found),
        Expr::Unary(_, e) => spots(alloc, e.get(), found),
        Expr::Binary(_, a, b) => {
            spots(alloc, a.get(), found)?;
            spots(alloc, b.get(), found)
        }
        Expr::Logical(_, a, b) => {
            spots(alloc, a.get(), found)?;
            spots(alloc, b.get(), found)
        }
        Expr::Conditional(c, a, b) => {
            spots(alloc, c.get(), found)?;
            spots(alloc, a.get(), found)?;
            spots(alloc, b.get(), found)
        }
        Expr::Comma(a, b) => {
            spots(alloc, a.get(), found)?;
            spots(alloc, b.get(), found)
        }
        Expr::Call(at, site, callee, arguments) => {
            spots(alloc, callee.get(), found)?;
            argument_spots(alloc, arguments.as_slice(), found)?;
            add_call(alloc, *at, *site, callee.get(), found)
        }
        Expr::Convert(_, _, e) => spots(alloc, e.get(), found),
        Expr::Discard(e) => spots(alloc, e.get(), found),
    }
}

#[cycle(walking)]
fn argument_spots(
    alloc: Global,
    expressions: &[Expr],
    found: &mut SpotList,
) -> Result<(), AllocError>
    ensures { OnOk result (Finds (unit.arguments_spots expressions.now) found.old found.new) }
{
    'each: for expression in expressions {
        spots(alloc, expression, found)?;
    }
    Ok(())
}

fn optional_spots(
    alloc: Global,
    expression: &Option<Expr>,
    found: &mut SpotList,
) -> Result<(), AllocError>
    ensures { OnOk result (Finds (unit.optional_spots expression.now) found.old found.new) }
{
    match expression {
        Some(expression) => spots(alloc, expression, found),
        None => Ok(()),
    }
}

#[cycle(initializing)]
#[tactic(auto, using(crate::proofs::Found::initializer_rules))]
fn initializer_spots(
    alloc: Global,
    initializer: &Initializer,
    found: &mut SpotList,
) -> Result<(), AllocError>
    ensures { OnOk result (Finds (unit.initializer_spots initializer.now) found.old found.new) }
{
    match initializer {
        Initializer::Absent(_) => Ok(()),
        Initializer::Value(_, expression) => spots(alloc, expression, found),
        Initializer::List(parts, _) => list_spots(alloc, parts.as_slice(), found),
        Initializer::Text(_, _) => Ok(()),
        Initializer::Zeros(_) => Ok(()),
        Initializer::Mutex => Ok(()),
    }
}

#[cycle(initializing)]
fn list_spots(alloc: Global, parts: &[Initializer], found: &mut SpotList) -> Result<(), AllocError>
    ensures { OnOk result (Finds (parts_spots parts.now) found.old found.new) }
{
    'each: for part in parts {
        initializer_spots(alloc, part, found)?;
    }
    Ok(())
}

fn declaration_spots(
    alloc: Global,
    variable: &LocalVariable,
    found: &mut SpotList,
) -> Result<(), AllocError>
    ensures { OnOk result (Finds (λ rest. unit.declared variable.now.storage variable.now.place (unit.initializer_spots variable.now.initializer rest)) found.old found.new) }
{
    declared_spots(variable.storage, variable.place, found)?;
    initializer_spots(alloc, &variable.initializer, found)
}

#[cycle(stating)]
#[tactic(auto, using(core_unit::proofs::StatementEquations::stmt_spot_rules, crate::proofs::Found::jump_rules))]
fn stmt_spots(alloc: Global, statement: &Stmt, found: &mut SpotList) -> Result<(), AllocError>
    ensures { OnOk result (Finds (unit.stmt_spots statement.now) found.old found.new) }
{
    match statement {
        Stmt::Block(items) => stmts_spots(alloc, items.as_slice(), found),
        Stmt::Variable(variable) => declaration_spots(alloc, variable, found),
        Stmt::Empty => Ok(()),
        Stmt::Expression(expression) => spots(alloc, expression, found),
        Stmt::If(condition, inner, other) => {
            spots(alloc, condition, found)?;
            stmt_spots(alloc, inner.get(), found)?;
            stmts_spots(alloc, other.as_slice(), found)
        }
        Stmt::Loop(kind, condition, inner) => match kind {
            LoopKind::While => {
                spots(alloc, condition, found)?;
                stmt_spots(alloc, inner.get(), found)
            }
            LoopKind::DoWhile => {
                stmt_spots(alloc, inner.get(), found)?;
                spots(alloc, condition, found)
            }
        },
        Stmt::For(start, test, step, inner) => {
            stmts_spots(alloc, start.as_slice(), found)?;
            optional_spots(alloc, test, found)?;
            stmt_spots(alloc, inner.get(), found)?;
            optional_spots(alloc, step, found)
        }
        Stmt::Break => Ok(()),
        Stmt::Continue => Ok(()),
        Stmt::Return(value) => optional_spots(alloc, value, found),
    }
}

/// The places of statements, in order of evaluation.
#[cycle(stating)]
pub fn stmts_spots(
    alloc: Global,
    statements: &[Stmt],
    found: &mut SpotList,
) -> Result<(), AllocError>
    ensures { OnOk result (Finds (unit.list_spots statements.now) found.old found.new) }
{
    'each: for statement in statements {
        stmt_spots(alloc, statement, found)?;
    }
    Ok(())
}
