// The code of expressions and places.

ghost use Rattle.std.specs.Prelude.{◌≡◌, ◌+◌, ◌≤◌, ◌^◌, OnOk, IfOk};
ghost use Rattle.c_codegen.specs.Emits.{here, EmitsPlace, EmitsValue, EmitsArguments};
ghost use Rattle.c_codegen.specs.Kinds.{IsOfOperands, IsOperation, IsAssignment, IsChoice, IsCall};
ghost use Rattle.c_codegen.specs.Lies.{address_of, decides};
ghost use Rattle.c_codegen.specs.Sizes as spec;

use crate::callees::{Called, kind_of_callee, row_count, through_count};
use crate::draft::Draft;
use crate::kinds::{Kind, kind_of};
use crate::sizes::size;
use crate::types::{level_at, operation, served_at, update_operation};
use arithmetic::Operation;
use core_unit::{BinaryOperator, Expr, LogicalOperator, Place, Sign, Storage, Unit, Word};
use mcode::Instruction;
use std::alloc::{AllocError, Global};

// The instruction that tells the address of a variable.
fn address(storage: Storage) -> Instruction
    ensures { result ≡ address_of storage }
{
    match storage {
        Storage::Automatic(offset) => Instruction::SetLocal(offset),
        Storage::Static(address) => Instruction::SetValue(Word::DataPointer(address)),
        Storage::ThreadLocal(offset) => Instruction::SetThreadLocal(offset),
    }
}

// Where `&&` and `||` go on without their right operand.
fn deciding(operator: LogicalOperator, place: u32) -> Instruction
    ensures { result ≡ decides operator place }
{
    match operator {
        LogicalOperator::And => Instruction::GoIfZero(place),
        LogicalOperator::Or => Instruction::GoIfNotZero(place),
    }
}

/// Appends the code that finds the address of a place. The one error is that no memory is left.
#[cycle(emitting)]
#[tactic(auto, using(crate::proofs::ValuesRanks::place_rank_rules, crate::proofs::ValuesEmitted::place_rules))]
pub fn emit_place(
    alloc: Global,
    place: &Place,
    draft: &mut Draft,
    unit: &Unit,
) -> Result<(), AllocError>
    requires room { here draft.old + spec.place_size place.now ≤ 2 ^ 21 }
    ensures code { OnOk result (EmitsPlace unit.now draft.old draft.new place.now) }
    ensures long { OnOk result (here draft.new ≡ here draft.old + spec.place_size place.now) }
{
    match place {
        Place::Variable(_, storage, _) => {
            draft.put(address(*storage))?;
            Ok(())
        }
        Place::Text(at, _) => {
            draft.put(Instruction::SetValue(Word::DataPointer(*at)))?;
            Ok(())
        }
        Place::Indirection(pointer, _) => {
            emit_value(alloc, pointer.get(), draft, unit)?;
            Ok(())
        }
        Place::Arrow(pointer, _) => {
            emit_value(alloc, pointer.get(), draft, unit)?;
            Ok(())
        }
        Place::Element(left, right, side, words, _) => {
            let plus = BinaryOperator::PointerPlus(*side, *words);
            let operation = operation(alloc, plus, left.get(), right.get())?;
            emit_value(alloc, left.get(), draft, unit)?;
            draft.put(Instruction::HoldValue)?;
            emit_value(alloc, right.get(), draft, unit)?;
            draft.put(Instruction::Apply(operation))?;
            Ok(())
        }
        Place::Member(whole, offset, _) => {
            emit_place(alloc, whole.get(), draft, unit)?;
            draft.put(Instruction::Shift(*offset))?;
            Ok(())
        }
    }
}

/// Appends the code that finds the value of an expression. The one error is that no memory is left.
#[cycle(emitting)]
#[tactic(auto, using(crate::proofs::ValuesEmitted::constant_rules))]
pub fn emit_value(
    alloc: Global,
    expression: &Expr,
    draft: &mut Draft,
    unit: &Unit,
) -> Result<(), AllocError>
    requires room { here draft.old + spec.size expression.now ≤ 2 ^ 21 }
    ensures code { OnOk result (EmitsValue unit.now draft.old draft.new expression.now) }
    ensures long { OnOk result (here draft.new ≡ here draft.old + spec.size expression.now) }
{
    match kind_of(expression) {
        Kind::Constant(word) => {
            draft.put(Instruction::SetValue(word))?;
            Ok(())
        }
        Kind::Operands => emit_operands(alloc, expression, draft, unit),
        Kind::Operation => emit_operation(alloc, expression, draft, unit),
        Kind::Assignment => emit_assignment(alloc, expression, draft, unit),
        Kind::Choice => emit_choice(alloc, expression, draft, unit),
        Kind::Call => emit_call(alloc, expression, draft, unit),
    }
}

// The code of an expression that is evaluated as its operands are.
#[cycle(emitting)]
#[tactic(auto, using(crate::proofs::ValuesRanks::rank_rules, crate::proofs::ValuesEmitted::operand_rules))]
fn emit_operands(
    alloc: Global,
    expression: &Expr,
    draft: &mut Draft,
    unit: &Unit,
) -> Result<(), AllocError>
    requires kind { IsOfOperands expression.now }
    requires room { here draft.old + spec.size expression.now ≤ 2 ^ 21 }
    ensures code { OnOk result (EmitsValue unit.now draft.old draft.new expression.now) }
    ensures long { OnOk result (here draft.new ≡ here draft.old + spec.size expression.now) }
{
    match expression {
        Expr::TargetFunction(e) => {
            emit_value(alloc, e.get(), draft, unit)?;
            Ok(())
        }
        Expr::FunctionPointer(e) => {
            emit_value(alloc, e.get(), draft, unit)?;
            Ok(())
        }
        Expr::ArrayPointer(place) => {
            emit_place(alloc, place.get(), draft, unit)?;
            Ok(())
        }
        Expr::AddressOf(place) => {
            emit_place(alloc, place.get(), draft, unit)?;
            Ok(())
        }
        Expr::Comma(a, b) => {
            emit_value(alloc, a.get(), draft, unit)?;
            emit_value(alloc, b.get(), draft, unit)?;
            Ok(())
        }
        Expr::Convert(_, _, e) => {
            emit_value(alloc, e.get(), draft, unit)?;
            Ok(())
        }
        Expr::Discard(e) => {
            emit_value(alloc, e.get(), draft, unit)?;
            Ok(())
        }
        _ => unreachable!(),
    }
}

// The code of a load, and of an operator with one operand or two.
#[cycle(emitting)]
#[tactic(auto, using(crate::proofs::ValuesRanks::rank_rules, crate::proofs::ValuesEmitted::operation_rules))]
fn emit_operation(
    alloc: Global,
    expression: &Expr,
    draft: &mut Draft,
    unit: &Unit,
) -> Result<(), AllocError>
    requires kind { IsOperation expression.now }
    requires room { here draft.old + spec.size expression.now ≤ 2 ^ 21 }
    ensures code { OnOk result (EmitsValue unit.now draft.old draft.new expression.now) }
    ensures long { OnOk result (here draft.new ≡ here draft.old + spec.size expression.now) }
{
    match expression {
        Expr::Load(place) => {
            emit_place(alloc, place.get(), draft, unit)?;
            draft.put(Instruction::LoadAs(served_at(unit, place.get())))?;
            Ok(())
        }
        Expr::Unary(operator, e) => {
            emit_value(alloc, e.get(), draft, unit)?;
            draft.put(Instruction::Change(*operator))?;
            Ok(())
        }
        Expr::Binary(operator, a, b) => {
            let operation = operation(alloc, *operator, a.get(), b.get())?;
            emit_value(alloc, a.get(), draft, unit)?;
            draft.put(Instruction::HoldValue)?;
            emit_value(alloc, b.get(), draft, unit)?;
            draft.put(Instruction::Apply(operation))?;
            Ok(())
        }
        _ => unreachable!(),
    }
}

// The code of an assignment, of one with an operation, and of `++` and `--`.
#[cycle(emitting)]
#[tactic(auto, using(crate::proofs::ValuesRanks::rank_rules, crate::proofs::ValuesEmitted::assignment_rules))]
fn emit_assignment(
    alloc: Global,
    expression: &Expr,
    draft: &mut Draft,
    unit: &Unit,
) -> Result<(), AllocError>
    requires kind { IsAssignment expression.now }
    requires room { here draft.old + spec.size expression.now ≤ 2 ^ 21 }
    ensures code { OnOk result (EmitsValue unit.now draft.old draft.new expression.now) }
    ensures long { OnOk result (here draft.new ≡ here draft.old + spec.size expression.now) }
{
    match expression {
        Expr::Assign(place, e) => {
            emit_place(alloc, place.get(), draft, unit)?;
            draft.put(Instruction::HoldValue)?;
            emit_value(alloc, e.get(), draft, unit)?;
            draft.put(Instruction::StoreAs(level_at(place.get())))?;
            Ok(())
        }
        Expr::Compound(place, how, e) => {
            let operation = update_operation(alloc, *how, e.get())?;
            emit_place(alloc, place.get(), draft, unit)?;
            draft.put(Instruction::HoldValue)?;
            draft.put(Instruction::LoadAs(served_at(unit, place.get())))?;
            draft.put(Instruction::HoldValue)?;
            emit_value(alloc, e.get(), draft, unit)?;
            draft.put(Instruction::Apply(operation))?;
            draft.put(Instruction::StoreAs(level_at(place.get())))?;
            Ok(())
        }
        Expr::Step(place, how, which) => {
            emit_place(alloc, place.get(), draft, unit)?;
            draft.put(Instruction::HoldValue)?;
            draft.put(Instruction::LoadAs(served_at(unit, place.get())))?;
            draft.put(Instruction::HoldValue)?;
            draft.put(Instruction::Advance(Operation::of_update(*how, Sign::Signed)))?;
            draft.put(Instruction::StoreStep(level_at(place.get()), *which))?;
            Ok(())
        }
        _ => unreachable!(),
    }
}

// The code of `&&` and `||`, and of `?:`.
#[cycle(emitting)]
#[tactic(auto, using(crate::proofs::ValuesRanks::rank_rules, crate::proofs::ValuesEmitted::choice_rules))]
fn emit_choice(
    alloc: Global,
    expression: &Expr,
    draft: &mut Draft,
    unit: &Unit,
) -> Result<(), AllocError>
    requires kind { IsChoice expression.now }
    requires room { here draft.old + spec.size expression.now ≤ 2 ^ 21 }
    ensures code { OnOk result (EmitsValue unit.now draft.old draft.new expression.now) }
    ensures long { OnOk result (here draft.new ≡ here draft.old + spec.size expression.now) }
{
    match expression {
        Expr::Logical(operator, a, b) => {
            emit_value(alloc, a.get(), draft, unit)?;
            let place = draft.here() + size(b.get()) + 1;
            draft.put(deciding(*operator, place))?;
            emit_value(alloc, b.get(), draft, unit)?;
            draft.put(Instruction::Truth)?;
            Ok(())
        }
        Expr::Conditional(test, a, b) => {
            emit_value(alloc, test.get(), draft, unit)?;
            let other = draft.here() + size(a.get()) + 2;
            let end = other + size(b.get());
            draft.put(Instruction::GoIfZero(other))?;
            emit_value(alloc, a.get(), draft, unit)?;
            draft.put(Instruction::GoTo(end))?;
            emit_value(alloc, b.get(), draft, unit)?;
            Ok(())
        }
        _ => unreachable!(),
    }
}

// The code of a call.
#[cycle(emitting)]
#[tactic(auto, using(crate::proofs::ValuesRanks::rank_rules, crate::proofs::ValuesEmitted::call_rules))]
fn emit_call(
    alloc: Global,
    expression: &Expr,
    draft: &mut Draft,
    unit: &Unit,
) -> Result<(), AllocError>
    requires kind { IsCall expression.now }
    requires room { here draft.old + spec.size expression.now ≤ 2 ^ 21 }
    ensures code { OnOk result (EmitsValue unit.now draft.old draft.new expression.now) }
    ensures long { OnOk result (here draft.new ≡ here draft.old + spec.size expression.now) }
{
    let Expr::Call(_, site, callee, arguments) = expression else {
        unreachable!()
    };
    match kind_of_callee(callee.get()) {
        Called::Named(function) => {
            emit_arguments(alloc, arguments.as_slice(), draft, unit)?;
            draft.put(Instruction::CheckHalt)?;
            draft.put(Instruction::EnterFunction(function, *site))?;
            Ok(())
        }
        Called::Row(row) => {
            let count = row_count(alloc, row)?;
            emit_arguments(alloc, arguments.as_slice(), draft, unit)?;
            draft.put(Instruction::CheckHalt)?;
            draft.put(Instruction::CallRow(row, *site, count))?;
            Ok(())
        }
        Called::Through => {
            let count = through_count(alloc, callee.get())?;
            emit_value(alloc, callee.get(), draft, unit)?;
            draft.put(Instruction::HoldValue)?;
            emit_arguments(alloc, arguments.as_slice(), draft, unit)?;
            draft.put(Instruction::Guard(count))?;
            draft.put(Instruction::CheckHalt)?;
            draft.put(Instruction::EnterThrough(count, *site))?;
            Ok(())
        }
    }
}

// The code of the arguments of a call, each of which is held.
#[cycle(emitting)]
#[tactic(auto, using(crate::proofs::ValuesRanks::rank_within, crate::proofs::Emitted::argument_emissions))]
fn emit_arguments(
    alloc: Global,
    arguments: &[Expr],
    draft: &mut Draft,
    unit: &Unit,
) -> Result<(), AllocError>
    requires room { here draft.old + spec.arguments_size arguments.now ≤ 2 ^ 21 }
    ensures code { OnOk result (EmitsArguments unit.now draft.old draft.new arguments.now) }
    ensures long { OnOk result (here draft.new ≡ here draft.old + spec.arguments_size arguments.now) }
{
    'each: for argument in arguments {
        emit_value(alloc, argument, draft, unit)?;
        draft.put(Instruction::HoldValue)?;
    }
    Ok(())
}
