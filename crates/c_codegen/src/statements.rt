// The code of statements.

ghost use Rattle.std.specs.Prelude.{◌≡◌, [], ◌+◌, ◌≤◌, ◌^◌, max, OnOk};
ghost use Rattle.c_codegen.specs.Emits.{here, EmitsStatement, EmitsStatements, EmitsTest, EmitsOptional};
ghost use Rattle.c_codegen.specs.Frames as frames;
ghost use Rattle.c_codegen.specs.Sizes as spec;

use crate::draft::Draft;
use crate::initializers::emit_variable;
use crate::sizes::{list_size, optional_size, size, statement_size, test_size};
use crate::values::emit_value;
use core_unit::{Expr, LoopKind, Stmt, Unit, Word};
use mcode::Instruction;
use std::alloc::{AllocError, Global};

/// Where `break` and `continue` go.
#[derive(Clone, Copy)]
pub struct Jumps {
    pub out: u32,
    pub back: u32,
}

// Of a `return`: its value, or 0 where it has none, with which the function is left.
#[tactic(auto, using(crate::proofs::StatedStatements::return_emissions))]
fn emit_return(
    alloc: Global,
    value: &Option<Expr>,
    draft: &mut Draft,
    unit: &Unit,
) -> Result<(), AllocError>
    requires room { here draft.old + spec.return_size value.now ≤ 2 ^ 21 }
    ensures code { OnOk result (EmitsStatement unit.now draft.old draft.new (Stmt.Return value.now) 0 0) }
    ensures long { OnOk result (here draft.new ≡ here draft.old + spec.return_size value.now) }
{
    match value {
        Some(e) => {
            emit_value(alloc, e, draft, unit)?;
            draft.put(Instruction::LeaveFunction)?;
            Ok(())
        }
        None => {
            draft.put(Instruction::SetValue(Word::Zero))?;
            draft.put(Instruction::LeaveFunction)?;
            Ok(())
        }
    }
}

// Of the condition of a `for`, which ends the loop at this place.
#[tactic(auto, using(crate::proofs::StatedStatements::part_emissions))]
fn emit_test(
    alloc: Global,
    test: &Option<Expr>,
    end: u32,
    draft: &mut Draft,
    unit: &Unit,
) -> Result<(), AllocError>
    requires room { here draft.old + spec.test_size test.now ≤ 2 ^ 21 }
    ensures code { OnOk result (EmitsTest unit.now draft.old draft.new test.now end) }
    ensures long { OnOk result (here draft.new ≡ here draft.old + spec.test_size test.now) }
{
    match test {
        Some(e) => {
            emit_value(alloc, e, draft, unit)?;
            draft.put(Instruction::GoIfZero(end))?;
            Ok(())
        }
        None => Ok(()),
    }
}

// Of what ends each turn of a `for`.
#[tactic(auto, using(crate::proofs::StatedStatements::part_emissions))]
fn emit_optional(
    alloc: Global,
    expression: &Option<Expr>,
    draft: &mut Draft,
    unit: &Unit,
) -> Result<(), AllocError>
    requires room { here draft.old + spec.optional_size expression.now ≤ 2 ^ 21 }
    ensures code { OnOk result (EmitsOptional unit.now draft.old draft.new expression.now) }
    ensures long { OnOk result (here draft.new ≡ here draft.old + spec.optional_size expression.now) }
{
    match expression {
        Some(e) => {
            emit_value(alloc, e, draft, unit)?;
            Ok(())
        }
        None => Ok(()),
    }
}

// Appends the code of a statement.
#[cycle(stating)]
#[tactic(auto, using(crate::proofs::SizeEquations::statement_size_rules, crate::proofs::StatedFrames::end_rules, crate::proofs::StatedRanks::rank_rules, crate::proofs::StatedStatements::statement_emissions))]
fn emit_statement(
    alloc: Global,
    statement: &Stmt,
    draft: &mut Draft,
    unit: &Unit,
    jumps: Jumps,
) -> Result<(), AllocError>
    requires room { here draft.old + spec.statement_size statement.now ≤ 2 ^ 21 }
    requires frame { frames.statement_end statement.now ≤ 2 ^ 20 }
    ensures code { OnOk result (EmitsStatement unit.now draft.old draft.new statement.now jumps.out jumps.back) }
    ensures long { OnOk result (here draft.new ≡ here draft.old + spec.statement_size statement.now) }
{
    match statement {
        Stmt::Block(items) => emit_statements(alloc, items.as_slice(), draft, unit, jumps),
        Stmt::Variable(variable) => emit_variable(alloc, variable, draft, unit),
        Stmt::Empty => Ok(()),
        Stmt::Expression(e) => emit_value(alloc, e, draft, unit),
        Stmt::If(condition, item, other) => emit_if(
            alloc,
            condition,
            item.get(),
            other.as_slice(),
            draft,
            unit,
            jumps,
        ),
        Stmt::Loop(kind, condition, body) => match kind {
            LoopKind::While => emit_while(alloc, condition, body.get(), draft, unit),
            LoopKind::DoWhile => emit_do(alloc, condition, body.get(), draft, unit),
        },
        Stmt::For(start, test, step, body) => {
            emit_statements(alloc, start.as_slice(), draft, unit, jumps)?;
            emit_for(alloc, test, step, body.get(), draft, unit)
        }
        Stmt::Break => draft.put(Instruction::GoTo(jumps.out)),
        Stmt::Continue => draft.put(Instruction::GoTo(jumps.back)),
        Stmt::Return(value) => emit_return(alloc, value, draft, unit),
    }
}

// Of an `if`, with at most one statement behind `else`.
#[cycle(stating)]
#[tactic(auto, using(crate::proofs::StatedStatements::branch_emissions))]
fn emit_if(
    alloc: Global,
    condition: &Expr,
    item: &Stmt,
    other: &[Stmt],
    draft: &mut Draft,
    unit: &Unit,
    jumps: Jumps,
) -> Result<(), AllocError>
    requires room { here draft.old + (spec.size condition.now + spec.listed_branches_size other.now (spec.statement_size item.now) (spec.list_size other.now)) ≤ 2 ^ 21 }
    requires frame { max (frames.statement_end item.now) (frames.list_end other.now) ≤ 2 ^ 20 }
    ensures code { OnOk result (EmitsStatement unit.now draft.old draft.new (Stmt.If condition.now item.now other.now) jumps.out jumps.back) }
    ensures long { OnOk result (here draft.new ≡ here draft.old + (spec.size condition.now + spec.listed_branches_size other.now (spec.statement_size item.now) (spec.list_size other.now))) }
{
    emit_value(alloc, condition, draft, unit)?;
    let end = draft.here() + statement_size(item) + 1;
    if other.is_empty() {
        draft.put(Instruction::GoIfZero(end))?;
        emit_statement(alloc, item, draft, unit, jumps)?;
        Ok(())
    } else {
        draft.put(Instruction::GoIfZero(end + 1))?;
        emit_statement(alloc, item, draft, unit, jumps)?;
        draft.put(Instruction::GoTo(end + 1 + list_size(other)))?;
        emit_statements(alloc, other, draft, unit, jumps)?;
        Ok(())
    }
}

// Of a `while`: each turn begins with the load of the halt word, where `continue` goes by way of the jump back.
#[cycle(stating)]
#[tactic(auto, using(crate::proofs::StatedStatements::loop_emissions))]
fn emit_while(
    alloc: Global,
    condition: &Expr,
    body: &Stmt,
    draft: &mut Draft,
    unit: &Unit,
) -> Result<(), AllocError>
    requires room { here draft.old + (spec.size condition.now + spec.statement_size body.now + 3) ≤ 2 ^ 21 }
    requires frame { frames.statement_end body.now ≤ 2 ^ 20 }
    ensures code { OnOk result (EmitsStatement unit.now draft.old draft.new (Stmt.Loop LoopKind.While condition.now body.now) 0 0) }
    ensures long { OnOk result (here draft.new ≡ here draft.old + (spec.size condition.now + spec.statement_size body.now + 3)) }
{
    let top = draft.here();
    let back = top + size(condition) + statement_size(body) + 2;
    let out = back + 1;
    draft.put(Instruction::CheckHalt)?;
    emit_value(alloc, condition, draft, unit)?;
    draft.put(Instruction::GoIfZero(out))?;
    emit_statement(alloc, body, draft, unit, Jumps { out, back })?;
    draft.put(Instruction::GoTo(top))?;
    Ok(())
}

// Of a `do`, whose `continue` goes to the condition.
#[cycle(stating)]
#[tactic(auto, using(crate::proofs::StatedStatements::loop_emissions))]
fn emit_do(
    alloc: Global,
    condition: &Expr,
    body: &Stmt,
    draft: &mut Draft,
    unit: &Unit,
) -> Result<(), AllocError>
    requires room { here draft.old + (spec.size condition.now + spec.statement_size body.now + 2) ≤ 2 ^ 21 }
    requires frame { frames.statement_end body.now ≤ 2 ^ 20 }
    ensures code { OnOk result (EmitsStatement unit.now draft.old draft.new (Stmt.Loop LoopKind.DoWhile condition.now body.now) 0 0) }
    ensures long { OnOk result (here draft.new ≡ here draft.old + (spec.size condition.now + spec.statement_size body.now + 2)) }
{
    let top = draft.here();
    let back = top + statement_size(body) + 1;
    let out = back + size(condition) + 1;
    draft.put(Instruction::CheckHalt)?;
    emit_statement(alloc, body, draft, unit, Jumps { out, back })?;
    emit_value(alloc, condition, draft, unit)?;
    draft.put(Instruction::GoIfNotZero(top))?;
    Ok(())
}

// Of a `for` behind what it begins with; its `continue` goes to what ends each turn.
#[cycle(stating)]
#[tactic(auto, using(crate::proofs::StatedStatements::loop_emissions))]
fn emit_for(
    alloc: Global,
    test: &Option<Expr>,
    step: &Option<Expr>,
    body: &Stmt,
    draft: &mut Draft,
    unit: &Unit,
) -> Result<(), AllocError>
    requires room { here draft.old + (spec.test_size test.now + spec.statement_size body.now + spec.optional_size step.now + 2) ≤ 2 ^ 21 }
    requires frame { frames.statement_end body.now ≤ 2 ^ 20 }
    ensures code { OnOk result (EmitsStatement unit.now draft.old draft.new (Stmt.For [] test.now step.now body.now) 0 0) }
    ensures long { OnOk result (here draft.new ≡ here draft.old + (spec.test_size test.now + spec.statement_size body.now + spec.optional_size step.now + 2)) }
{
    let top = draft.here();
    let back = top + test_size(test) + statement_size(body) + 1;
    let out = back + optional_size(step) + 1;
    draft.put(Instruction::CheckHalt)?;
    emit_test(alloc, test, out, draft, unit)?;
    emit_statement(alloc, body, draft, unit, Jumps { out, back })?;
    emit_optional(alloc, step, draft, unit)?;
    draft.put(Instruction::GoTo(top))?;
    Ok(())
}

// Appends the code of statements, one after another.
#[cycle(stating)]
#[tactic(auto, using(crate::proofs::StatedStatements::list_emissions))]
pub fn emit_statements(
    alloc: Global,
    statements: &[Stmt],
    draft: &mut Draft,
    unit: &Unit,
    jumps: Jumps,
) -> Result<(), AllocError>
    requires room { here draft.old + spec.list_size statements.now ≤ 2 ^ 21 }
    requires frame { frames.list_end statements.now ≤ 2 ^ 20 }
    ensures code { OnOk result (EmitsStatements unit.now draft.old draft.new statements.now jumps.out jumps.back) }
    ensures long { OnOk result (here draft.new ≡ here draft.old + spec.list_size statements.now) }
{
    'each: for statement in statements {
        emit_statement(alloc, statement, draft, unit, jumps)?;
    }
    Ok(())
}
