//! How many calls begin at one token.

ghost use Rattle.std.specs.Prelude.{◌≡◌, ◌+◌, IfOk};
ghost use Rattle.type_rules.specs.Calls as spec;

use c_tree::Expr;
use std::alloc::AllocError;

fn one_more(calls: u32) -> Result<u32, AllocError>
    ensures { IfOk result (λ n. n ≡ calls + 1) }
{
    match calls.checked_add(1) {
        Some(more) => Ok(more),
        None => Err(AllocError),
    }
}

/// How many calls begin at the first token of an expression, in one walk down its left side. More than 32 bits tell are as want of memory.
#[tactic(auto, using(crate::proofs::Lefts::spine_rules))]
pub fn spine(expression: &Expr) -> Result<u32, AllocError>
    ensures { IfOk result (λ n. n ≡ spec.spine expression.now) }
{
    match expression {
        Expr::Call(_, callee, _) => one_more(spine(callee.get())?),
        Expr::Index(_, array, _) => spine(array.get()),
        Expr::Access(_, structure, _, _) => spine(structure.get()),
        Expr::Step(_, operand, _) => spine(operand.get()),
        Expr::Binary(_, left, _, _, _) => spine(left.get()),
        Expr::Conditional(_, condition, _, _) => spine(condition.get()),
        Expr::Assignment(_, left, _, _, _) => spine(left.get()),
        Expr::Name(_) => Ok(0),
        Expr::Number(_) => Ok(0),
        Expr::Character(_) => Ok(0),
        Expr::Text(_) => Ok(0),
        Expr::Parenthesised(_, _) => Ok(0),
        Expr::Unary(_, _, _) => Ok(0),
        Expr::SizeofType(_, _) => Ok(0),
        Expr::Cast(_, _, _) => Ok(0),
    }
}
