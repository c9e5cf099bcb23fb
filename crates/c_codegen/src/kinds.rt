// What kind of code an expression has.

ghost use Rattle.c_codegen.specs.Kinds.{IsOfKind};

use arithmetic::number;
use core_unit::{Expr, Word, level_of};

/// What kind of code an expression has.
#[derive(Clone, Copy)]
pub enum Kind {
    /// One instruction, which tells this word.
    Constant(Word),
    /// That of its operands alone.
    Operands,
    /// That of its operands, and what is done with their values.
    Operation,
    /// That of a place, and what is stored there.
    Assignment,
    /// That of operands, of which the value of the first decides which are evaluated.
    Choice,
    /// That of a call.
    Call,
}

// The kind of an expression.
#[tactic(auto, using(crate::proofs::ValuesKinds::kind_rules))]
pub fn kind_of(expression: &Expr) -> Kind
    ensures { IsOfKind expression.now result }
{
    match expression {
        Expr::Number(_, bits) => Kind::Constant(number(*bits)),
        Expr::Null => Kind::Constant(Word::Zero),
        Expr::Sizeof(words) => Kind::Constant(number(*words)),
        Expr::Function(function, kind) => {
            Kind::Constant(Word::FunctionPointer(*function, level_of(kind)))
        }
        Expr::LibraryFunction(_) => Kind::Constant(Word::Zero),
        Expr::TargetFunction(_) => Kind::Operands,
        Expr::FunctionPointer(_) => Kind::Operands,
        Expr::ArrayPointer(_) => Kind::Operands,
        Expr::AddressOf(_) => Kind::Operands,
        Expr::Load(_) => Kind::Operation,
        Expr::Assign(_, _) => Kind::Assignment,
        Expr::Compound(_, _, _) => Kind::Assignment,
        Expr::Step(_, _, _) => Kind::Assignment,
        Expr::Unary(_, _) => Kind::Operation,
        Expr::Binary(_, _, _) => Kind::Operation,
        Expr::Logical(_, _, _) => Kind::Choice,
        Expr::Conditional(_, _, _) => Kind::Choice,
        Expr::Comma(_, _) => Kind::Operands,
        Expr::Call(_, _, _, _) => Kind::Call,
        Expr::Convert(_, _, _) => Kind::Operands,
        Expr::Discard(_) => Kind::Operands,
    }
}
