//! Expressions, specifiers and declarators of C, which hold one another.
//!
//! Their rules take what they hold as function values (crates `parse_expressions`, `parse_specifiers`,
//! `parse_parameters` and `parse_declarators`). Here each of the five that lead back to one another is tied to the others.
#![tactic(auto)]

ghost use Rattle.std.specs.Prelude.{◌≡◌, IfOk};
ghost use Rattle.c_grammar.specs.Rules.{Specs, Conditional, Declarator as NamedDeclarator, Members, TypeName as NamedType};
ghost use Rattle.c_grammar.specs.Specifiers.{no_specs};
ghost use Rattle.parse_input.specs.Reads.{named, Says};
ghost use Rattle.parse_operands.specs.Named.{named_expression};

use c_grammar::{Bracket, DeclaratorKind, SpecifierContext};
use c_tree::{Expr, Member, TypeName};
use parse_declarators::Declarators;
use parse_declared::Declared;
use parse_expressions::Expressions;
use parse_input::{Input, Limits, Read, Refusal};
use parse_operands::{Operands, Wanted};
use parse_parameters::DeclaratorRules;
use parse_specifiers::{SpecifierRules, Specifiers};
use sqlite_items::{Boxed, Items};
use std::alloc::Global;

/// An expression.
#[cycle(nested)]
pub fn expression(
    alloc: Global,
    limits: Limits,
    wanted: Wanted,
    input: &mut Input<'_>,
) -> Result<Read<Boxed<Expr>>, Refusal>
    ensures reads { Says (named_expression limits.room wanted input.old.scope input.old.tokens) result input.new.tokens }
    ensures kept { IfOk result (λ read. input.new.scope ≡ input.old.scope) }
{
    Expressions {
        operands: Operands {
            alloc,
            expression,
            type_name,
        },
    }
    .read(limits, wanted, input)
}

#[cycle(nested)]
fn conditional(
    alloc: Global,
    limits: Limits,
    input: &mut Input<'_>,
) -> Result<Read<Boxed<Expr>>, Refusal>
    ensures reads { Says (named limits.room (Conditional input.old.scope) input.old.tokens) result input.new.tokens }
    ensures kept { IfOk result (λ read. input.new.scope ≡ input.old.scope) }
{
    expression(alloc, limits, Wanted::Conditional, input)
}

#[cycle(nested)]
fn type_name(
    alloc: Global,
    limits: Limits,
    input: &mut Input<'_>,
) -> Result<Read<Boxed<TypeName>>, Refusal>
    ensures reads { Says (named limits.room (NamedType input.old.scope) input.old.tokens) result input.new.tokens }
    ensures kept { IfOk result (λ read. input.new.scope ≡ input.old.scope) }
{
    DeclaratorRules {
        specifiers: SpecifierRules {
            alloc,
            conditional,
            members,
        },
        declarator,
    }
    .type_name(limits, input)
}

/// A declarator.
#[cycle(nested)]
pub fn declarator<'a>(
    alloc: Global,
    limits: Limits,
    kind: DeclaratorKind,
    bracket: Bracket,
    input: &mut Input<'a>,
) -> Result<Read<Declared<'a>>, Refusal>
    ensures reads { Says (named limits.room (NamedDeclarator input.old.scope kind bracket) input.old.tokens) result input.new.tokens }
    ensures kept { IfOk result (λ read. input.new.scope ≡ input.old.scope) }
{
    Declarators {
        rules: DeclaratorRules {
            specifiers: SpecifierRules {
                alloc,
                conditional,
                members,
            },
            declarator,
        },
    }
    .declarator(limits, kind, bracket, input)
}

#[cycle(nested)]
fn members(
    alloc: Global,
    limits: Limits,
    input: &mut Input<'_>,
) -> Result<Read<Items<Member>>, Refusal>
    ensures reads { Says (named limits.room (Members input.old.scope) input.old.tokens) result input.new.tokens }
    ensures kept { IfOk result (λ read. input.new.scope ≡ input.old.scope) }
{
    DeclaratorRules {
        specifiers: SpecifierRules {
            alloc,
            conditional,
            members,
        },
        declarator,
    }
    .members(limits, input)
}

/// Specifiers.
pub fn specifiers(
    alloc: Global,
    limits: Limits,
    context: SpecifierContext,
    input: &mut Input<'_>,
) -> Result<Read<Specifiers>, Refusal>
    ensures reads { Says (named limits.room (Specs context input.old.scope no_specs) input.old.tokens) result input.new.tokens }
    ensures kept { IfOk result (λ read. input.new.scope ≡ input.old.scope) }
{
    SpecifierRules {
        alloc,
        conditional,
        members,
    }
    .specifiers(limits, context, input)
}
