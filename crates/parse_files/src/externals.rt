//! Definitions and declarations at file scope, and files (C17 6.9).

ghost use Rattle.std.specs.Prelude.{◌≡◌, false, map, IfOk, IfErr, OnOk};
ghost use Rattle.c_grammar.specs.Rules.{Block as NamedBlock, External as NamedExternal, Externals, Unit as WholeFile};
ghost use Rattle.c_grammar.specs.Trees.{specs_place};
ghost use Rattle.c_grammar.specs.Declarators.{hide_all};
ghost use Rattle.c_grammar.specs.Statements.{file_scope};
ghost use Rattle.parse_input.specs.Input.{with_scope};
ghost use Rattle.parse_input.specs.Reads.{named, reads, Says};
ghost use Rattle.parse_input.specs.declared.read.Refusal.TheVariants.{NoMemory};
ghost use Rattle.parse_declarations.specs.Scoped.{Leaves, Extends, declarators_read};
ghost use Rattle.parse_files.specs.Defined.{external_read, body_of, declarators_from, behind_specs};

use crate::body::body;
use crate::values::Block;
use c_grammar::{Bracket, DeclaratorKind, SpecifierContext, Terminal};
use c_tree::{Declarator, External, FunctionDefinition, InitDeclarator, Spec, Tree};
use parse_declarations::{declare, declared, has_typedef, more_declarators, with_value};
use parse_input::{Input, Limits, Read, Refusal, begins_specifiers, deeper, specs_place};
use parse_recursion::{declarator, specifiers};
use sqlite_items::{Boxed, Items};
use std::alloc::{AllocError, Global};

/// None of the names is a typedef name from here on.
fn hide_all<'a>(names: &[&'a [u8]], input: &mut Input<'a>) -> Result<(), Refusal>
    ensures hidden { OnOk result (input.new ≡ with_scope input.old (hide_all (map (λ text. text.now) names.now) input.old.scope)) }
    ensures memory { IfErr result (λ refusal. refusal ≡ NoMemory) }
{
    'each: for name in names {
        input.hide(name)?;
    }
    Ok(())
}

/// The body of a function whose parameters have these names.
#[tactic(auto, using(crate::proofs::Definitions::hidden_longer, crate::proofs::Definitions::hidden_cut))]
fn body_inside<'a>(
    alloc: Global,
    limits: Limits,
    own: Items<&'a [u8]>,
    input: &mut Input<'a>,
) -> Result<Read<Block>, Refusal>
    requires file { input.old.scope.block ≡ false }
    ensures reads { Says (named limits.room (NamedBlock (body_of (map (λ text. text.now) own.entry) input.old.scope) false) input.old.tokens) result input.new.tokens }
    ensures kept { IfOk result (λ read. input.new.scope ≡ input.old.scope) }
{
    let mark = input.mark();
    hide_all(own.as_slice(), input)?;
    input.set_block(true);
    let inside = body(alloc, limits, input)?;
    input.set_block(false);
    input.restore(mark);
    Ok(inside)
}

/// The declarators from one that was read on, up to the `;`.
#[tactic(auto, using(crate::proofs::Definitions::from_rule, parse_declarations::proofs::Scopes::extends_both))]
fn declarators_from(
    alloc: Global,
    limits: Limits,
    typedefs: bool,
    tree: Boxed<Declarator>,
    input: &mut Input<'_>,
) -> Result<Read<Items<InitDeclarator>>, Refusal>
    ensures reads { Leaves declarators_read (reads (named limits.room) (declarators_from input.old.scope typedefs tree) input.old.tokens) result input.new }
    ensures grown { IfOk result (λ read. Extends input.old.scope input.new.scope) }
{
    let one = with_value(alloc, limits, tree, input)?;
    let mut value = Items::new(alloc);
    value.push(one.value)?;
    let before = Read {
        value,
        depth: one.depth,
    };
    more_declarators(alloc, limits, typedefs, before, input)
}

/// The definition of a function.
fn definition(
    alloc: Global,
    specs: Items<Spec>,
    tree: Boxed<Declarator>,
    body: Block,
) -> Result<External, AllocError>
    ensures { IfOk result (λ external. external ≡ External.Function (record { place = specs_place specs; specs = specs; declarator = tree; body_place = body.place; body = body.items })) }
{
    let place = specs_place(specs.as_slice());
    let whole = FunctionDefinition {
        place,
        specs,
        declarator: tree,
        body_place: body.place,
        body: body.items,
    };
    Ok(External::Function(Boxed::new(alloc, whole)?))
}

/// A declaration.
fn declaration(
    alloc: Global,
    specs: Items<Spec>,
    declarators: Items<InitDeclarator>,
) -> Result<External, AllocError>
    ensures { IfOk result (λ tree. tree ≡ External.Declaration (record { place = specs_place specs; specs = specs; declarators = declarators })) }
{
    Ok(External::Declaration(declared(alloc, specs, declarators)?))
}

/// What follows specifiers at file scope, where it isn't a `;`.
#[tactic(auto, using(crate::proofs::Definitions::specs_rule, crate::proofs::Definitions::still_file, parse_declarations::proofs::Scopes::extends_both))]
fn behind_specs(
    alloc: Global,
    limits: Limits,
    specs: Items<Spec>,
    input: &mut Input<'_>,
) -> Result<Read<External>, Refusal>
    requires file { input.old.scope.block ≡ false }
    ensures reads { Leaves external_read (reads (named limits.room) (behind_specs input.old.scope specs) input.old.tokens) result input.new }
    ensures grown { IfOk result (λ read. Extends input.old.scope input.new.scope) }
{
    let typedefs = has_typedef(specs.as_slice());
    let front = declarator(
        alloc,
        limits,
        DeclaratorKind::Ordinary,
        Bracket::Unknown,
        input,
    )?;
    let depth = front.depth;
    let found = front.value;
    let own = found.own;
    let tree = found.tree;
    declare(typedefs, found.name, input)?;
    if input.is(Terminal::OpenBrace) {
        let body = body_inside(alloc, limits, own, input)?;
        let depth = deeper(depth, body.depth);
        return Ok(Read {
            value: definition(alloc, specs, tree, body.value)?,
            depth,
        });
    }
    let all = declarators_from(alloc, limits, typedefs, tree, input)?;
    let depth = deeper(depth, all.depth);
    Ok(Read {
        value: declaration(alloc, specs, all.value)?,
        depth,
    })
}

/// A definition or a declaration at file scope.
#[tactic(auto, using(crate::proofs::Definitions::external_rule, crate::proofs::Definitions::no_external, crate::proofs::Definitions::still_file, parse_input::proofs::Steps::within, parse_input::proofs::Steps::reads_within))]
fn external(alloc: Global, limits: Limits, input: &mut Input<'_>) -> Result<Read<External>, Refusal>
    requires file { input.old.scope.block ≡ false }
    ensures reads { Leaves external_read (named limits.room (NamedExternal input.old.scope) input.old.tokens) result input.new }
    ensures file { IfOk result (λ read. input.new.scope.block ≡ false) }
{
    if limits.room == 0 {
        return Err(Refusal::Refused(begins_specifiers(SpecifierContext::File, input)));
    }
    let inside = limits.inside();
    let front = specifiers(alloc, inside, SpecifierContext::File, input)?;
    let depth = front.depth;
    let specs = front.value.specs;
    if input.is(Terminal::Semicolon) {
        let _end = input.take();
        return Ok(Read {
            value: declaration(alloc, specs, Items::new(alloc))?,
            depth: depth + 1,
        });
    }
    let one = behind_specs(alloc, inside, specs, input)?;
    Ok(Read {
        value: one.value,
        depth: deeper(depth, one.depth) + 1,
    })
}

/// Definitions and declarations at file scope.
#[tactic(auto, using(crate::proofs::Definitions::externals_ended, crate::proofs::Definitions::externals_refused, crate::proofs::Definitions::externals_more, crate::proofs::Definitions::external_less, parse_declarations::proofs::Gathered::gathered_none))]
fn externals(
    alloc: Global,
    limits: Limits,
    input: &mut Input<'_>,
) -> Result<Read<Items<External>>, Refusal>
    requires file { input.old.scope.block ≡ false }
    ensures reads { Says (named limits.room (Externals input.old.scope) input.old.tokens) result input.new.tokens }
{
    let mut value = Items::new(alloc);
    let mut depth = 0;
    'each: loop {
        if !begins_specifiers(SpecifierContext::File, input) {
            return Ok(Read { value, depth });
        }
        let one = external(alloc, limits, input)?;
        value.push(one.value)?;
        depth = deeper(depth, one.depth);
    }
}

/// All of a file.
#[tactic(auto, using(crate::proofs::Definitions::unit_rule))]
pub fn unit(alloc: Global, limits: Limits, input: &mut Input<'_>) -> Result<Read<Tree>, Refusal>
    requires file { input.old.scope ≡ file_scope }
    ensures reads { Says (named limits.room WholeFile input.old.tokens) result input.new.tokens }
{
    let all = externals(alloc, limits, input)?;
    Ok(Read {
        value: Tree {
            externals: all.value,
        },
        depth: all.depth,
    })
}
