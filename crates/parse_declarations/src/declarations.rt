//! Declarations (C17 6.7).

ghost use Rattle.std.specs.Prelude.{◌≡◌, IfOk, IfErr, OnOk};
ghost use Rattle.c_grammar.specs.Rules.{InitDeclarators, MoreDeclarators, Declaration};
ghost use Rattle.c_grammar.specs.Trees.{specs_place};
ghost use Rattle.c_grammar.specs.Statements.{declare};
ghost use Rattle.parse_input.specs.Input.{with_scope};
ghost use Rattle.parse_input.specs.Reads.{named, reads, Says};
ghost use Rattle.parse_input.specs.declared.read.Refusal.TheVariants.{NoMemory};
ghost use Rattle.parse_declared.specs.Named.{text_of};
ghost use Rattle.parse_declarations.specs.Scoped.{Leaves, Extends, with_value, one_declarator, one_read, declarators_read, declaration_read, behind_declarators};

use crate::initializers::initializer;
use crate::specs::has_typedef;
use c_grammar::{Bracket, DeclaratorKind, SpecifierContext, Terminal};
use c_tree::{Decl, Declarator, InitDeclarator, Spec};
use parse_input::{Input, Limits, Read, Refusal, begins_specifiers, deeper, specs_place};
use parse_recursion::{declarator, specifiers};
use sqlite_items::{Boxed, Items};
use std::alloc::{AllocError, Global};

/// Declares the name of a declarator.
#[tactic(auto, using(crate::proofs::Scopes::nothing_declared, crate::proofs::Scopes::extends_self, crate::proofs::Scopes::extends_one))]
pub fn declare<'a>(
    typedefs: bool,
    name: Option<&'a [u8]>,
    input: &mut Input<'a>,
) -> Result<(), Refusal>
    ensures declared { OnOk result (input.new ≡ with_scope input.old (declare input.old.scope typedefs (text_of name.entry))) }
    ensures grown { OnOk result (Extends input.old.scope input.new.scope) }
    ensures memory { IfErr result (λ refusal. refusal ≡ NoMemory) }
{
    let Some(name) = name else {
        return Ok(());
    };
    if input.is_in_block() {
        return input.hide(name);
    }
    if typedefs {
        return input.add_type(name);
    }
    Ok(())
}

/// A declarator that was read, with the initializer behind it.
#[tactic(auto, using(crate::proofs::Declares::value_rule))]
pub fn with_value(
    alloc: Global,
    limits: Limits,
    tree: Boxed<Declarator>,
    input: &mut Input<'_>,
) -> Result<Read<InitDeclarator>, Refusal>
    ensures reads { Says (reads (named limits.room) (with_value input.old.scope tree) input.old.tokens) result input.new.tokens }
    ensures kept { IfOk result (λ read. input.new.scope ≡ input.old.scope) }
{
    if !input.is(Terminal::Equal) {
        return Ok(Read {
            value: InitDeclarator {
                declarator: tree,
                init: None,
            },
            depth: 0,
        });
    }
    let _equal = input.take();
    let value = initializer(alloc, limits, input)?;
    Ok(Read {
        value: InitDeclarator {
            declarator: tree,
            init: Some(value.value),
        },
        depth: value.depth,
    })
}

/// A declarator with its initializer, which declares its name.
#[tactic(auto, using(crate::proofs::Declares::one_rule))]
fn one_declarator(
    alloc: Global,
    limits: Limits,
    typedefs: bool,
    input: &mut Input<'_>,
) -> Result<Read<InitDeclarator>, Refusal>
    ensures reads { Leaves one_read (reads (named limits.room) (one_declarator input.old.scope typedefs) input.old.tokens) result input.new }
    ensures grown { IfOk result (λ read. Extends input.old.scope input.new.scope) }
{
    let front = declarator(
        alloc,
        limits,
        DeclaratorKind::Ordinary,
        Bracket::Unknown,
        input,
    )?;
    let depth = front.depth;
    let found = front.value;
    declare(typedefs, found.name, input)?;
    let one = with_value(alloc, limits, found.tree, input)?;
    Ok(Read {
        value: one.value,
        depth: deeper(depth, one.depth),
    })
}

/// The declarators behind these, up to the `;`.
#[tactic(auto, using(crate::proofs::Declares::more_closed, crate::proofs::Declares::more_faulty, crate::proofs::Declares::more_refused, crate::proofs::Declares::more_goes, crate::proofs::Scopes::extends_self, crate::proofs::Scopes::extends_both, parse_input::proofs::Steps::sees_less, parse_input::proofs::Steps::reads_shorter))]
pub fn more_declarators(
    alloc: Global,
    limits: Limits,
    typedefs: bool,
    before: Read<Items<InitDeclarator>>,
    input: &mut Input<'_>,
) -> Result<Read<Items<InitDeclarator>>, Refusal>
    ensures reads { Leaves declarators_read (behind_declarators before.value before.depth (named limits.room (MoreDeclarators input.old.scope typedefs) input.old.tokens)) result input.new }
    ensures grown { IfOk result (λ read. Extends input.old.scope input.new.scope) }
{
    let mut value = before.value;
    let mut depth = before.depth;
    'each: loop {
        if !input.is(Terminal::Comma) {
            if !input.is(Terminal::Semicolon) {
                return Err(Refusal::Refused(false));
            }
            let _end = input.take();
            return Ok(Read { value, depth });
        }
        let _comma = input.take();
        let one = one_declarator(alloc, limits, typedefs, input)?;
        value.push(one.value)?;
        depth = deeper(depth, one.depth);
    }
}

/// The declarators with their initializers, up to the `;`.
#[tactic(auto, using(crate::proofs::Declares::init_rule, crate::proofs::Scopes::extends_both))]
fn init_declarators(
    alloc: Global,
    limits: Limits,
    typedefs: bool,
    input: &mut Input<'_>,
) -> Result<Read<Items<InitDeclarator>>, Refusal>
    ensures reads { Leaves declarators_read (named limits.room (InitDeclarators input.old.scope typedefs) input.old.tokens) result input.new }
    ensures grown { IfOk result (λ read. Extends input.old.scope input.new.scope) }
{
    let one = one_declarator(alloc, limits, typedefs, input)?;
    let mut value = Items::new(alloc);
    value.push(one.value)?;
    let before = Read {
        value,
        depth: one.depth,
    };
    more_declarators(alloc, limits, typedefs, before, input)
}

/// A declaration of these declarators.
pub fn declared(
    alloc: Global,
    specs: Items<Spec>,
    declarators: Items<InitDeclarator>,
) -> Result<Boxed<Decl>, AllocError>
    ensures { IfOk result (λ tree. tree ≡ record { place = specs_place specs; specs = specs; declarators = declarators }) }
{
    let place = specs_place(specs.as_slice());
    Boxed::new(
        alloc,
        Decl {
            place,
            specs,
            declarators,
        },
    )
}

/// A declaration in a block.
#[tactic(auto, using(crate::proofs::Declares::declaration_rule, crate::proofs::Declares::no_declaration, crate::proofs::Scopes::extends_self, parse_input::proofs::Steps::within))]
pub fn declaration(
    alloc: Global,
    limits: Limits,
    input: &mut Input<'_>,
) -> Result<Read<Boxed<Decl>>, Refusal>
    ensures reads { Leaves declaration_read (named limits.room (Declaration input.old.scope) input.old.tokens) result input.new }
    ensures grown { IfOk result (λ read. Extends input.old.scope input.new.scope) }
{
    if limits.room == 0 {
        return Err(Refusal::Refused(begins_specifiers(SpecifierContext::Block, input)));
    }
    let inside = limits.inside();
    let front = specifiers(alloc, inside, SpecifierContext::Block, input)?;
    let depth = front.depth;
    let specs = front.value.specs;
    if input.is(Terminal::Semicolon) {
        let _end = input.take();
        return Ok(Read {
            value: declared(alloc, specs, Items::new(alloc))?,
            depth: depth + 1,
        });
    }
    let typedefs = has_typedef(specs.as_slice());
    let all = init_declarators(alloc, inside, typedefs, input)?;
    let depth = deeper(depth, all.depth) + 1;
    Ok(Read {
        value: declared(alloc, specs, all.value)?,
        depth,
    })
}
