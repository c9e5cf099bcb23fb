//! Declarations of several names (C17 6.7).

ghost use Rattle.std.specs.Prelude.{◌≡◌, ◌&&◌, ◌++◌, [], IfOk};
ghost use Rattle.type_declarations.specs.Declared as declared;
ghost use Rattle.type_declarations.specs.Declared.{named, name_declared};
ghost use Rattle.type_rules.specs.Declarations as spec;
ghost use Rattle.type_rules.specs.Specifiers.{no_specifiers as none_said};
ghost use Rattle.typing_state.specs.Answers.{Gives};

use crate::blocks::block_name;
use crate::bools::both;
use crate::files::file_name;
use c_tree::{Decl, Init, InitDeclarator, Span, Spec};
use core_unit::Stmt;
use sqlite_items::{Boxed, Items};
use std::alloc::{AllocError, Global};
use type_declarators::made;
use type_recursion::{declarator, specifiers};
use type_rules::{Made, Shape, Specifiers};
use type_specifiers::no_specifiers;
use typing_state::{Stop, Typing};

/// A declared name, in a block or at file scope.
#[tactic(auto, unfolding(crate::specs::Declared::name_declared))]
fn declared_name(
    alloc: Global,
    typing: &mut Typing,
    in_block: bool,
    name: Span,
    number: u32,
    said: &Specifiers,
    made: Made,
    initializer: &Option<Boxed<Init>>,
) -> Result<Items<Stmt>, Stop>
    ensures { Gives (name_declared in_block (named name number said.now made initializer.now) typing.old) result typing.new }
{
    if in_block {
        block_name(alloc, typing, name, number, said, &made, initializer)
    } else {
        file_name(alloc, typing, name, number, said, made, initializer)
    }
}

/// What specifiers and a declarator declare under a name.
#[tactic(auto, using(type_recursion::proofs::Continued::then_rules))]
fn made_at(
    alloc: Global,
    typing: &mut Typing,
    in_block: bool,
    said: &Specifiers,
    shape: Shape,
    initializer: &Option<Boxed<Init>>,
    name: Span,
) -> Result<Items<Stmt>, Stop>
    ensures { Gives (spec.named_at said.now shape initializer.now (name_declared in_block) (Some name) typing.old) result typing.new }
{
    let made = made(alloc, typing.structures(), said, shape, name.start)?;
    let number = typing.name_number(name)?;
    declared_name(
        alloc,
        typing,
        in_block,
        name,
        number,
        said,
        made,
        initializer,
    )
}

/// What specifiers and a declarator declare, if they have a name.
fn named_by(
    alloc: Global,
    typing: &mut Typing,
    in_block: bool,
    said: &Specifiers,
    shape: Shape,
    initializer: &Option<Boxed<Init>>,
) -> Result<Items<Stmt>, Stop>
    ensures { Gives (spec.named_by said.now shape initializer.now (name_declared in_block) typing.old) result typing.new }
{
    match shape.name {
        None => Ok(Items::new(alloc)),
        Some(name) => made_at(alloc, typing, in_block, said, shape, initializer, name),
    }
}

/// A declarator with its initializer, behind these specifiers.
#[tactic(auto, unfolding(type_rules::specs::Declarations::init_declarator), using(type_recursion::proofs::Continued::then_rules))]
fn init_declarator(
    alloc: Global,
    typing: &mut Typing,
    in_block: bool,
    said: &Specifiers,
    d: &InitDeclarator,
) -> Result<Items<Stmt>, Stop>
    ensures { Gives (spec.init_declarator said.now (name_declared in_block) d.now typing.old) result typing.new }
{
    let shape = declarator(alloc, typing, d.declarator.get())?;
    named_by(alloc, typing, in_block, said, shape, &d.init)
}

/// Two lists as one. The one error is that no memory is left.
fn joined(before: Items<Stmt>, more: Items<Stmt>) -> Result<Items<Stmt>, AllocError>
    ensures { IfOk result (λ all. all ≡ before ++ more) }
{
    let mut all = before;
    all.append(more)?;
    Ok(all)
}

/// One declarator more, behind what those before it gave.
#[tactic(auto, unfolding(crate::specs::Declared::one_declarator), using(type_recursion::proofs::Continued::then_rules))]
fn one_declarator(
    alloc: Global,
    typing: &mut Typing,
    in_block: bool,
    said: &Specifiers,
    d: &InitDeclarator,
    before: Items<Stmt>,
) -> Result<Items<Stmt>, Stop>
    ensures { Gives (declared.one_declarator in_block said.now d.now before typing.old) result typing.new }
{
    let some = init_declarator(alloc, typing, in_block, said, d)?;
    Ok(joined(before, some)?)
}

/// The declarators of a declaration, in order, each with its initializer before the next one.
#[tactic(auto, using(crate::proofs::Ordered::declarator_rules))]
fn init_declarators(
    alloc: Global,
    typing: &mut Typing,
    in_block: bool,
    said: &Specifiers,
    declarators: &[InitDeclarator],
) -> Result<Items<Stmt>, Stop>
    ensures { Gives (spec.init_declarators said.now (name_declared in_block) declarators.now typing.old) result typing.new }
{
    let mut before = Items::new(alloc);
    'each: for d in declarators {
        before = one_declarator(alloc, typing, in_block, said, d, before)?;
    }
    Ok(before)
}

/// Whether attributes or `_Noreturn` ask for a declared function.
fn is_attributed(said: &Specifiers) -> bool
    ensures { result ≡ spec.is_attributed said.now }
{
    if said.is_noreturn {
        return true;
    }
    said.attributes.len() != 0
}

fn is_bare(declarators: &[InitDeclarator]) -> bool
    ensures { result ≡ spec.is_bare declarators.now }
{
    match declarators {
        [] => true,
        [_, ..] => false,
    }
}

/// Whether a declaration without a declarator has attributes, which belong to none.
fn is_astray(declarators: &[InitDeclarator], said: &Specifiers) -> bool
    ensures { result ≡ (spec.is_bare declarators.now && spec.is_attributed said.now) }
{
    both(is_bare(declarators), is_attributed(said))
}

/// All specifiers of a declaration.
#[tactic(auto, using(crate::proofs::Ordered::specifier_rules))]
pub fn said_in(alloc: Global, typing: &mut Typing, specs: &[Spec]) -> Result<Specifiers, Stop>
    ensures { Gives (spec.all_specifiers specs.now none_said typing.old) result typing.new }
{
    specifiers(alloc, typing, specs, no_specifiers(alloc))
}

/// A declaration, in a block or at file scope (C17 6.7).
#[tactic(auto, unfolding(type_rules::specs::Declarations::declaration), using(type_recursion::proofs::Continued::then_rules))]
fn declaration(
    alloc: Global,
    typing: &mut Typing,
    in_block: bool,
    d: &Decl,
) -> Result<Items<Stmt>, Stop>
    ensures { Gives (spec.declaration (name_declared in_block) d.now typing.old) result typing.new }
{
    let said = said_in(alloc, typing, d.specs.as_slice())?;
    if is_astray(d.declarators.as_slice(), &said) {
        return Err(Stop::Fault {
            number: 3,
            place: d.place,
        });
    }
    init_declarators(alloc, typing, in_block, &said, d.declarators.as_slice())
}

/// A declaration in a block.
#[tactic(auto, using(crate::proofs::Scoped::scope_rules))]
pub fn block_declaration(alloc: Global, typing: &mut Typing, d: &Decl) -> Result<Items<Stmt>, Stop>
    ensures { Gives (spec.block_declaration d.now typing.old) result typing.new }
{
    declaration(alloc, typing, true, d)
}

/// A declaration at file scope.
#[tactic(auto, using(crate::proofs::Scoped::scope_rules))]
pub fn file_declaration(alloc: Global, typing: &mut Typing, d: &Decl) -> Result<(), Stop>
    ensures { Gives (spec.file_declaration d.now typing.old) result typing.new }
{
    declaration(alloc, typing, false, d)?;
    Ok(())
}
