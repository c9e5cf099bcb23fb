//! How deep declarations and statements are. Each function walks its part once and takes no memory.

ghost use Rattle.std.specs.Prelude.{◌≡◌, map};
ghost use Rattle.c_tree.specs.Depth.{saturated, deepest, init_depth, initial_depth, init_declarator_depth, declaration_depth, start_depth};
ghost use Rattle.c_tree.specs.Depth.{statement_depth, optional_statement_depth, item_depth, definition_depth, external_depth};

use crate::declarations::{Decl, FunctionDefinition, Init, InitDeclarator};
use crate::depth::{declarator, expression, node, specifiers, written};
use crate::statements::{BlockItem, External, ForStart, Stmt};
use sqlite_items::Boxed;

#[cycle(initializer)]
#[tactic(auto, using(crate::proofs::StatementEquations::statement_rules))]
fn initializer(init: &Init) -> u32
    ensures { result ≡ saturated (init_depth init.now) }
{
    match init {
        Init::Value(e) => expression(e.get()),
        Init::List(_, all) => node(initializers(all.as_slice())),
    }
}

#[cycle(initializer)]
#[tactic(auto, using(crate::proofs::StatementEquations::statement_rules))]
fn initializers(all: &[Init]) -> u32
    ensures { result ≡ saturated (deepest (map init_depth all.now)) }
{
    let mut depth = 0;
    for init in all {
        depth = depth.max(initializer(init));
    }
    depth
}

#[tactic(auto, using(crate::proofs::StatementEquations::statement_rules))]
fn initial(written: &Option<Boxed<Init>>) -> u32
    ensures { result ≡ saturated (initial_depth written.now) }
{
    match written {
        None => 0,
        Some(init) => initializer(init.get()),
    }
}

#[tactic(auto, using(crate::proofs::StatementEquations::statement_rules))]
fn init_declarators(all: &[InitDeclarator]) -> u32
    ensures { result ≡ saturated (deepest (map init_declarator_depth all.now)) }
{
    let mut depth = 0;
    for one in all {
        let here = declarator(one.declarator.get()).max(initial(&one.init));
        depth = depth.max(here);
    }
    depth
}

#[tactic(auto, using(crate::proofs::StatementEquations::statement_rules))]
fn declaration(d: &Decl) -> u32
    ensures { result ≡ saturated (declaration_depth d.now) }
{
    node(specifiers(d.specs.as_slice()).max(init_declarators(d.declarators.as_slice())))
}

#[tactic(auto, using(crate::proofs::StatementEquations::statement_rules))]
fn start(first: &ForStart) -> u32
    ensures { result ≡ saturated (start_depth first.now) }
{
    match first {
        ForStart::Declaration(d) => declaration(d.get()),
        ForStart::Expression(e) => written(e),
    }
}

#[cycle(statement)]
#[tactic(auto, using(crate::proofs::StatementEquations::statement_rules))]
fn statement(s: &Stmt) -> u32
    ensures { result ≡ saturated (statement_depth s.now) }
{
    match s {
        Stmt::Block(_, all) => node(items(all.as_slice())),
        Stmt::Expression(_, e) => node(written(e)),
        Stmt::If(_, condition, then, other) => node(expression(condition.get()).max(statement(
            then.get(),
        ).max(otherwise(other)))),
        Stmt::While(_, condition, body) => node(expression(condition.get()).max(statement(
            body.get(),
        ))),
        Stmt::DoWhile(_, body, condition) => node(statement(body.get()).max(expression(
            condition.get(),
        ))),
        Stmt::For(_, first, condition, step, body) => node(
            start(first)
                .max(written(condition).max(written(step)))
                .max(statement(body.get())),
        ),
        Stmt::Break(_) | Stmt::Continue(_) => 1,
        Stmt::Return(_, e) => node(written(e)),
    }
}

#[cycle(statement)]
#[tactic(auto, using(crate::proofs::StatementEquations::statement_rules))]
fn otherwise(other: &Option<Boxed<Stmt>>) -> u32
    ensures { result ≡ saturated (optional_statement_depth other.now) }
{
    match other {
        None => 0,
        Some(s) => statement(s.get()),
    }
}

#[cycle(statement)]
#[tactic(auto, using(crate::proofs::StatementEquations::statement_rules))]
fn items(all: &[BlockItem]) -> u32
    ensures { result ≡ saturated (deepest (map item_depth all.now)) }
{
    let mut depth = 0;
    for item in all {
        depth = depth.max(block_item(item));
    }
    depth
}

#[cycle(statement)]
#[tactic(auto, using(crate::proofs::StatementEquations::statement_rules))]
fn block_item(item: &BlockItem) -> u32
    ensures { result ≡ saturated (item_depth item.now) }
{
    match item {
        BlockItem::Declaration(d) => declaration(d.get()),
        BlockItem::Statement(s) => statement(s.get()),
    }
}

#[tactic(auto, using(crate::proofs::StatementEquations::statement_rules))]
fn definition(f: &FunctionDefinition) -> u32
    ensures { result ≡ saturated (definition_depth f.now) }
{
    let head = specifiers(f.specs.as_slice()).max(declarator(f.declarator.get()));
    node(head.max(node(items(f.body.as_slice()))))
}

/// How deep an external declaration is.
#[tactic(auto, using(crate::proofs::StatementEquations::statement_rules))]
pub fn external(e: &External) -> u32
    ensures { result ≡ saturated (external_depth e.now) }
{
    match e {
        External::Declaration(d) => declaration(d.get()),
        External::Function(f) => definition(f.get()),
    }
}
