//! What is known before the first declaration: the reserved names (C17 7.1.3).

ghost use Rattle.std.specs.Prelude.{◌≡◌, IfOk, OnOk, map, codes};
ghost use Rattle.eff_types.specs.declared.types.CType.{Unsigned, Mutex};
ghost use Rattle.type_units.specs.Reserved as spec;

use core_unit::{LibRow, library};
use eff_types::{CType, Effects};
use scopes::{Names, Scopes};
use sqlite_items::Boxed;
use std::alloc::{AllocError, Global};
use type_rules::Entity;
use typing_state::Typing;

/// Names with their numbers, and scopes that say what they mean.
#[derive(Drop)]
pub(crate) struct Known<'a> {
    names: Names<'a>,
    scopes: Scopes<Entity>,
}

impl<'a> Known<'a> {
    /// Declares a name in the innermost scope. The one error is that no memory is left.
    fn add(&mut self, name: &'a str, entity: Entity) -> Result<(), AllocError>
        ensures { OnOk result (self.new ≡ spec.with_name (name.now, entity) self.old) }
    {
        let number = self.names.number(name.as_bytes())?;
        self.scopes.declare(number, entity)
    }

    /// Declares the functions of the library, each by its row. The one error is that no memory is left, as for a number past 32 bits.
    fn add_library(&mut self, rows: &'static [LibRow]) -> Result<(), AllocError>
        ensures { OnOk result (self.new ≡ spec.with_names (spec.library_names 0 (map (λ row. row.name.now) rows.now)) self.old) }
    {
        let mut number: u32 = 0;
        'each: for row in rows {
            self.add(row.name, Entity::Library(number))?;
            match number.checked_add(1) {
                Some(next) => number = next,
                None => return Err(AllocError),
            }
        }
        Ok(())
    }

    /// Declares the reserved names that are no functions. The one error is that no memory is left.
    fn add_types(&mut self) -> Result<(), AllocError>
        ensures { OnOk result (self.new ≡ spec.with_names spec.reserved_types self.old) }
    {
        self.add("NULL", Entity::NullPointer)?;
        self.add("size_t", Entity::TypeName(CType::Unsigned))?;
        self.add("pthread_t", Entity::TypeName(CType::Unsigned))?;
        self.add("pthread_mutex_t", Entity::TypeName(CType::Mutex))?;
        self.add("PTHREAD_MUTEX_INITIALIZER", Entity::MutexInitializer)
    }
}

/// The reserved names, in a scope of their own. The one error is that no memory is left.
#[tactic(auto, using(crate::proofs::Reserved::reserved_names))]
fn reserved<'a>(alloc: Global) -> Result<Known<'a>, AllocError>
    ensures { IfOk result (λ known. known ≡ spec.known) }
{
    let mut known = Known {
        names: Names::new(alloc),
        scopes: Scopes::new(alloc),
    };
    known.scopes.enter()?;
    known.add_types()?;
    known.add_library(library())?;
    Ok(known)
}

/// What is known of a source before its first declaration. The one error is that no memory is left.
#[tactic(auto, unfolding(crate::specs::Reserved::opened))]
pub(crate) fn opening<'a>(
    alloc: Global,
    source: &'a [u8],
    marks: &'a [u32],
    whole: &'a [Effects],
) -> Result<Typing<'a>, AllocError>
    ensures { IfOk result (λ typing. typing ≡ spec.opened source.now marks.now whole.now) }
{
    let Known { names, scopes } = reserved(alloc)?;
    let mut scopes = scopes;
    scopes.enter()?;
    let mut tags = Scopes::new(alloc);
    tags.enter()?;
    let returns = Boxed::new(alloc, CType::Void)?;
    Ok(Typing::new(alloc, source, marks, whole, names, scopes, tags, returns))
}
