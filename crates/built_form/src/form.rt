//! From the tokens of a file to its unit.

ghost use Rattle.std.specs.Prelude.{◌≡◌, ◌≤◌, length, All, IfOk};
ghost use Rattle.c_text.specs.Spelling.{IsWithin, IsInOrder};
ghost use Rattle.built_unit.specs.Units.{UnitParts};
ghost use Rattle.built_form.specs.Built.{IsOfForm, AreCallsWithin};
ghost use Rattle.c_text.specs.declared.limits.TheConstants.{SOURCE_LIMIT};

use crate::refusal::FormRefusal;
use crate::{syntax, unit};
use built_unit::Unit;
use c_text::Token;
use std::alloc::Global;

/// Reads the tokens of a file, which stand in order within its bytes, into the unit that they spell.
/// `NotBuilt` says that the file is not of the form that is read so far; `NoMemory`, that memory ran out.
pub fn read_form(alloc: Global, source: &[u8], tokens: &[Token]) -> Result<Unit, FormRefusal>
    requires within { All (IsWithin source.now) tokens.now }
    requires few { length tokens.now ≤ SOURCE_LIMIT }
    requires ordered { IsInOrder tokens.now }
    ensures read { IfOk result (IsOfForm source.now tokens.now) }
    ensures only { IfOk result (λ u. (v : UnitParts) → IsOfForm source.now tokens.now v → v ≡ u) }
    ensures placed { IfOk result (λ u. AreCallsWithin source.now u) }
    ensures other { result ≡ Err FormRefusal.NotBuilt → (v : UnitParts) → IsOfForm source.now tokens.now v → ⊥ }
{
    let items = syntax::items(alloc, source, tokens)?;
    unit::unit(alloc, source, items.as_slice())
}
