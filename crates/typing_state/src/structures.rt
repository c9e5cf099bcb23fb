//! Structures (C17 6.7.2.1).

ghost use Rattle.std.specs.Prelude.{◌≡◌, OnOk, IfOk, ◌++◌, ◌∷◌, [], ◌<◌, length, slice_set};
ghost use Rattle.core_unit.specs.declared.tables.StructInfo.{StructInfo};

use crate::state::Typing;
use core_unit::StructInfo;
use std::alloc::AllocError;

impl<'a> Typing<'a> {
    /// The structures so far, in order of first appearance.
    pub fn structures(&self) -> &[StructInfo]
        ensures { result.now ≡ self.now.structures }
    {
        self.structures.as_slice()
    }

    /// The words of each structure modulo 2^32, 0 where it is incomplete.
    pub fn sizes(&self) -> &[u32]
        ensures { result.now ≡ self.now.sizes }
    {
        self.sizes.as_slice()
    }

    /// Adds a structure that has no words yet: its number. One that 32 bits don't number is as want of memory.
    pub fn add_structure(&mut self, structure: StructInfo) -> Result<u32, AllocError>
        ensures number { IfOk result (λ number. number ≡ length self.old.structures) }
        ensures added { OnOk result (self.new ≡ record self.old { structures = self.old.structures ++ structure ∷ []; sizes = self.old.sizes ++ 0 ∷ [] }) }
    {
        let number = self.structures.len();
        if number > u32::MAX as usize {
            return Err(AllocError);
        }
        self.structures.push(structure)?;
        self.sizes.push(0)?;
        Ok(number as u32)
    }

    /// Replaces a structure, with its words modulo 2^32; one that isn't there stays away.
    pub fn set_structure(&mut self, number: u32, structure: StructInfo, size: u32)
        ensures { self.new ≡ record self.old { structures = slice_set self.old.structures number structure; sizes = slice_set self.old.sizes number size } }
    {
        let at = number as usize;
        if at < self.structures.len() {
            self.structures.set(at, structure);
        }
        if at < self.sizes.len() {
            self.sizes.set(at, size);
        }
    }
}
