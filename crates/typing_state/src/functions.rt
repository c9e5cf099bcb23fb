//! Functions and variables of file scope.

ghost use Rattle.std.specs.Prelude.{◌≡◌, OnOk, IfOk, ◌++◌, ◌∷◌, [], length, slice_get, slice_set};
ghost use Rattle.typing_state.specs.Variables.{variable_at};
ghost use Rattle.typing_state.specs.Functions.{changed_at, redeclared, defined};

use crate::state::Typing;
use core_unit::{Body, FunctionInfo, VariableInfo};
use eff_types::{CType, Effects};
use sqlite_items::Boxed;
use std::alloc::AllocError;

impl<'a> Typing<'a> {
    /// The functions so far, in order of first declaration.
    pub fn functions(&self) -> &[FunctionInfo]
        ensures { result.now ≡ self.now.functions }
    {
        self.functions.as_slice()
    }

    /// The numbers of the functions that are marked.
    pub fn marks(&self) -> &'a [u32]
        ensures { result.now ≡ self.now.marks }
    {
        self.marks
    }

    /// The effects that a function has in the whole unit, where they are known.
    pub fn whole_effects(&self, function: u32) -> Option<Effects>
        ensures { result ≡ slice_get self.now.whole function }
    {
        self.whole.get(function as usize).copied()
    }

    /// Adds a function: its number. One that 32 bits don't number is as want of memory.
    pub fn add_function(&mut self, function: FunctionInfo) -> Result<u32, AllocError>
        ensures number { IfOk result (λ number. number ≡ length self.old.functions) }
        ensures added { OnOk result (self.new ≡ record self.old { functions = self.old.functions ++ function ∷ [] }) }
    {
        let number = self.functions.len();
        if number > u32::MAX as usize {
            return Err(AllocError);
        }
        self.functions.push(function)?;
        Ok(number as u32)
    }

    /// Adds to a function what a further declaration says: its effects then, and whether it doesn't return or is internal; one
    /// that isn't there stays away.
    pub fn redeclare_function(
        &mut self,
        number: u32,
        effects: Effects,
        noreturn: bool,
        internal: bool,
    )
        ensures { self.new ≡ record self.old { functions = changed_at (redeclared effects noreturn internal) number self.old.functions } }
    {
        let at = number as usize;
        if at < self.functions.len() {
            let function = &mut self.functions[at];
            function.kind.effects = effects;
            function.noreturn = noreturn;
            function.internal = internal;
        }
    }

    /// Gives a function its body, with the words of its frame; one that isn't there stays away.
    pub fn set_body(&mut self, number: u32, body: Body, frame_words: u32)
        ensures { self.new ≡ record self.old { functions = changed_at (defined body frame_words) number self.old.functions } }
    {
        let at = number as usize;
        if at < self.functions.len() {
            let function = &mut self.functions[at];
            function.body = Some(body);
            function.frame_words = frame_words;
        }
    }

    /// Notes that a function was defined, behind those before it.
    pub fn define(&mut self, number: u32) -> Result<(), AllocError>
        ensures { OnOk result (self.new ≡ record self.old { definitions = self.old.definitions ++ number ∷ [] }) }
    {
        self.definitions.push(number)
    }

    /// Begins the frame of a function, with the words of its parameters.
    pub fn begin_frame(&mut self, words: u32, returns: Boxed<CType>)
        ensures { self.new ≡ record self.old { frame = words; result = returns } }
    {
        self.frame = words;
        self.returns = returns;
    }

    /// The words of the frame of the function that is read, so far.
    pub fn frame(&self) -> u32
        ensures { result ≡ self.now.frame }
    {
        self.frame
    }

    /// The result of the function that is read.
    pub fn returns(&self) -> &CType
        ensures { result.now ≡ self.now.result }
    {
        self.returns.get()
    }

    /// The variables of file scope so far, in order of first declaration.
    pub fn variables(&self) -> &[VariableInfo]
        ensures { result.now ≡ self.now.variables }
    {
        self.variables.as_slice()
    }

    /// Adds a variable of file scope: its number. One that 32 bits don't number is as want of memory.
    pub fn add_variable(&mut self, variable: VariableInfo) -> Result<u32, AllocError>
        ensures number { IfOk result (λ number. number ≡ length self.old.variables) }
        ensures added { OnOk result (self.new ≡ record self.old { variables = self.old.variables ++ variable ∷ [] }) }
    {
        let number = self.variables.len();
        if number > u32::MAX as usize {
            return Err(AllocError);
        }
        self.variables.push(variable)?;
        Ok(number as u32)
    }

    /// Says of a variable of file scope whether a declaration is `static`, and whether one has an initializer; one that isn't
    /// there stays away.
    pub fn redeclare_variable(&mut self, number: u32, internal: bool, initialized: bool)
        ensures { self.new ≡ record self.old { variables = variable_at internal initialized number self.old.variables } }
    {
        let at = number as usize;
        if at < self.variables.len() {
            let variable = &mut self.variables[at];
            variable.internal = internal;
            variable.initialized = initialized;
        }
    }
}
