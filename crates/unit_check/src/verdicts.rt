// What a check finds.
ghost use Rattle.std.specs.Prelude.{◌≡◌, slice_index_or, false};

use eff_types::Level;
use std::marker::Model;

/// What a place does that breaks a level.
#[derive(Clone, Copy)]
pub enum ViolationKind {
    /// It calls the target of this number: a function of the unit, or from `FIRST_ROW` on a library row.
    Calls(u32),
    /// It calls a function through an expression.
    CallsThrough,
    /// It uses a thread-local variable.
    ThreadLocal,
    /// It declares a static variable.
    StaticLocal,
}

/// A warning: a place that breaks the level of the function in whose body it stands.
#[derive(Clone, Copy)]
pub struct Warning {
    /// The number of the function.
    pub function: u32,
    /// The byte offset of the first token of the call, or of the name.
    pub place: u32,
    pub kind: ViolationKind,
    /// The level of the function, which isn't `Plain`.
    pub level: Level,
}

/// A place of a chain of calls, in the body of a function that the place before calls.
#[derive(Clone, Copy)]
pub struct ChainStep {
    /// The number of the function in whose body it stands.
    pub function: u32,
    /// The byte offset of the first token of the call, or of the name.
    pub place: u32,
    pub kind: ViolationKind,
}

/// Where a chain stands among the steps of its level: from its first step on, up to the one behind its last.
#[derive(Clone, Copy)]
pub struct LevelSpan {
    pub level: Level,
    pub from: usize,
    pub to: usize,
}

/// What a check found: the warnings, the chain of each, and which functions keep which levels.
#[derive(Drop)]
pub struct Verdicts {
    pub(crate) warnings: Vec<Warning>,
    pub(crate) spans: Vec<LevelSpan>,
    // The steps of the chains, for each level.
    pub(crate) allocation: Vec<ChainStep>,
    pub(crate) blocking: Vec<ChainStep>,
    // For each function whether it is verified.
    pub(crate) nonallocating: Vec<bool>,
    pub(crate) nonblocking: Vec<bool>,
}

impl Model for Verdicts {
    ghost use Rattle.std.specs.Prelude.{map};
    ghost use Rattle.unit_check.specs.Kept.{HasSpans, chain_in};
    ghost use Rattle.unit_check.specs.Verdicts.{Report};

    ghost Value = { Report };

    ghost view = { λ v. record { warnings = v.warnings.items; chains = map (chain_in v.allocation.items v.blocking.items) v.spans.items; nonallocating = v.nonallocating.items; nonblocking = v.nonblocking.items } };

    ghost invariant = { λ v. HasSpans v.warnings.items v.spans.items v.allocation.items v.blocking.items };
}

impl Verdicts {
    ghost use Rattle.std.specs.Prelude.{◌≡◌, ◌<◌, [], length, slice_index_or};
    ghost use Rattle.unit_check.specs.Verdicts.{verified_in};

    /// The warnings, in order of place, each with a chain. It takes no memory.
    pub fn warnings(&self) -> &[Warning]
        ensures warnings { result.now ≡ self.now.warnings }
        ensures paired { length self.now.chains ≡ length self.now.warnings }
    {
        self.warnings.as_slice()
    }

    /// The chain of the warning of this number, which counts from 0: for each call that leads on the violating place in the body of the
    /// function that is called; none where the place is a direct violation. It takes no memory.
    pub fn chain(&self, warning: u32) -> &[ChainStep]
        requires { warning < length self.now.warnings }
        ensures { result.now ≡ slice_index_or self.now.chains warning [] }
    {
        self.chain_at(warning as usize)
    }

    /// The same by the index of the warning in `warnings`.
    pub fn chain_at(&self, warning: usize) -> &[ChainStep]
        requires { warning < length self.now.warnings }
        ensures { result.now ≡ slice_index_or self.now.chains warning [] }
    {
        let span = self.spans[warning];
        match span.level {
            Level::Plain => &self.allocation[span.from..span.to],
            Level::NonAllocating => &self.allocation[span.from..span.to],
            Level::NonBlocking => &self.blocking[span.from..span.to],
        }
    }

    /// Whether the function is defined, its flags allow to infer the level, and its body keeps it; never of `Plain`. It takes no memory.
    pub fn verified(&self, function: u32, level: Level) -> bool
        ensures { result ≡ verified_in self.now level function }
    {
        match level {
            Level::Plain => false,
            Level::NonAllocating => told(self.nonallocating.as_slice(), function),
            Level::NonBlocking => told(self.nonblocking.as_slice(), function),
        }
    }
}

fn told(verified: &[bool], function: u32) -> bool
    ensures { result ≡ slice_index_or verified.now function false }
{
    verified.get(function as usize).copied().unwrap_or(false)
}
