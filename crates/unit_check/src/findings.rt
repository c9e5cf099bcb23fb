// The warned places, with the spans of their chains.
ghost use Rattle.std.specs.Prelude.{◌≡◌, ◌<◌, ◌++◌, ◌∷◌, [], false, length, slice_get, IsTrue, IfOk, OnOk};
ghost use Rattle.chains.specs.Chain.{StartsChain};
ghost use Rattle.chains.specs.Look.{look};
ghost use Rattle.chains.specs.Written.{Extends};
ghost use Rattle.unit_check.specs.Findings.{HoldsChain, LooksAt, GoesOn};
ghost use Rattle.unit_check.specs.Verdicts.{kind_of as kind_in, level_asked as level_in};

use crate::positions::Position;
use crate::verdicts::{LevelSpan, ViolationKind, Warning};
use chains::{Chains, Mark, Span};
use core_unit::{FIRST_ROW, FunctionInfo};
use eff_types::Level;
use sqlite_items::at;
use std::alloc::AllocError;
use unit_spots::Action;

// What a place does that breaks a level.
pub fn kind_of(action: Action) -> ViolationKind
    ensures { result ≡ kind_in action }
{
    match action {
        Action::Calls(function) => ViolationKind::Calls(function),
        Action::CallsLibrary(row) => ViolationKind::Calls(FIRST_ROW.saturating_add(row)),
        Action::CallsThrough(_) => ViolationKind::CallsThrough,
        Action::UsesThreadLocal => ViolationKind::ThreadLocal,
        Action::DeclaresStatic => ViolationKind::StaticLocal,
    }
}

// The mark of a place.
fn mark_at(chains: &Chains, function: u32, place: usize) -> Mark
    requires { function < length chains.now.rows }
    ensures { result ≡ look chains.now.rows function place }
{
    chains.rows()[function as usize]
        .as_slice()
        .get(place)
        .copied()
        .unwrap_or(Mark::Passes)
}

// The span of the shown chain of a place that starts one, or of no steps at a violation.
fn span_at(chains: &mut Chains, function: u32, place: usize) -> Result<Span, AllocError>
    requires known { function < length chains.old.rows }
    requires starts { StartsChain (look chains.old.rows) function place }
    ensures held { IfOk result (HoldsChain (look chains.new.rows) chains.new.steps (look chains.new.rows function place)) }
    ensures kept { Extends chains.old chains.new }
{
    match mark_at(chains, function, place) {
        Mark::Passes => Ok(Span { from: 0, to: 0 }),
        Mark::Violates => Ok(Span { from: 0, to: 0 }),
        Mark::StepsTo(callee) => chains.chain_of(callee),
    }
}

// Whether a chain starts at the place.
#[tactic(auto, using(crate::proofs::Picks::none_past))]
fn starts_chain(chains: &Chains, place: Position) -> bool
    ensures yes { IsTrue result → (place.function < length chains.now.rows) × StartsChain (look chains.now.rows) place.function place.index }
    ensures no_chain { result ≡ false → StartsChain (look chains.now.rows) place.function place.index → ⊥ }
{
    (place.function as usize) < chains.rows().len()
        && chains.starts_chain(place.function, place.index)
}

/// What was found so far.
#[derive(Drop)]
pub struct Found {
    pub warnings: Vec<Warning>,
    /// The spans of their chains.
    pub spans: Vec<LevelSpan>,
}

impl Found {
    fn add(&mut self, warning: Warning, span: LevelSpan) -> Result<(), AllocError>
        ensures warnings { OnOk result (self.new.warnings.items ≡ self.old.warnings.items ++ warning ∷ []) }
        ensures spans { OnOk result (self.new.spans.items ≡ self.old.spans.items ++ span ∷ []) }
    {
        self.warnings.push(warning)?;
        self.spans.push(span)?;
        Ok(())
    }

    // Adds the place, if a chain for the level of its function starts there.
    fn look_at(
        &mut self,
        chains: &mut Chains,
        level: Level,
        place: Position,
    ) -> Result<(), AllocError>
        ensures added { OnOk result (LooksAt (look chains.old.rows) level place chains.new.steps self.old self.new) }
        ensures kept { Extends chains.old chains.new }
    {
        if !starts_chain(chains, place) {
            return Ok(());
        }
        let span = span_at(chains, place.function, place.index)?;
        let warning = Warning {
            function: place.function,
            place: place.spot.place,
            kind: kind_of(place.spot.action),
            level,
        };
        self.add(
            warning,
            LevelSpan {
                level,
                from: span.from,
                to: span.to,
            },
        )
    }
}

// The level that a function asks of its body.
fn level_asked(functions: &[FunctionInfo], function: u32) -> Level
    ensures { result ≡ level_in (slice_get functions.now function) }
{
    match at(functions, function as usize) {
        Some(function) => function.kind.effects.level,
        None => Level::Plain,
    }
}

/// The chains for both levels, and what was found with them.
#[derive(Drop)]
pub struct Search {
    pub allocation: Chains,
    pub blocking: Chains,
    pub found: Found,
}

impl Search {
    /// Looks at one place more.
    #[tactic(auto, using(crate::proofs::Picks::look_plain))]
    pub fn look_at(&mut self, functions: &[FunctionInfo], place: Position) -> Result<(), AllocError>
        ensures { OnOk result (GoesOn functions.now place self.old.allocation self.old.blocking self.new.allocation self.new.blocking self.old.found self.new.found) }
    {
        match level_asked(functions, place.function) {
            Level::Plain => Ok(()),
            Level::NonAllocating => self
                .found
                .look_at(&mut self.allocation, Level::NonAllocating, place),
            Level::NonBlocking => self
                .found
                .look_at(&mut self.blocking, Level::NonBlocking, place),
        }
    }
}
