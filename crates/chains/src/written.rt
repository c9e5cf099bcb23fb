// The shown chains of the functions that are asked for, in one list of steps.
ghost use Rattle.std.specs.Prelude.{◌≡◌, ℕ, ◌<◌, List, [], ◌++◌, length, IfOk, OnOk, OnErr, slice_index, slice_index_or};
ghost use Rattle.chains.specs.declared.written.ChainStep.{ChainStep};
ghost use Rattle.chains.specs.Look.{look, target, CallsBelow};
ghost use Rattle.chains.specs.Measures.{distance_in};
ghost use Rattle.chains.specs.Follow.{begins, IsFirstToBegin};
ghost use Rattle.chains.specs.Written.{steps_along};

use crate::search::distances;
use crate::{Mark, MarkList};
use std::alloc::{AllocError, Global};
use std::marker::Model;

/// A step of a chain: a place, by the number of the function in whose body it stands and its index there.
#[derive(Clone, Copy)]
pub struct ChainStep {
    /// the number of the function
    pub function: u32,
    /// the index of the place in its body
    pub place: usize,
}

/// Where a chain stands in a list of steps: from its first step on, up to the one behind its last.
#[derive(Clone, Copy)]
pub struct Span {
    /// the index of the first step
    pub from: usize,
    /// the index behind the last step
    pub to: usize,
}

/// The marks of all functions with what was found of them: who has a chain, and the shown chains that were asked for, each
/// written once, one behind another in one list.
#[derive(Drop)]
pub struct Chains {
    rows: Vec<MarkList>,
    distances: Vec<u32>,
    next: Vec<usize>,
    spans: Vec<Option<Span>>,
    steps: Vec<ChainStep>,
}

impl Model for Chains {
    ghost use Rattle.chains.specs.Written.{WrittenChains, IsWritten};

    ghost Value = { WrittenChains };

    ghost view = { λ c. record { rows = c.rows.items; spans = c.spans.items; steps = c.steps.items } };

    ghost invariant = { λ c. IsWritten c.rows.items c.distances.items c.next.items c.spans.items c.steps.items };
}

impl Chains {
    ghost use Rattle.std.specs.Prelude.{◌≡◌, ◌^◌, ◌<◌, ◌≤◌, ◌↔◌, List, [], ◌++◌, length, replicate, IsTrue, IfOk, OnErr, slice_set};
    ghost use Rattle.chains.specs.declared.written.ChainStep.{ChainStep};
    ghost use Rattle.chains.specs.declared.written.Span.{Span};
    ghost use Rattle.chains.specs.Look.{look, CallsBelow};
    ghost use Rattle.chains.specs.Chain.{HasChain, StartsChain};
    ghost use Rattle.chains.specs.Written.{HoldsShown, Spells, IsSpanOf, Extends, span_of, steps_in};

    /// The chains of these rows of marks, none of them written. The only error is want of memory. It takes time in
    /// proportion to the marks.
    pub fn new(alloc: Global, rows: Vec<MarkList>) -> Result<Chains, AllocError>
        requires short { length rows.items < 2 ^ 31 }
        requires calls { CallsBelow (length rows.items) rows.items }
        ensures rows { IfOk result (λ chains. chains.rows ≡ rows.items) }
        ensures spans { IfOk result (λ chains. chains.spans ≡ replicate (length rows.items) None) }
        ensures steps { IfOk result (λ chains. chains.steps ≡ []) }
    {
        let distances = distances(alloc, rows.as_slice())?;
        let next = next_places(alloc, rows.as_slice(), distances.as_slice())?;
        let spans = vec![in alloc; None; rows.len()]?;
        Ok(Chains {
            rows,
            distances,
            next,
            spans,
            steps: Vec::new(alloc),
        })
    }

    /// The rows of marks.
    pub fn rows(&self) -> &[MarkList]
        ensures { result.now ≡ self.now.rows }
    {
        self.rows.as_slice()
    }

    /// Whether some chain starts in the body of the function.
    pub fn has_chain(&self, function: u32) -> bool
        requires { function < length self.now.rows }
        ensures { IsTrue result ↔ HasChain (look self.now.rows) function }
    {
        self.distances[function as usize] > 0
    }

    /// Whether some chain starts at this place of the function's body. A violation is such a chain by itself.
    pub fn starts_chain(&self, function: u32, place: usize) -> bool
        requires { function < length self.now.rows }
        ensures { IsTrue result ↔ StartsChain (look self.now.rows) function place }
    {
        match mark_at(self.rows.as_slice(), function, place) {
            Mark::Passes => false,
            Mark::Violates => true,
            Mark::StepsTo(callee) => self.has_chain(callee),
        }
    }

    /// Where the shown chain of the function stands in the list of steps. The first time it is written there, in time of
    /// its length; later the same span is given again. Where memory is refused nothing changes.
    pub fn chain_of(&mut self, function: u32) -> Result<Span, AllocError>
        requires { HasChain (look self.old.rows) function }
        ensures shown { IfOk result (HoldsShown (look self.new.rows) self.new.steps function) }
        ensures only { IfOk result (λ span. (steps : List ChainStep) → Spells (look self.new.rows) function steps → steps ≡ steps_in self.new.steps span) }
        ensures span { IfOk result (IsSpanOf self.new function) }

        ensures kept { Extends self.old self.new }
        ensures once { (span : Span) → IsSpanOf self.old function span → (result ≡ Ok span) × (self.new ≡ self.old) }
        ensures appended { span_of self.old function ≡ None → IfOk result (λ span. (span.from ≡ length self.old.steps) × (span.to ≡ length self.new.steps)) }
        ensures err { OnErr result (self.new ≡ self.old) }
    {
        match self.spans[function as usize] {
            Some(span) => Ok(span),
            None => self.write(function),
        }
    }

    // Writes the shown chain of a function that has none written behind the steps.
    fn write(&mut self, function: u32) -> Result<Span, AllocError>
        requires chain { HasChain (look self.old.rows) function }
        requires unwritten { span_of self.old function ≡ None }
        ensures shown { IfOk result (HoldsShown (look self.new.rows) self.new.steps function) }
        ensures rows { self.new.rows ≡ self.old.rows }
        ensures steps { (more : List ChainStep) × (self.new.steps ≡ self.old.steps ++ more) }
        ensures spans { IfOk result (λ span. self.new.spans ≡ slice_set self.old.spans function (Some span)) }
        ensures known { function < length self.old.spans }
        ensures appended { IfOk result (λ span. (span.from ≡ length self.old.steps) × (span.to ≡ length self.new.steps)) }
        ensures err { OnErr result (self.new ≡ self.old) }
    {
        let from = self.steps.len();
        let count = self.distances[function as usize];
        let written = write_steps(
            &mut self.steps,
            self.rows.as_slice(),
            self.next.as_slice(),
            function,
            count,
        );
        if let Err(error) = written {
            self.steps.truncate(from);
            return Err(error);
        }
        let span = Span {
            from,
            to: self.steps.len(),
        };
        self.spans[function as usize] = Some(span);
        Ok(span)
    }

    /// The steps of a span. It takes no memory.
    pub fn steps(&self, span: Span) -> &[ChainStep]
        requires ordered { span.from ≤ span.to }
        requires within { span.to ≤ length self.now.steps }
        ensures { result.now ≡ steps_in self.now.steps span }
    {
        &self.steps[span.from..span.to]
    }

    /// Gives up the list of steps, to which the spans stay true.
    pub fn into_steps(self) -> Vec<ChainStep>
        ensures { result.items ≡ self.steps }
    {
        let Chains {
            rows: _,
            distances: _,
            next: _,
            spans: _,
            steps,
        } = self;
        steps
    }
}

// The mark of a place, or that it passes where the body has no such place.
fn mark_at(rows: &[MarkList], function: u32, place: usize) -> Mark
    requires { function < length rows.now }
    ensures { result ≡ look rows.now function place }
{
    rows[function as usize]
        .as_slice()
        .get(place)
        .copied()
        .unwrap_or(Mark::Passes)
}

// For each function the first place that can begin a shortest chain.
fn next_places(
    alloc: Global,
    rows: &[MarkList],
    distances: &[u32],
) -> Result<Vec<usize>, AllocError>
    requires { length distances.now ≡ length rows.now }
    ensures sized { IfOk result (λ next. length next.items ≡ length rows.now) }
    ensures first { IfOk result (λ next. (f : ℕ) → f < length rows.now → IsFirstToBegin (distance_in distances.now) (distance_in distances.now f) (slice_index_or rows.now f []) (slice_index next.items f)) }
{
    let mut next = Vec::with_capacity(alloc, rows.len())?;
    'rows: for (function, row) in rows.iter().enumerate() {
        next.push(next_place(row.as_slice(), distances[function], distances))?;
    }
    Ok(next)
}

// The index of the first place of the row that can begin a chain of this many places, or the row's length.
fn next_place(row: &[Mark], count: u32, distances: &[u32]) -> usize
    ensures { IsFirstToBegin (distance_in distances.now) count row.now result }
{
    'places: for (place, mark) in row.iter().enumerate() {
        if can_begin(*mark, count, distances) {
            return place;
        }
    }
    row.len()
}

// Whether a place with this mark can begin a chain of this many places.
fn can_begin(mark: Mark, count: u32, distances: &[u32]) -> bool
    ensures { result ≡ begins (distance_in distances.now) count mark }
{
    match mark {
        Mark::Passes => false,
        Mark::Violates => count == 1,
        Mark::StepsTo(callee) => {
            let behind = distances.get(callee as usize).copied().unwrap_or(0);
            count > 1 && u64::from(behind) + 1 == u64::from(count)
        }
    }
}

// Writes as many steps from the body of the function on, each at the next place of its body.
fn write_steps(
    steps: &mut Vec<ChainStep>,
    rows: &[MarkList],
    next: &[usize],
    function: u32,
    count: u32,
) -> Result<(), AllocError>
    requires known { function < length rows.now }
    requires calls { CallsBelow (length rows.now) rows.now }
    requires sized { length next.now ≡ length rows.now }
    ensures ok { OnOk result (steps.new.items ≡ steps.old.items ++ steps_along (look rows.now) (λ f. slice_index next.now f) count function) }
    ensures err { OnErr result ((more : List ChainStep) × (steps.new.items ≡ steps.old.items ++ more)) }
{
    let mut current = function;
    'steps: for _done in 0..count {
        let place = next[current as usize];
        steps.push(ChainStep {
            function: current,
            place,
        })?;
        current = callee_of(mark_at(rows, current, place));
    }
    Ok(())
}

// The function that a step goes to.
fn callee_of(mark: Mark) -> u32
    ensures { result ≡ target mark }
{
    match mark {
        Mark::Passes => 0,
        Mark::Violates => 0,
        Mark::StepsTo(callee) => callee,
    }
}
