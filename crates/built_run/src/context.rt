//! Where a thread is: the functions that it was called through, and whether it is real-time.

ghost use Rattle.std.specs.Prelude.{◌≡◌, [], ◌∷◌, length, reverse, drop, IfOk};
ghost use Rattle.built_code.specs.Bounds.{HasRoom};
ghost use Rattle.built_model.specs.Context.{framed, is_nonblocking, is_blocking, is_report};
ghost use Rattle.built_run.specs.Functions.{IsCounted};

use built_code::Ask;
use built_unit::Unit;
use ctx_set::{StackStep, StepList};
use eff_types::Level;
use std::alloc::{AllocError, Global};
use std::marker::Model;

/// The functions that a thread is in, with the count of `nonblocking` ones.
#[derive(Drop)]
pub struct Context {
    stack: StepList,
    nonblocking: u32,
}

impl Model for Context {
    ghost use Rattle.std.specs.Prelude.{reverse};
    ghost use Rattle.built_run.specs.Functions.{Functions};

    ghost Value = { Functions };

    ghost view = { λ c. record { frames = reverse c.stack; nonblocking = c.nonblocking } };
}

impl Context {
    ghost use Rattle.std.specs.Prelude.{◌<◌, ◌+◌, ◌-◌};

    /// In no function, with the memory for a stack.
    pub fn new(alloc: Global) -> Result<Context, AllocError>
        ensures { IfOk result (λ context. context ≡ record { frames = []; nonblocking = 0 }) }
    {
        let stack = StepList::new(alloc)?;
        Ok(Context {
            stack,
            nonblocking: 0,
        })
    }

    /// Follows an event of the thread; where it enters a function, it is in fewer than 256.
    pub fn follow(&mut self, unit: &Unit, ask: Ask)
        requires counted { IsCounted unit.now self.old }
        requires room { HasRoom ask (length self.old.frames) }
        ensures frames { self.new.frames ≡ framed ask self.old.frames }
        ensures counted { IsCounted unit.now self.new }
    {
        match ask {
            Ask::Enter(target, site) => self.enter(unit, StackStep { target, site }),
            Ask::Leave => self.leave(unit),
            Ask::Load(_)
            | Ask::Store(_, _)
            | Ask::Exchange(_, _, _)
            | Ask::FetchAdd(_, _)
            | Ask::FetchSub(_, _)
            | Ask::Reach(_, _)
            | Ask::Create(_, _)
            | Ask::Out(_)
            | Ask::Trap(_)
            | Ask::Over(_) => {}
        }
    }

    /// Whether an event is a report: a real-time thread reaches a blocking function.
    #[tactic(auto, using(crate::proofs::Counted::real_time_counted))]
    pub fn is_report(&self, unit: &Unit, ask: Ask) -> bool
        requires { IsCounted unit.now self.now }
        ensures { result ≡ is_report unit.now self.now.frames ask }
    {
        match ask {
            Ask::Reach(target, _) => is_blocking(unit, target) && self.nonblocking > 0,
            Ask::Load(_)
            | Ask::Store(_, _)
            | Ask::Exchange(_, _, _)
            | Ask::FetchAdd(_, _)
            | Ask::FetchSub(_, _)
            | Ask::Enter(_, _)
            | Ask::Leave
            | Ask::Create(_, _)
            | Ask::Out(_)
            | Ask::Trap(_)
            | Ask::Over(_) => false,
        }
    }

    /// The stack, from the first function on.
    pub fn into_stack(self) -> StepList
        ensures { result ≡ reverse self.frames }
    {
        let Context { stack, .. } = self;
        stack
    }

    // Enters a function.
    #[tactic(auto, using(crate::proofs::Counted::nonblocking_few))]
    fn enter(&mut self, unit: &Unit, step: StackStep)
        requires counted { IsCounted unit.now self.old }
        requires room { length self.old.frames < 256 }
        ensures frames { self.new.frames ≡ step ∷ self.old.frames }
        ensures counted { IsCounted unit.now self.new }
    {
        self.stack.push(step);
        if is_nonblocking(unit, step.target) {
            self.nonblocking += 1;
        }
    }

    // Leaves the latest function.
    fn leave(&mut self, unit: &Unit)
        requires { IsCounted unit.now self.old }
        ensures frames { self.new.frames ≡ drop 1 self.old.frames }
        ensures counted { IsCounted unit.now self.new }
    {
        if let Some(step) = self.stack.pop() {
            if is_nonblocking(unit, step.target) {
                self.nonblocking -= 1;
            }
        }
    }
}

// Whether a function has the level `nonblocking`; one outside the unit hasn't.
fn is_nonblocking(unit: &Unit, function: u32) -> bool
    ensures { result ≡ is_nonblocking unit.now function }
{
    function < unit.functions()
        && matches!(unit.function(function).effects.level, Level::NonBlocking)
}

// Whether a function is marked `blocking`; one outside the unit isn't.
fn is_blocking(unit: &Unit, function: u32) -> bool
    ensures { result ≡ is_blocking unit.now function }
{
    function < unit.functions() && unit.function(function).effects.no_block_inference
}
