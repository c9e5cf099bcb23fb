//! Paths with their counts, as a set gives them at the end.
ghost use Rattle.std.specs.Prelude.{◌≡◌};

use ctx_set::StackStep;
use std::marker::Model;

/// The steps of a path, from the outermost function on.
#[derive(Drop)]
pub struct PathSteps {
    steps: Vec<StackStep>,
}

impl Model for PathSteps {
    ghost use Rattle.std.specs.Prelude.{List};
    ghost use Rattle.ctx_set.specs.declared.steps.StackStep.{StackStep};

    ghost Value = { List StackStep };

    ghost view = { λ p. p.steps.items };
}

impl PathSteps {
    /// The steps of a vector.
    pub(crate) fn new(steps: Vec<StackStep>) -> PathSteps
        ensures { result ≡ steps.items }
    {
        PathSteps { steps }
    }

    /// The steps as a slice.
    pub fn as_slice(&self) -> &[StackStep]
        ensures { result.now ≡ self.now }
    {
        self.steps.as_slice()
    }
}

/// A path, and how often it was counted.
#[derive(Drop)]
pub struct PathCount {
    pub path: PathSteps,
    pub count: u64,
}

/// Paths with their counts.
pub type PathCountList = Vec<PathCount>;
