// A file's suppressions as one value, and the two questions that the detector asks of it.
ghost use Rattle.std.specs.Prelude.{◌≡◌, ◌↔◌, IsTrue, Any};
ghost use Rattle.suppress.specs.Pattern.{Matches};

use crate::pattern::Pattern;
use std::marker::Model;

/// What a suppression is compared with.
#[derive(Clone, Copy, PartialEq, Eq)]
pub enum SuppressionKind {
    /// `function-name-matches`: the name of the function that was called.
    FunctionNameMatches,
    /// `call-stack-contains`: each name on the call stack.
    CallStackContains,
}

/// One line of a suppression file that suppresses.
#[derive(Drop)]
pub struct Suppression {
    /// What the pattern is compared with.
    pub kind: SuppressionKind,
    /// The pattern.
    pub pattern: Pattern,
}

/// The suppressions of a file, in the order of its lines.
#[derive(Drop)]
pub struct Suppressions {
    entries: Vec<Suppression>,
}

impl Model for Suppressions {
    ghost use Rattle.std.specs.Prelude.{List};
    ghost use Rattle.suppress.specs.declared.suppressions.Suppression.{Suppression};

    ghost Value = { List Suppression };

    ghost view = { λ all. all.entries.items };
}

impl Suppressions {
    ghost use Rattle.suppress.specs.Suppressions.{SuppressesFunction, SuppressesStack};

    /// The suppressions of `entries`, in their order.
    pub(crate) fn of(entries: Vec<Suppression>) -> Suppressions
        ensures { result ≡ entries.items }
    {
        Suppressions { entries }
    }

    /// Whether a `function-name-matches` pattern matches `name`. It takes no memory.
    pub fn function_matches(&self, name: &str) -> bool
        ensures { IsTrue result ↔ Any (λ entry. SuppressesFunction entry name.now) self.now }
    {
        for entry in &self.entries {
            if entry.kind == SuppressionKind::FunctionNameMatches
                && entry.pattern.matches(name.as_bytes())
            {
                return true;
            }
        }
        false
    }

    /// Whether a `call-stack-contains` pattern matches one of `names`. It takes no memory.
    pub fn stack_matches(&self, names: &[&str]) -> bool
        ensures { IsTrue result ↔ Any (λ entry. SuppressesStack entry names.now) self.now }
    {
        for entry in &self.entries {
            if entry.kind == SuppressionKind::CallStackContains
                && entry.pattern.matches_any(names)
            {
                return true;
            }
        }
        false
    }
}
