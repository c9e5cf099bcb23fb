//! Levels and effects of functions, and what two declarations or two pointers come to.

ghost use Rattle.std.specs.Prelude.{◌≡◌};
ghost use Rattle.eff_types.specs.Effects.{merged, added, shared, forbids};

/// What a function promises, from the least to the most: each level promises all that those before it do
/// (Clang's manual 'Function Effect Analysis').
#[derive(Clone, Copy, PartialEq, Eq, PartialOrd, Ord)]
pub enum Level {
    /// Nothing is promised.
    Plain,
    /// It neither allocates nor frees memory: `nonallocating`.
    NonAllocating,
    /// It neither allocates nor blocks: `nonblocking`.
    NonBlocking,
}

/// The effects of a function or a function type, as its declarations give them
/// (Clang's manual 'Function Effect Analysis').
#[derive(Clone, Copy, PartialEq, Eq)]
pub struct Effects {
    /// The level that is asked for.
    pub level: Level,
    /// Set by `blocking`.
    pub no_block_inference: bool,
    /// Set by `allocating`.
    pub no_alloc_inference: bool,
}

impl Effects {
    /// Whether the flags forbid that this level is inferred: either flag forbids `NonBlocking`, and
    /// `no_alloc_inference` alone forbids `NonAllocating` (Clang's manual 'Function Effect Analysis').
    pub fn forbids(self, level: Level) -> bool
        ensures { result ≡ forbids self level }
    {
        match level {
            Level::Plain => false,
            Level::NonAllocating => self.no_alloc_inference,
            Level::NonBlocking => self.no_block_inference || self.no_alloc_inference,
        }
    }
}

/// The declarations of one function ask for a level that their flags forbid.
#[derive(Drop)]
pub struct Conflict;

/// The union of two declarations' effects: the greater level, and each flag that either sets.
///
/// `Conflict` exactly where the union has `nonblocking` with `blocking`, `nonblocking` with `allocating`, or
/// `nonallocating` with `allocating`; `nonallocating` with `blocking` is allowed (Clang's manual 'Function Effect
/// Analysis').
#[tactic(auto, unfolding(crate::specs::Effects::merged, crate::specs::Effects::effects_of, crate::specs::Effects::conflict, crate::specs::Effects::union))]
pub fn merge(a: Effects, b: Effects) -> Result<Effects, Conflict>
    ensures { result ≡ merged a b }
{
    let union = Effects {
        level: a.level.max(b.level),
        no_block_inference: a.no_block_inference || b.no_block_inference,
        no_alloc_inference: a.no_alloc_inference || b.no_alloc_inference,
    };
    if union.forbids(union.level) {
        return Err(Conflict);
    }
    Ok(union)
}

/// The level that a conversion from a pointer to a function with the effects `from` to one with the effects `to` adds:
/// that of `to`, where it is above that of `from` (Clang's manual 'Function Effect Analysis').
#[tactic(auto, unfolding(crate::specs::Effects::added))]
pub fn adds(from: Effects, to: Effects) -> Option<Level>
    ensures { result ≡ added from to }
{
    if from.level < to.level {
        Some(to.level)
    } else {
        None
    }
}

/// The effects of the function that `?:` between pointers to two functions points to: the lesser level and no flags
/// (C17 6.5.15; that effects come so is this project's own rule).
#[tactic(auto, unfolding(crate::specs::Effects::shared))]
pub fn common(a: Effects, b: Effects) -> Effects
    ensures { result ≡ shared a b }
{
    Effects {
        level: a.level.min(b.level),
        no_block_inference: false,
        no_alloc_inference: false,
    }
}
