//! Keys, and the order in which slots are tried.
ghost use Rattle.std.specs.Prelude.{◌≡◌, ◌<◌, ◌≤◌};
ghost use Rattle.context_set.specs.Paths.{IsStep};
ghost use Rattle.context_set.specs.Keys.{number_of, key_of, place};

use crate::node::Node;
use ctx_set::StackStep;

/// What is looked for, with its key.
#[derive(Clone, Copy)]
pub(crate) struct Ask {
    pub(crate) parent: Option<Node>,
    pub(crate) step: StackStep,
    pub(crate) key: u64,
}

/// The key of a step under a parent.
pub(crate) fn key_of(parent: Option<Node>, step: StackStep) -> u64
    requires { IsStep step }
    ensures { result ≡ key_of (number_of parent) step }
{
    let number = match parent {
        Some(node) => node.number,
        None => 65536,
    };
    1 + u64::from(number) + 131072 * u64::from(step.site) + 137438953472 * u64::from(step.target)
}

/// The slot that is tried for a key after so many others.
pub(crate) fn place(slots: u32, key: u64, tried: u32) -> u32
    requires slots { slots ≤ 65536 }
    requires tried { tried < slots }
    ensures place { result ≡ place slots key tried }
    ensures within { result < slots }
{
    let spread = key.wrapping_mul(11400714819323198485) >> 32;
    let first = ((spread * u64::from(slots)) >> 32) as u32;
    let at = first + tried;
    if at < slots { at } else { at - slots }
}
