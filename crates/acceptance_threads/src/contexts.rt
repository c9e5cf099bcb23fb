//! The set of calling contexts.
ghost use Rattle.std.specs.Prelude.{◌≡◌};

use context_set::{Counted, CtxSet};
use ctx_set::StackStep;
use std::test::Fail;

/// The step of a function that is called at site 0.
fn step(target: u32) -> StackStep
    ensures { (result.target ≡ target) × (result.site ≡ 0) }
{
    StackStep { target, site: 0 }
}

#[test]
fn a_set_of_one_slot_has_one_node(rt: HostRuntime) -> Result<(), Fail> {
    let (set, mut pass) = CtxSet::new(rt.alloc(), 1)?;
    let Ok(node) = set.enter(&mut pass, None, step(5)) else {
        return Err(Fail::new("no node"));
    };
    let first = set.count(&mut pass, node);
    let second = set.count(&mut pass, node);
    assert!(rt; matches!(first, Counted::First));
    assert!(rt; matches!(second, Counted::Again));
    let again = set.enter(&mut pass, None, step(5));
    assert!(rt; matches!(again, Ok(same) if same.number == node.number));
    assert!(rt; set.enter(&mut pass, None, step(6)).is_err());
    let paths = set.close(pass)?;
    assert_eq!(rt; paths.len(), 1);
    let only = &paths[0];
    assert_eq!(rt; only.count, 2);
    assert_eq!(rt; only.path.as_slice().len(), 1);
    assert_eq!(rt; only.path.as_slice()[0].target, 5);
    Ok(())
}
