//! What the calls of a context leave.

use rt_ctx::Context;
use std::test::Fail;

#[test]
fn enabling_at_zero_changes_nothing(rt: HostRuntime) -> Result<(), Fail> {
    let mut context = Context {
        depth: 0,
        disabled: 0,
    };
    context.enter(true);
    context.enter(false);
    context.enable();
    context.disable();
    context.disable();
    context.enable();
    assert_eq!(rt; context.disabled, 1);
    assert_eq!(rt; context.depth, 1);
    context.leave(false);
    context.leave(true);
    assert_eq!(rt; context.depth, 0);
    Ok(())
}
