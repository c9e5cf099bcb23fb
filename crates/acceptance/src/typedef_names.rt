//! Names that are declared and forgotten.

ghost use Rattle.std.specs.Prelude.{◌≡◌, ◌≤◌, length};

use std::process::Abort;
use std::test::Fail;
use type_names::TypeNames;

/// A step with the names of a scope.
#[derive(Clone, Copy)]
enum Step {
    /// Declares a name, as a typedef name or as another.
    Declare(&'static [u8], bool),
    /// Forgets the declarations behind so many.
    Restore(usize),
    /// So many declarations are left.
    Count(usize),
    /// The name is a typedef name now, or it isn't.
    Is(&'static [u8], bool),
}

const STEPS: [Step; 26] = [
    // the last declaration counts
    Step::Declare(b"size_t", true),
    Step::Declare(b"count", false),
    Step::Count(2),
    Step::Is(b"size_t", true),
    Step::Is(b"count", false),
    Step::Is(b"size", false),
    Step::Declare(b"size_t", false),
    Step::Declare(b"count", true),
    Step::Is(b"size_t", false),
    Step::Is(b"count", true),
    // and what a name was before comes back
    Step::Restore(0),
    Step::Declare(b"node", true),
    Step::Declare(b"list", true),
    Step::Declare(b"node", false),
    Step::Declare(b"edge", true),
    Step::Declare(b"node", true),
    Step::Declare(b"list", false),
    Step::Restore(3),
    Step::Count(3),
    Step::Is(b"node", false),
    Step::Is(b"list", true),
    Step::Is(b"edge", false),
    Step::Restore(2),
    Step::Is(b"node", true),
    Step::Restore(0),
    Step::Is(b"node", false),
];

/// Makes a step, and says whether it went as it is said.
fn goes(names: &mut TypeNames<'static>, step: Step) -> bool {
    match step {
        Step::Declare(name, is_type) => names.declare(name, is_type).is_ok(),
        Step::Restore(count) => {
            let known = count <= names.len();
            if known {
                names.restore(count);
            }
            known
        }
        Step::Count(count) => names.len() == count,
        Step::Is(name, is_type) => names.is_type(name) == is_type,
    }
}

#[test]
fn names_are_declared_and_forgotten(rt: HostRuntime) -> Result<(), Fail> {
    let mut names = TypeNames::new(rt.alloc())?;
    for (at, step) in STEPS.iter().enumerate() {
        assert!(rt; goes(&mut names, *step), "step {at}");
    }
    Ok(())
}
