//! The real-time context of a thread (Clang's manual, 'RealtimeSanitizer').

ghost use Rattle.std.specs.Prelude.{◌≡◌, ◌-◌, ◌<◌, ◌^◌};
ghost use Rattle.std.specs.Bool.{OnTrue};
ghost use Rattle.rt_ctx.specs.Contexts.{entered, left, disabling, enabling};

/// What the detector keeps of a thread.
#[derive(Clone, Copy)]
pub struct Context {
    /// How many frames there are whose functions are `nonblocking`.
    pub depth: u32,
    /// How often the detector was disabled and not enabled again.
    pub disabled: u32,
}

impl Context {
    /// A function is entered, which is `nonblocking` or isn't.
    pub fn enter(&mut self, nonblocking: bool)
        requires { OnTrue nonblocking (self.old.depth < 2 ^ 32 - 1) }
        ensures { self.new ≡ entered nonblocking self.old }
    {
        if nonblocking {
            self.depth += 1;
        }
    }

    /// A function is left, which is `nonblocking` or isn't.
    pub fn leave(&mut self, nonblocking: bool)
        requires { OnTrue nonblocking (0 < self.old.depth) }
        ensures { self.new ≡ left nonblocking self.old }
    {
        if nonblocking {
            self.depth -= 1;
        }
    }

    /// Disables the detector once more.
    pub fn disable(&mut self)
        requires { self.old.disabled < 2 ^ 32 - 1 }
        ensures { self.new ≡ disabling self.old }
    {
        self.disabled += 1;
    }

    /// Takes back one disabling, if there is one.
    pub fn enable(&mut self)
        ensures { self.new ≡ enabling self.old }
    {
        self.disabled = self.disabled.saturating_sub(1);
    }
}
