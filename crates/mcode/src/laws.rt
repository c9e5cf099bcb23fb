//! A law of the plain machine.

ghost use Rattle.mcode.specs.Machine.{Program};
ghost use Rattle.mcode.specs.Laws.{IgnoresUnanswered};

/// Whatever the code and the state of a thread: the word beside an event that nothing answers is ignored. The call itself does nothing.
pub fn law_unanswered()
    ensures { (code : Program) → IgnoresUnanswered code }
{}
