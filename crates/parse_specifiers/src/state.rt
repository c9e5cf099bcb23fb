//! What the specifiers read so far allow behind them.

ghost use Rattle.std.specs.Prelude.{◌≡◌, ◌&&◌, not, is_some, is_none};
ghost use Rattle.c_grammar.specs.Lexemes.{is};
ghost use Rattle.c_grammar.specs.Specifiers.{no_specs, has_no_storage, is_static, joins, joined, is_storage_word, is_type_word, is_type_here, is_function_word, is_spec_word, after_terminal, after_type, spec_of, has_static, is_whole, is_barred, is_abstract, defines, next_context, opens_definition};
ghost use Rattle.parse_input.specs.Input.{sees};

use c_grammar::{SpecifierContext, StorageClass, Terminal, TypeSpecifiers};
use c_tree::{FunctionWord, Qualifier, Spec, StorageWord, TypeWord};
use parse_input::{Input, Seen, is_barred};
use std::marker::Model;

/// What the specifiers read so far allow behind them.
#[derive(Clone, Copy)]
pub struct SpecsState {
    storage: StorageClass,
    is_thread_local: bool,
    type_specifiers: Option<TypeSpecifiers>,
}

impl Model for SpecsState {
    ghost use Rattle.c_grammar.specs.Rules.{SpecsState};

    ghost Value = { SpecsState };

    ghost view = { λ s. record { storage = s.storage; is_thread_local = s.is_thread_local; type_specifiers = s.type_specifiers } };

    ghost inverse = { λ s. record { storage = s.storage; is_thread_local = s.is_thread_local; type_specifiers = s.type_specifiers } };
}

/// Whether no storage word was read.
fn has_no_storage(storage: StorageClass) -> bool
    ensures { result ≡ has_no_storage storage }
{
    match storage {
        StorageClass::Absent => true,
        StorageClass::Static => false,
        StorageClass::Other => false,
    }
}

/// Whether `static` was read.
fn is_static(storage: StorageClass) -> bool
    ensures { result ≡ is_static storage }
{
    match storage {
        StorageClass::Absent => false,
        StorageClass::Static => true,
        StorageClass::Other => false,
    }
}

/// Whether no type specifier was read.
fn is_none(type_specifiers: Option<TypeSpecifiers>) -> bool
    ensures { result ≡ is_none type_specifiers }
{
    match type_specifiers {
        None => true,
        Some(_) => false,
    }
}

/// Whether a type word joins the type specifiers before it.
fn joins(type_specifiers: Option<TypeSpecifiers>, terminal: Terminal) -> bool
    ensures { result ≡ joins type_specifiers terminal }
{
    match type_specifiers {
        None => true,
        Some(TypeSpecifiers::Char) => match terminal {
            Terminal::Signed => true,
            _ => false,
        },
        Some(TypeSpecifiers::Int) => match terminal {
            Terminal::Signed => true,
            Terminal::Unsigned => true,
            _ => false,
        },
        Some(TypeSpecifiers::Signed) => match terminal {
            Terminal::Char => true,
            Terminal::Int => true,
            _ => false,
        },
        Some(TypeSpecifiers::Unsigned) => match terminal {
            Terminal::Int => true,
            _ => false,
        },
        Some(TypeSpecifiers::Complete) => false,
    }
}

/// The type specifiers with one more type word.
fn joined(type_specifiers: Option<TypeSpecifiers>, terminal: Terminal) -> TypeSpecifiers
    ensures { result ≡ joined type_specifiers terminal }
{
    match type_specifiers {
        None => match terminal {
            Terminal::Char => TypeSpecifiers::Char,
            Terminal::Int => TypeSpecifiers::Int,
            Terminal::Signed => TypeSpecifiers::Signed,
            Terminal::Unsigned => TypeSpecifiers::Unsigned,
            _ => TypeSpecifiers::Complete,
        },
        Some(_) => TypeSpecifiers::Complete,
    }
}

impl SpecsState {
    /// No specifier was read yet.
    pub fn new() -> SpecsState
        ensures { result ≡ no_specs }
    {
        SpecsState {
            storage: StorageClass::Absent,
            is_thread_local: false,
            type_specifiers: None,
        }
    }

    /// Whether a storage word may stand here.
    fn takes_storage(self, context: SpecifierContext, seen: &Seen<'_>) -> bool
        ensures { result ≡ is_storage_word context self seen.now }
    {
        match context {
            SpecifierContext::File => {
                seen.is(Terminal::ThreadLocal)
                    || (seen.is_among(&[Terminal::Typedef, Terminal::Static, Terminal::Extern])
                        && has_no_storage(self.storage))
            }
            SpecifierContext::Block => {
                seen.is(Terminal::ThreadLocal)
                    || (seen.is(Terminal::Static) && has_no_storage(self.storage))
            }
            SpecifierContext::Member => false,
            SpecifierContext::Type => false,
            SpecifierContext::Barred => false,
        }
    }

    /// Whether a type word may stand here.
    fn takes_type_word(self, seen: &Seen<'_>) -> bool
        ensures { result ≡ is_type_word self seen.now }
    {
        seen.is_among(&[
            Terminal::Void,
            Terminal::Char,
            Terminal::Int,
            Terminal::Signed,
            Terminal::Unsigned,
        ]) && joins(self.type_specifiers, seen.terminal())
    }

    /// Whether a typedef name stands here, where it may.
    fn takes_type_name(self, seen: &Seen<'_>, input: &Input<'_>) -> bool
        ensures { result ≡ is_type_here input.now.scope self seen.now }
    {
        seen.is(Terminal::Name) && is_none(self.type_specifiers) && input.is_type(seen.text())
    }

    /// Whether a specifier of one word stands here.
    #[tactic(auto, using(parse_input::proofs::Steps::sees_none, parse_input::proofs::Steps::sees_head))]
    pub fn takes_word(self, context: SpecifierContext, input: &Input<'_>) -> bool
        ensures { result ≡ sees (is_spec_word context input.now.scope self) input.now.tokens }
    {
        if input.is_done() {
            return false;
        }
        let seen = input.peek();
        self.takes_storage(context, &seen)
            || (seen.is_among(&[Terminal::Inline, Terminal::NoReturn]) && !input.is_in_block())
            || seen.is_among(&[Terminal::Const, Terminal::Volatile, Terminal::Restrict])
            || self.takes_type_word(&seen)
            || self.takes_type_name(&seen, input)
    }

    /// Whether a structure begins here, where no type specifier was read.
    #[tactic(auto, using(parse_input::proofs::Steps::sees_none, parse_input::proofs::Steps::sees_head))]
    pub fn takes_structure(self, input: &Input<'_>) -> bool
        ensures { result ≡ sees (λ t. is Terminal.Struct t && is_none self.type_specifiers) input.now.tokens }
    {
        if input.is_done() {
            return false;
        }
        input.peek().is(Terminal::Struct) && is_none(self.type_specifiers)
    }

    /// Whether an enumeration begins here, where no type specifier was read.
    #[tactic(auto, using(parse_input::proofs::Steps::sees_none, parse_input::proofs::Steps::sees_head))]
    pub fn takes_enumeration(self, input: &Input<'_>) -> bool
        ensures { result ≡ sees (λ t. is Terminal.Enum t && is_none self.type_specifiers) input.now.tokens }
    {
        if input.is_done() {
            return false;
        }
        input.peek().is(Terminal::Enum) && is_none(self.type_specifiers)
    }

    /// With one more word.
    pub fn after_terminal(self, terminal: Terminal) -> SpecsState
        ensures { result ≡ after_terminal self terminal }
    {
        let mut state = self;
        match terminal {
            Terminal::Typedef => state.storage = StorageClass::Other,
            Terminal::Static => state.storage = StorageClass::Static,
            Terminal::Extern => state.storage = StorageClass::Other,
            Terminal::ThreadLocal => state.is_thread_local = true,
            Terminal::Void => state.type_specifiers = Some(TypeSpecifiers::Complete),
            Terminal::Char => state.type_specifiers = Some(joined(
                self.type_specifiers,
                Terminal::Char,
            )),
            Terminal::Int => state.type_specifiers = Some(joined(
                self.type_specifiers,
                Terminal::Int,
            )),
            Terminal::Signed => state.type_specifiers = Some(joined(
                self.type_specifiers,
                Terminal::Signed,
            )),
            Terminal::Unsigned => state.type_specifiers = Some(joined(
                self.type_specifiers,
                Terminal::Unsigned,
            )),
            Terminal::Name => state.type_specifiers = Some(TypeSpecifiers::Complete),
            _ => {}
        }
        state
    }

    /// With a structure or an enumeration.
    pub fn after_type(self) -> SpecsState
        ensures { result ≡ after_type self }
    {
        SpecsState {
            storage: self.storage,
            is_thread_local: self.is_thread_local,
            type_specifiers: Some(TypeSpecifiers::Complete),
        }
    }

    /// Whether `static` stands beside `_Thread_local` where it has to.
    fn has_static(self, context: SpecifierContext) -> bool
        ensures { result ≡ has_static context self }
    {
        match context {
            SpecifierContext::Block => !self.is_thread_local || is_static(self.storage),
            SpecifierContext::File => true,
            SpecifierContext::Member => true,
            SpecifierContext::Type => true,
            SpecifierContext::Barred => true,
        }
    }

    /// Whether the specifiers may end.
    pub fn is_whole(self, context: SpecifierContext) -> bool
        ensures { result ≡ is_whole context self }
    {
        !is_none(self.type_specifiers) && self.has_static(context)
    }
}

/// The specifier of one word.
pub fn spec_of(seen: &Seen<'_>) -> Spec
    ensures { result ≡ spec_of seen.now.terminal seen.now }
{
    let place = seen.place();
    match seen.terminal() {
        Terminal::Typedef => Spec::Storage(place, StorageWord::Typedef),
        Terminal::Static => Spec::Storage(place, StorageWord::Static),
        Terminal::Extern => Spec::Storage(place, StorageWord::Extern),
        Terminal::ThreadLocal => Spec::Storage(place, StorageWord::ThreadLocal),
        Terminal::Inline => Spec::Function(place, FunctionWord::Inline),
        Terminal::NoReturn => Spec::Function(place, FunctionWord::NoReturn),
        Terminal::Const => Spec::Qualifier(place, Qualifier::Const),
        Terminal::Volatile => Spec::Qualifier(place, Qualifier::Volatile),
        Terminal::Restrict => Spec::Qualifier(place, Qualifier::Restrict),
        Terminal::Void => Spec::Type(place, TypeWord::Void),
        Terminal::Char => Spec::Type(place, TypeWord::Char),
        Terminal::Int => Spec::Type(place, TypeWord::Int),
        Terminal::Signed => Spec::Type(place, TypeWord::Signed),
        Terminal::Unsigned => Spec::Type(place, TypeWord::Unsigned),
        _ => Spec::TypedefName(seen.span()),
    }
}

/// Whether structures and enumerations are defined here.
fn defines(context: SpecifierContext) -> bool
    ensures { result ≡ defines context }
{
    match context {
        SpecifierContext::File => true,
        SpecifierContext::Block => false,
        SpecifierContext::Member => true,
        SpecifierContext::Type => false,
        SpecifierContext::Barred => false,
    }
}

/// Whether a `{` that begins a definition stands here.
#[tactic(auto, using(parse_input::proofs::Steps::sees_none, parse_input::proofs::Steps::sees_head))]
pub fn opens_definition(context: SpecifierContext, input: &Input<'_>) -> bool
    ensures { result ≡ sees (opens_definition context) input.now.tokens }
{
    if input.is_done() {
        return false;
    }
    input.peek().is(Terminal::OpenBrace) && defines(context)
}

/// Whether an abstract declarator, which may begin with a `[`, may follow.
pub fn is_abstract(context: SpecifierContext) -> bool
    ensures { result ≡ is_abstract context }
{
    match context {
        SpecifierContext::File => false,
        SpecifierContext::Block => false,
        SpecifierContext::Member => false,
        SpecifierContext::Type => true,
        SpecifierContext::Barred => true,
    }
}

/// Whether a bracket stands here, where it may.
#[tactic(auto, using(parse_input::proofs::Steps::sees_none, parse_input::proofs::Steps::sees_head))]
pub fn takes_bracket(context: SpecifierContext, input: &Input<'_>) -> bool
    ensures { result ≡ sees (λ t. is Terminal.OpenBracket t && not (is_barred context)) input.now.tokens }
{
    if input.is_done() {
        return false;
    }
    input.peek().is(Terminal::OpenBracket) && !is_barred(context)
}

/// Where the specifier behind the first stands.
pub fn next_context(context: SpecifierContext) -> SpecifierContext
    ensures { result ≡ next_context context }
{
    match context {
        SpecifierContext::File => SpecifierContext::File,
        SpecifierContext::Block => SpecifierContext::Block,
        SpecifierContext::Member => SpecifierContext::Member,
        SpecifierContext::Type => SpecifierContext::Type,
        SpecifierContext::Barred => SpecifierContext::Type,
    }
}
