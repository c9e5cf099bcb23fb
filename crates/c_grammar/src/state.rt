//! What a rule of the grammar knows of where it stands and of what was read before: arguments of rules, and parts of
//! what they read.

/// What an operand may begin with.
#[derive(Clone, Copy)]
pub enum Front {
    /// All that a cast may begin with.
    Cast,
    /// What a unary expression may begin with.
    Unary,
    /// No parenthesis.
    Bare,
    /// The parenthesis at this place was read before, and an expression stands in it.
    Opened(u32),
}

/// The precedence of a binary operator, from the loosest to the tightest (C17 6.5.5 to 6.5.14).
#[derive(Clone, Copy)]
pub enum Precedence {
    LogicalOr,
    LogicalAnd,
    InclusiveOr,
    ExclusiveOr,
    BitwiseAnd,
    Equality,
    Relational,
    Shift,
    Additive,
    Multiplicative,
}

/// Where specifiers stand.
#[derive(Clone, Copy)]
pub enum SpecifierContext {
    /// At file scope.
    File,
    Block,
    /// In a structure.
    Member,
    /// In a parameter or a type name.
    Type,
    /// At the front of a parameter that no bracket may begin.
    Barred,
}

/// One of `typedef`, `static`, `extern` among the specifiers.
#[derive(Clone, Copy)]
pub enum StorageClass {
    Absent,
    Static,
    Other,
}

/// The type specifiers so far, where there are some. A combination that more words may join is named by its words.
#[derive(Clone, Copy)]
pub enum TypeSpecifiers {
    Char,
    Int,
    Signed,
    Unsigned,
    /// No word may join these.
    Complete,
}

/// What a declarator declares (C17 6.7.6 and 6.7.7).
#[derive(Clone, Copy)]
pub enum DeclaratorKind {
    /// An ordinary name.
    Ordinary,
    /// A member.
    Member,
    /// A parameter, which may lack its name.
    Parameter,
    /// Nothing, as in a type name.
    Abstract,
}

/// What is known of a `[` at the front of a declarator.
#[derive(Clone, Copy)]
pub enum Bracket {
    /// Nothing.
    Unknown,
    /// None stands there.
    Passed,
    /// None stands there, and the declarator is not empty.
    Barred,
    /// The one at this place was read before.
    Opened(u32),
}

/// How far a declarator was read.
#[derive(Clone, Copy)]
pub enum Reach {
    Nothing,
    /// Its name alone, perhaps in parentheses.
    NameAlone,
    /// Up to a parameter list with its attributes.
    Called,
    /// Up to something else.
    More,
}
