//! What a token is to the grammar.

ghost use Rattle.std.specs.Prelude.{◌≡◌, [], ◌∷◌, map};
ghost use Rattle.c_grammar.specs.Lexemes.{terminal_of, terminal_in, keyword_terminals, punctuator_terminals, number, spelled};

use c_grammar::Terminal;
use c_text::TokenKind;

const KEYWORDS: [(&[u8], Terminal); 26] = [
    (b"typedef", Terminal::Typedef),
    (b"static", Terminal::Static),
    (b"extern", Terminal::Extern),
    (b"_Thread_local", Terminal::ThreadLocal),
    (b"inline", Terminal::Inline),
    (b"_Noreturn", Terminal::NoReturn),
    (b"const", Terminal::Const),
    (b"volatile", Terminal::Volatile),
    (b"restrict", Terminal::Restrict),
    (b"void", Terminal::Void),
    (b"char", Terminal::Char),
    (b"int", Terminal::Int),
    (b"signed", Terminal::Signed),
    (b"unsigned", Terminal::Unsigned),
    (b"struct", Terminal::Struct),
    (b"enum", Terminal::Enum),
    (b"__attribute__", Terminal::Attribute),
    (b"if", Terminal::If),
    (b"else", Terminal::Else),
    (b"while", Terminal::While),
    (b"do", Terminal::Do),
    (b"for", Terminal::For),
    (b"break", Terminal::Break),
    (b"continue", Terminal::Continue),
    (b"return", Terminal::Return),
    (b"sizeof", Terminal::Sizeof),
];

/// The punctuators of more than one byte.
const LONGER: [(&[u8], Terminal); 21] = [
    (b"->", Terminal::Arrow),
    (b"++", Terminal::Increment),
    (b"--", Terminal::Decrement),
    (b"<<", Terminal::LeftShift),
    (b">>", Terminal::RightShift),
    (b"<=", Terminal::LessOrEqual),
    (b">=", Terminal::GreaterOrEqual),
    (b"==", Terminal::EqualEqual),
    (b"!=", Terminal::NotEqual),
    (b"&&", Terminal::AndAnd),
    (b"||", Terminal::OrOr),
    (b"*=", Terminal::StarEqual),
    (b"/=", Terminal::SlashEqual),
    (b"%=", Terminal::PercentEqual),
    (b"+=", Terminal::PlusEqual),
    (b"-=", Terminal::MinusEqual),
    (b"<<=", Terminal::LeftShiftEqual),
    (b">>=", Terminal::RightShiftEqual),
    (b"&=", Terminal::AmpersandEqual),
    (b"^=", Terminal::CaretEqual),
    (b"|=", Terminal::BarEqual),
];

/// What a token of this kind and text is to the grammar.
pub fn terminal_of(kind: TokenKind, text: &[u8]) -> Terminal
    ensures { result ≡ terminal_of kind text.now }
{
    match kind {
        TokenKind::Name => Terminal::Name,
        TokenKind::Number => Terminal::Number,
        TokenKind::Character => Terminal::Character,
        TokenKind::Text => Terminal::Text,
        TokenKind::Keyword => keyword_terminal(text),
        TokenKind::Punctuator => punctuator_terminal(text),
    }
}

fn keyword_terminal(word: &[u8]) -> Terminal
    ensures { result ≡ terminal_in keyword_terminals word.now }
{
    terminal_in(&KEYWORDS, word)
}

fn punctuator_terminal(word: &[u8]) -> Terminal
    ensures { result ≡ terminal_in punctuator_terminals word.now }
{
    if word.len() == 1 {
        single(word[0])
    } else {
        terminal_in(&LONGER, word)
    }
}

/// What a punctuator of one byte is to the grammar.
#[tactic(auto, unfolding(c_grammar::specs::Lexemes::punctuator_terminals))]
fn single(byte: u8) -> Terminal
    ensures { result ≡ terminal_in punctuator_terminals (byte ∷ []) }
{
    match byte {
        b'[' => Terminal::OpenBracket,
        b']' => Terminal::CloseBracket,
        b'(' => Terminal::OpenParen,
        b')' => Terminal::CloseParen,
        b'{' => Terminal::OpenBrace,
        b'}' => Terminal::CloseBrace,
        b'.' => Terminal::Dot,
        b'&' => Terminal::Ampersand,
        b'*' => Terminal::Star,
        b'+' => Terminal::Plus,
        b'-' => Terminal::Minus,
        b'~' => Terminal::Tilde,
        b'!' => Terminal::Exclamation,
        b'/' => Terminal::Slash,
        b'%' => Terminal::Percent,
        b'<' => Terminal::Less,
        b'>' => Terminal::Greater,
        b'^' => Terminal::Caret,
        b'|' => Terminal::Bar,
        b'?' => Terminal::Question,
        b':' => Terminal::Colon,
        b';' => Terminal::Semicolon,
        b'=' => Terminal::Equal,
        b',' => Terminal::Comma,
        _ => Terminal::Unused,
    }
}

fn terminal_in(rows: &[(&[u8], Terminal)], word: &[u8]) -> Terminal
    ensures { result ≡ terminal_in (map (λ row. spelled row.0.now row.1) rows.now) word.now }
{
    'rows: for row in rows {
        if row.0 == word {
            return row.1;
        }
    }
    Terminal::Unused
}

/// The number of a terminal, by which terminals are compared.
pub(crate) fn number(terminal: Terminal) -> u8
    ensures { result ≡ number terminal }
{
    match terminal {
        Terminal::Number => 0,
        Terminal::Character => 1,
        Terminal::Text => 2,
        Terminal::Unused => 3,
        Terminal::Typedef => 4,
        Terminal::Static => 5,
        Terminal::Extern => 6,
        Terminal::ThreadLocal => 7,
        Terminal::Inline => 8,
        Terminal::NoReturn => 9,
        Terminal::Const => 10,
        Terminal::Volatile => 11,
        Terminal::Restrict => 12,
        Terminal::Void => 13,
        Terminal::Char => 14,
        Terminal::Int => 15,
        Terminal::Signed => 16,
        Terminal::Unsigned => 17,
        Terminal::Struct => 18,
        Terminal::Enum => 19,
        Terminal::Attribute => 20,
        Terminal::If => 21,
        Terminal::Else => 22,
        Terminal::While => 23,
        Terminal::Do => 24,
        Terminal::For => 25,
        Terminal::Break => 26,
        Terminal::Continue => 27,
        Terminal::Return => 28,
        Terminal::Sizeof => 29,
        Terminal::OpenBracket => 30,
        Terminal::CloseBracket => 31,
        Terminal::OpenParen => 32,
        Terminal::CloseParen => 33,
        Terminal::OpenBrace => 34,
        Terminal::CloseBrace => 35,
        Terminal::Dot => 36,
        Terminal::Arrow => 37,
        Terminal::Increment => 38,
        Terminal::Decrement => 39,
        Terminal::Ampersand => 40,
        Terminal::Star => 41,
        Terminal::Plus => 42,
        Terminal::Minus => 43,
        Terminal::Tilde => 44,
        Terminal::Exclamation => 45,
        Terminal::Slash => 46,
        Terminal::Percent => 47,
        Terminal::LeftShift => 48,
        Terminal::RightShift => 49,
        Terminal::Less => 50,
        Terminal::Greater => 51,
        Terminal::LessOrEqual => 52,
        Terminal::GreaterOrEqual => 53,
        Terminal::EqualEqual => 54,
        Terminal::NotEqual => 55,
        Terminal::Caret => 56,
        Terminal::Bar => 57,
        Terminal::AndAnd => 58,
        Terminal::OrOr => 59,
        Terminal::Question => 60,
        Terminal::Colon => 61,
        Terminal::Semicolon => 62,
        Terminal::Equal => 63,
        Terminal::StarEqual => 64,
        Terminal::SlashEqual => 65,
        Terminal::PercentEqual => 66,
        Terminal::PlusEqual => 67,
        Terminal::MinusEqual => 68,
        Terminal::LeftShiftEqual => 69,
        Terminal::RightShiftEqual => 70,
        Terminal::AmpersandEqual => 71,
        Terminal::CaretEqual => 72,
        Terminal::BarEqual => 73,
        Terminal::Comma => 74,
        Terminal::Name => 75,
    }
}
