// The lines of a suppression file, and what one says.
ghost use Rattle.std.specs.Prelude.{◌≡◌, ◌∷◌, ◌<◌, [], length, MatchOption};
ghost use Rattle.suppress.specs.Lines.{lines_of, without_return};
ghost use Rattle.suppress.specs.Meaning.{is_silent, meaning_of, stated};
ghost use Rattle.suppress.specs.Line.{meaning_in};

use crate::search::split_first;
use crate::suppressions::SuppressionKind;

const FUNCTION_NAME_WORDS: &[u8] = b"function-name-matches:";

const CALL_STACK_WORDS: &[u8] = b"call-stack-contains:";

/// The fault of a line that names neither kind.
pub(crate) const UNKNOWN_KIND: u8 = 1;
/// The fault of a line with nothing after its colon.
pub(crate) const EMPTY_PATTERN: u8 = 2;

/// What one line says.
#[derive(Drop)]
pub(crate) enum Line<'a> {
    /// Nothing: the line is empty or a comment.
    Silent,
    /// A suppression, with the bytes of its pattern.
    States(SuppressionKind, &'a [u8]),
    /// The line is bad, by this number.
    Faulty(u8),
}

fn without_carriage_return(bytes: &[u8]) -> &[u8]
    ensures { result.now ≡ without_return bytes.now }
{
    match bytes {
        [line @ .., b'\r'] => line,
        _ => bytes,
    }
}

/// The first line of `text` and what follows it, or `None` where no line stands.
pub(crate) fn next_line(text: &[u8]) -> Option<(&[u8], &[u8])>
    ensures first { MatchOption result (lines_of text.now ≡ []) (λ p. lines_of text.now ≡ p.0.now ∷ lines_of p.1.now) }
    ensures shorter { MatchOption result (text.now ≡ []) (λ p. length p.1.now < length text.now) }
{
    if text.is_empty() {
        return None;
    }
    let (line, rest) = split_first(text, b'\n');
    Some((without_carriage_return(line), rest.unwrap_or(&[])))
}

fn stated_as<'a>(kind: SuppressionKind, pattern: &'a [u8]) -> Line<'a>
    ensures { meaning_in result ≡ stated kind pattern.now }
{
    if pattern.is_empty() {
        Line::Faulty(EMPTY_PATTERN)
    } else {
        Line::States(kind, pattern)
    }
}

fn says_nothing(line: &[u8]) -> bool
    ensures { result ≡ is_silent line.now }
{
    line.is_empty() || line[0] == b'#'
}

/// What `line` says.
pub(crate) fn read_line(line: &[u8]) -> Line<'_>
    ensures { meaning_in result ≡ meaning_of line.now }
{
    if says_nothing(line) {
        Line::Silent
    } else if line.starts_with(FUNCTION_NAME_WORDS) {
        stated_as(
            SuppressionKind::FunctionNameMatches,
            &line[FUNCTION_NAME_WORDS.len()..],
        )
    } else if line.starts_with(CALL_STACK_WORDS) {
        stated_as(
            SuppressionKind::CallStackContains,
            &line[CALL_STACK_WORDS.len()..],
        )
    } else {
        Line::Faulty(UNKNOWN_KIND)
    }
}
