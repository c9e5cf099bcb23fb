//! What a list of words gives: positional words, and options with their values.

ghost use Rattle.std.specs.Prelude.{◌≡◌, ◌∷◌, ◌<◌, ◌≤◌, length, drop, MatchOption, IfSome, IfOk, IfErr, OnOk, Some, None};
ghost use Rattle.std.specs.List.{position_or_len};
ghost use Rattle.command.specs.Lines.{texts, is_dashed, is_option, is_terminator, line_from, line_of, followed_by};
ghost use Rattle.command.specs.Parts.{with_part, line_seen, pushed};
ghost use Rattle.command.specs.Readings.{IsRefusal};
ghost use Rattle.command.specs.declared.fault.WordsFault.TheVariants.{NoMemory};

use crate::fault::WordsFault;
use std::alloc::Global;

/// An option that was given.
#[derive(Clone, Copy)]
pub(crate) struct Given<'a> {
    /// The whole name of the option.
    pub(crate) name: &'a str,
    /// The text of its value.
    pub(crate) value: &'a str,
}

/// The words by what they are.
#[derive(Drop)]
pub(crate) struct Line<'a> {
    /// The positional words in order.
    pub(crate) words: Vec<&'a str>,
    /// The options in order.
    pub(crate) given: Vec<Given<'a>>,
}

// What the first words of a list are.
#[derive(Clone, Copy)]
enum Part<'a> {
    Word(&'a str),
    Setting(Given<'a>),
}

fn is_dashed(word: &str) -> bool
    ensures { result ≡ is_dashed word.now }
{
    match word.as_bytes() {
        [first, _, ..] => *first == b'-',
        _ => false,
    }
}

#[tactic(auto, unfolding(crate::specs::Lines::is_option))]
fn is_option(name: &str) -> bool
    ensures { result ≡ is_option name.now }
{
    match name {
        "--options" => true,
        "--suppressions" => true,
        "--entry" => true,
        "--args" => true,
        "--schedule" => true,
        "--events" => true,
        "--wait-limit" => true,
        "--workers" => true,
        _ => false,
    }
}

fn is_terminator(word: &str) -> bool
    ensures { result ≡ is_terminator word.now }
{
    word == "--"
}

// The option of this name with the value that stands in the next word.
fn with_next_word<'a>(name: &'a str, later: &[&'a str]) -> Option<Part<'a>>
    ensures part { MatchOption result (line_from (texts later.now) (Some name.now) ≡ None)
        (λ part. line_from (texts later.now) (Some name.now) ≡ with_part part (line_from (texts (drop 1 later.now)) None)) }
    ensures there { IfSome result (λ part. 1 ≤ length later.now) }
{
    let [value, ..] = later else {
        return None;
    };
    if is_dashed(value) {
        return None;
    }
    Some(Part::Setting(Given { name, value }))
}

// What a word is, with the words behind it: the part that it begins, and how many of those words belong to it.
fn part_at<'a>(word: &'a str, later: &[&'a str]) -> Option<(Part<'a>, usize)>
    ensures part { MatchOption result (line_from (word.now ∷ texts later.now) None ≡ None)
        (λ p. line_from (word.now ∷ texts later.now) None ≡ with_part p.0 (line_from (texts (drop p.1 later.now)) None)) }
    ensures there { IfSome result (λ p. p.1 ≤ length later.now) }
{
    if !is_dashed(word) {
        return Some((Part::Word(word), 0));
    }
    match word.split_once('=') {
        Some((name, value)) => {
            if is_option(name) {
                Some((Part::Setting(Given { name, value }), 0))
            } else {
                None
            }
        }
        None => {
            if is_option(word) {
                let part = with_next_word(word, later)?;
                Some((part, 1))
            } else {
                None
            }
        }
    }
}

// What the first words are, and how many they are, where they are anything.
fn next_part<'a>(words: &[&'a str]) -> Option<(Part<'a>, usize)>
    ensures part { MatchOption result (0 < length words.now → line_from (texts words.now) None ≡ None)
        (λ p. line_from (texts words.now) None ≡ with_part p.0 (line_from (texts (drop p.1 words.now)) None)) }
    ensures there { IfSome result (λ p. (1 ≤ p.1) × (p.1 ≤ length words.now)) }
{
    let [word, later @ ..] = words else {
        return None;
    };
    let (part, taken) = part_at(word, later)?;
    Some((part, taken + 1))
}

impl<'a> Line<'a> {
    fn push(&mut self, part: Part<'a>) -> Result<(), WordsFault>
        ensures value { OnOk result (line_seen self.new ≡ pushed (line_seen self.old) part.entry) }
        ensures memory { IfErr result (λ fault. fault ≡ NoMemory) }
    {
        match part {
            Part::Word(word) => self.words.push(word)?,
            Part::Setting(given) => self.given.push(given)?,
        }
        Ok(())
    }

    fn push_words(&mut self, words: &[&'a str]) -> Result<(), WordsFault>
        ensures value { OnOk result (line_seen self.new ≡ followed_by (texts words.now) (line_seen self.old)) }
        ensures memory { IfErr result (λ fault. fault ≡ NoMemory) }
    {
        let mut rest = words;
        'words: while let [word, later @ ..] = rest {
            self.words.push(word)?;
            rest = later;
        }
        Ok(())
    }
}

// The line of words before `--`.
fn read_front<'a>(alloc: Global, words: &[&'a str]) -> Result<Line<'a>, WordsFault>
    ensures value { IfOk result (λ line. line_from (texts words.now) None ≡ Some (line_seen line)) }
    ensures refused { IfErr result (IsRefusal (line_from (texts words.now) None)) }
{
    let mut line = Line {
        words: Vec::new(alloc),
        given: Vec::new(alloc),
    };
    let mut at = 0;
    'parts: while at < words.len() {
        let Some((part, taken)) = next_part(&words[at..]) else {
            return Err(WordsFault::Usage);
        };
        line.push(part)?;
        at += taken;
    }
    Ok(line)
}

// How many words stand before the first `--`.
fn front_len(words: &[&str]) -> usize
    ensures value { result ≡ position_or_len is_terminator (texts words.now) }
    ensures within { result ≤ length words.now }
{
    let mut count = 0;
    let mut rest = words;
    'words: while let [word, later @ ..] = rest {
        if is_terminator(word) {
            return count;
        }
        count += 1;
        rest = later;
    }
    count
}

/// The line of all words.
pub(crate) fn read_line<'a>(alloc: Global, words: &[&'a str]) -> Result<Line<'a>, WordsFault>
    ensures value { IfOk result (λ line. line_of (texts words.now) ≡ Some (line_seen line)) }
    ensures refused { IfErr result (IsRefusal (line_of (texts words.now))) }
{
    let end = front_len(words);
    let mut line = match read_front(alloc, &words[..end]) {
        Ok(line) => line,
        Err(fault) => return Err(fault),
    };
    if end == words.len() {
        return Ok(line);
    }
    line.push_words(&words[end + 1..])?;
    Ok(line)
}
