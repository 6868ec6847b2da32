//! The words of a line, one after the other.
ghost use Rattle.std.specs.Prelude.{◌≡◌, ◌≤◌, length};
ghost use Rattle.std.specs.Iterator.{at_most};
ghost use Rattle.script.specs.Lines.{blank, words as words_of, first, others};
ghost use Rattle.script.specs.Runs.{leading, contents};
ghost use Rattle.script.specs.Readings.{only, only_number, only_pair, only_field, field, none_left};

use crate::numbers::number;

/// Whether a byte parts words.
fn is_blank(b: u8) -> bool
    ensures { result ≡ blank b }
{
    b == b' ' || b == b'\t' || b == b'\n'
}

/// How many bytes at the front are blank, or how many are not.
fn leading_bytes(line: &[u8], blanks: bool) -> usize
    ensures is { result ≡ leading blanks line.now }
    ensures within { result ≤ length line.now }
{
    line.iter()
        .position(|b| is_blank(*b) != blanks)
        .unwrap_or(line.len())
}

/// The words of a line that are still to be read; copied, since one reader after the other goes over them.
// Bytes and no `str`: a line that is no text is answered like any other that is not well formed.
#[derive(Clone, Copy)]
pub struct Words<'a> {
    rest: &'a [u8],
}

impl<'a> Iterator for Words<'a> {
    type Item = &'a [u8];

    ghost next_gives = { λ before word after. (contents word ≡ first (words_of before.rest.now)) × (words_of after.rest.now ≡ others (words_of before.rest.now)) };

    ghost remaining = { λ words. at_most (length words.rest.now) };

    /// The next word.
    fn next(&mut self) -> Option<&'a [u8]> {
        let line = self.rest;
        let from = leading_bytes(line, true);
        let line = &line[from..];
        let to = leading_bytes(line, false);
        self.rest = &line[to..];
        // Two cases, as the words of a line are defined: by `then_some` the proof has to part them again.
        if to == 0 { None } else { Some(&line[0..to]) }
    }
}

impl<'a> Words<'a> {
    /// All words of a line.
    pub fn of(line: &'a [u8]) -> Words<'a>
        ensures { result.rest.now ≡ line.now }
    {
        Words { rest: line }
    }

    /// The only word that is left, if it is the only one.
    fn only(mut self) -> Option<&'a [u8]>
        ensures { contents result ≡ only (words_of self.entry.rest.now) }
    {
        let word = self.next()?;
        self.is_done().then_some(word)
    }

    /// The number that the only word left says.
    pub fn only_number(self) -> Option<u64>
        ensures { result ≡ only_number (words_of self.entry.rest.now) }
    {
        number(self.only()?)
    }

    /// The numbers that the only two words left say.
    pub fn only_pair(mut self) -> Option<(u64, u64)>
        ensures { result ≡ only_pair (words_of self.entry.rest.now) }
    {
        let first = number(self.next()?)?;
        let second = self.only_number()?;
        Some((first, second))
    }

    /// Whether no word is left.
    pub fn is_done(mut self) -> bool
        ensures { result ≡ none_left (words_of self.entry.rest.now) }
    {
        self.next().is_none()
    }

    /// The number that the only word left says behind a name.
    pub fn only_field(self, name: &[u8]) -> Option<u64>
        ensures { result ≡ only_field name.now (words_of self.entry.rest.now) }
    {
        read_field(self.only()?, name)
    }
}

/// The number that a word says behind a name.
fn read_field(word: &[u8], name: &[u8]) -> Option<u64>
    ensures { result ≡ field name.now word.now }
{
    number(word.strip_prefix(name)?)
}

/// A line that is no comment: its first word, which is its command, and the words behind it.
#[derive(Clone, Copy)]
pub struct CommandWords<'a> {
    pub name: &'a [u8],
    pub given: Words<'a>,
}
