//! What a line asks for, read off its words.
ghost use Rattle.std.specs.Prelude.{◌≡◌};
ghost use Rattle.script.specs.Lines.{words as words_of};
ghost use Rattle.script.specs.LineReadings.{line_of, named, comment_word};

use crate::command::{Command, Fault};
use crate::queue_lines::read_queue;
use crate::sketch_lines::read_sketch;
use crate::words::{CommandWords, Words};

/// What a line asks for; nothing where it has no word, or is a comment.
pub fn read(line: &[u8]) -> Result<Option<Command>, Fault>
    ensures { result ≡ line_of (words_of line.now) }
{
    let mut words = Words::of(line);
    match words.next() {
        Some(name) if !is_comment(name) => read_named(CommandWords { name, given: words }).map(
            Some,
        ),
        _ => Ok(None),
    }
}

/// Whether a first word makes its line a comment.
fn is_comment(word: &[u8]) -> bool
    ensures { result ≡ comment_word word.now }
{
    word.first() == Some(&b'#')
}

/// What a command asks for, with the words behind it.
fn read_named(asked: CommandWords) -> Result<Command, Fault>
    ensures { result ≡ named asked.entry.name.now (words_of asked.entry.given.rest.now) }
{
    if let Some(command) = read_sketch(asked)? {
        return Ok(command);
    }
    read_queue(asked)?.ok_or(Fault::UnknownCommand)
}
