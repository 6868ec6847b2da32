//! The lines that ask a queue.
ghost use Rattle.std.specs.Prelude.{◌≡◌};
ghost use Rattle.script.specs.Lines.{words as words_of};
ghost use Rattle.script.specs.Readings.{asking_alone};
ghost use Rattle.script.specs.QueueLines.{queue_reading};

use crate::command::{Command, Fault, QueueCommand, fitting};
use crate::words::{CommandWords, Words};

/// What a line asks of a queue; nothing where its command is none of a queue.
pub fn read_queue(asked: CommandWords) -> Result<Option<Command>, Fault>
    ensures { result ≡ queue_reading asked.entry.name.now (words_of asked.entry.given.rest.now) }
{
    let given = asked.given;
    match asked.name {
        b"queue" => fitting(given.only_field(b"nodes=").map(Command::MakeQueue)),
        b"push" => fitting(
            given
                .only_pair()
                .map(|(i, x)| Command::Queue(QueueCommand::Push(i, x))),
        ),
        b"pop" => read_alone(given, Command::Queue(QueueCommand::Pop)),
        b"front" => read_alone(given, Command::Queue(QueueCommand::Front)),
        b"list" => read_alone(given, Command::ListQueue),
        b"back" => fitting(
            given
                .only_number()
                .map(|i| Command::Queue(QueueCommand::Back(i))),
        ),
        b"unlink" => fitting(
            given
                .only_number()
                .map(|i| Command::Queue(QueueCommand::Unlink(i))),
        ),
        b"next" => fitting(
            given
                .only_number()
                .map(|i| Command::Queue(QueueCommand::Next(i))),
        ),
        b"member" => fitting(
            given
                .only_number()
                .map(|i| Command::Queue(QueueCommand::Member(i))),
        ),
        _ => Ok(None),
    }
}

/// A command that takes no word.
fn read_alone(given: Words, command: Command) -> Result<Option<Command>, Fault>
    ensures { result ≡ asking_alone (words_of given.entry.rest.now) command }
{
    fitting(given.is_done().then_some(command))
}
