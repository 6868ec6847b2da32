//! The lines that ask a sketch.
ghost use Rattle.std.specs.Prelude.{◌≡◌};
ghost use Rattle.script.specs.Lines.{words as words_of};
ghost use Rattle.script.specs.SketchLines.{sketch_reading};

use crate::command::{Command, Fault, SketchCommand, fitting};
use crate::words::CommandWords;

/// What a line asks of a sketch; nothing where its command is none of a sketch.
pub fn read_sketch(asked: CommandWords) -> Result<Option<Command>, Fault>
    ensures { result ≡ sketch_reading asked.entry.name.now (words_of asked.entry.given.rest.now) }
{
    let given = asked.given;
    match asked.name {
        b"sketch" => fitting(given.only_field(b"words=").map(Command::MakeSketch)),
        b"open" => fitting(
            given
                .only_number()
                .map(|n| Command::Sketch(SketchCommand::Open(n))),
        ),
        b"count" => fitting(
            given
                .only_number()
                .map(|n| Command::Sketch(SketchCommand::Count(n))),
        ),
        b"estimate" => fitting(
            given
                .only_number()
                .map(|n| Command::Sketch(SketchCommand::Estimate(n))),
        ),
        _ => Ok(None),
    }
}
