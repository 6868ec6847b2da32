//! What a sketch is asked by a script.
ghost use Rattle.std.specs.Prelude.{◌≡◌};
ghost use Rattle.sketch.specs.Meaning.{meaning, lent};
ghost use Rattle.service.specs.SketchService.{sketch_answer, sketch_after};

use script::answer::Answer;
use script::command::SketchCommand;
use sketch::{FrequencySketch, Increment};

/// Asks a sketch.
// A command is read off a line, so it is data: a closure for each would have to be made and handed out by the reader.
pub fn ask_sketch(sketch: &mut FrequencySketch, command: SketchCommand) -> Answer
    ensures answer { result ≡ sketch_answer (lent sketch.old) (meaning sketch.old) command }
    ensures memory { meaning sketch.new ≡ sketch_after (lent sketch.old) (meaning sketch.old) command }
{
    match command {
        SketchCommand::Open(cap) => {
            sketch.ensure_capacity(cap);
            Answer::Opened(sketch.table_len(), sketch.sample_size())
        }
        SketchCommand::Count(hash) => {
            let came_to = sketch.increment(hash);
            let size = sketch.size();
            match came_to {
                Increment::Closed => Answer::Closed,
                Increment::Full => Answer::Full(size),
                Increment::Counted => Answer::Counted(size),
                Increment::Halved => Answer::Halved(size),
            }
        }
        SketchCommand::Estimate(hash) => Answer::Estimate(sketch.frequency(hash)),
    }
}
