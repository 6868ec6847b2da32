//! What a line asks for.
ghost use Rattle.std.specs.Prelude.{◌≡◌};
ghost use Rattle.script.specs.Readings.{fitting};

/// What is asked of a sketch.
#[derive(Clone, Copy)]
pub enum SketchCommand {
    /// Open it for so many hashes.
    Open(u64),
    /// Count a hash once more.
    Count(u64),
    /// Say how often a hash was seen.
    Estimate(u64),
}

/// What is asked of a queue.
#[derive(Clone, Copy)]
pub enum QueueCommand {
    /// Link a node with an element behind all others.
    Push(u64, u64),
    /// Take the front out.
    Pop,
    /// Say what stands at the front.
    Front,
    /// Move a node behind all others.
    Back(u64),
    /// Take a node out.
    Unlink(u64),
    /// Say which node stands behind a node.
    Next(u64),
    /// Say whether a node is linked.
    Member(u64),
}

/// What a line asks for.
#[derive(Clone, Copy)]
pub enum Command {
    /// Make a sketch over so many words.
    MakeSketch(u64),
    /// Ask the sketch.
    Sketch(SketchCommand),
    /// Make a queue over so many nodes.
    MakeQueue(u64),
    /// Ask the queue.
    Queue(QueueCommand),
    /// Say all nodes that the queue has linked with their elements, front first.
    ListQueue,
}

/// Why a line is answered `error`.
#[derive(Clone, Copy, Debug, PartialEq, Eq)]
pub enum Fault {
    /// Its first word is no command.
    UnknownCommand,
    /// The words behind the command are not those that it takes.
    WrongWords,
    /// It asks a sketch, and none was made last.
    NoSketch,
    /// It asks a queue, and none was made last.
    NoQueue,
    /// It asks for more memory than the hub has to lend.
    TooLarge,
}

/// What was read off the words behind a command, which are the wrong ones where that is nothing.
pub(crate) fn fitting(read: Option<Command>) -> Result<Option<Command>, Fault>
    ensures { result ≡ fitting read }
{
    read.map(Some).ok_or(Fault::WrongWords)
}
