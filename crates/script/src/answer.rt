//! What a line is answered.
ghost use Rattle.std.specs.Prelude.{Some};
ghost use Rattle.script.specs.Texts.{text, reason, item_text};

use crate::command::Fault;
use std::fmt;

/// What a line is answered.
#[derive(Clone, Copy)]
pub enum Answer {
    /// The line is not well formed, or asks for what was not made.
    Error,
    /// What was asked for is made.
    Made,
    // A number and no `Refusal`, which has nine: whoever answers may tell any.
    /// The call was refused, with this number.
    Refused(u8),
    /// The sketch has so many words, and a sample of so many.
    Opened(usize, u64),
    /// The sketch has no words.
    Closed,
    /// A counter rose; so many of the sample are counted.
    Counted(u64),
    /// A counter rose and the sketch was halved; so many of the sample are left.
    Halved(u64),
    /// No counter rose; so many of the sample are counted.
    Full(u64),
    /// A hash was seen so often.
    Estimate(u8),
    /// The node is linked behind all others.
    Pushed,
    /// This node was the front, with this element, and is out.
    Popped(usize, u64),
    /// This node is the front, with this element.
    Front(usize, u64),
    /// No node is linked.
    Empty,
    /// The node stands behind all others.
    Moved,
    /// The node is out.
    Unlinked,
    /// This node stands behind the one asked for.
    Next(usize),
    /// No node stands behind the one asked for.
    Last,
    /// It is so.
    Yes,
    /// It is not so.
    No,
}

impl fmt::Display for Answer {
    ghost output = { λ a. Some (text a) };

    fn fmt<W: fmt::Write>(&self, f: &mut fmt::Formatter<W>) -> fmt::Result {
        match *self {
            Answer::Error => f.write_str("error"),
            Answer::Made => f.write_str("made"),
            Answer::Refused(number) => write!(f, "refused {number}"),
            Answer::Opened(words, sample) => write!(f, "opened {words} {sample}"),
            Answer::Closed => f.write_str("closed"),
            Answer::Counted(size) => write!(f, "counted {size}"),
            Answer::Halved(size) => write!(f, "halved {size}"),
            Answer::Full(size) => write!(f, "full {size}"),
            Answer::Estimate(least) => write!(f, "estimate {least}"),
            Answer::Pushed => f.write_str("pushed"),
            Answer::Popped(node, x) => write!(f, "popped {node} {x}"),
            Answer::Front(node, x) => write!(f, "front {node} {x}"),
            Answer::Empty => f.write_str("empty"),
            Answer::Moved => f.write_str("moved"),
            Answer::Unlinked => f.write_str("unlinked"),
            Answer::Next(node) => write!(f, "next {node}"),
            Answer::Last => f.write_str("last"),
            Answer::Yes => f.write_str("yes"),
            Answer::No => f.write_str("no"),
        }
    }
}

impl fmt::Display for Fault {
    ghost output = { λ w. Some (reason w) };

    fn fmt<W: fmt::Write>(&self, f: &mut fmt::Formatter<W>) -> fmt::Result {
        match *self {
            Fault::UnknownCommand => f.write_str("no such command"),
            Fault::WrongWords => f.write_str("wrong words for this command"),
            Fault::NoSketch => f.write_str("no sketch was made last"),
            Fault::NoQueue => f.write_str("no queue was made last"),
            Fault::TooLarge => f.write_str("more memory than there is to lend"),
        }
    }
}

/// One of the linked nodes in a list, with its element.
#[derive(Clone, Copy)]
pub struct Item {
    pub node: usize,
    pub element: u64,
}

impl fmt::Display for Item {
    ghost output = { λ i. Some (item_text i) };

    fn fmt<W: fmt::Write>(&self, f: &mut fmt::Formatter<W>) -> fmt::Result {
        write!(f, " {}:{}", self.node, self.element)
    }
}
