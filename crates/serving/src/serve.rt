//! From making to making: what is at hand, and the lines that ask it.
use crate::desk::Desk;
use deque::Deque;
use deque::node::Node;
use refusals::Refusal;
use script::answer::{Answer, Item};
use script::command::{Command, Fault};
use service::{ask_queue, ask_sketch};
use sketch::FrequencySketch;
use std::io;
use std::io::{BufRead, Write};

/// What is made, and at hand until the next making.
#[derive(Clone, Copy)]
enum Making {
    /// A sketch over so many words.
    Sketch(usize),
    /// A queue over so many nodes.
    Queue(usize),
}

/// What a line asks of the part at hand.
enum Request {
    /// Something is made, and what was at hand is dropped.
    Made(Making),
    /// A command, of this part or another.
    Asked(Command),
}

/// What is at hand, and answers its commands.
trait Part {
    /// Answers a command; complains of one of a part that is not at hand.
    fn answer<R: BufRead, W: Write, E: Write>(
        &mut self,
        desk: &mut Desk<R, W, E>,
        command: Command,
    ) -> io::Result<()>;
}

/// Nothing is at hand.
#[derive(Drop)]
struct Nothing;

impl Part for Nothing {
    /// Complains of every command.
    fn answer<R: BufRead, W: Write, E: Write>(
        &mut self,
        desk: &mut Desk<R, W, E>,
        command: Command,
    ) -> io::Result<()> {
        desk.complain_of(command)
    }
}

impl Part for FrequencySketch<'_> {
    /// Answers what is asked of a sketch.
    fn answer<R: BufRead, W: Write, E: Write>(
        &mut self,
        desk: &mut Desk<R, W, E>,
        command: Command,
    ) -> io::Result<()> {
        match command {
            Command::Sketch(asked) => desk.say(ask_sketch(self, asked)),
            _ => desk.complain_of(command),
        }
    }
}

impl Part for Deque<'_, u64> {
    /// Answers what is asked of a queue.
    fn answer<R: BufRead, W: Write, E: Write>(
        &mut self,
        desk: &mut Desk<R, W, E>,
        command: Command,
    ) -> io::Result<()> {
        match command {
            Command::Queue(asked) => desk.say(ask_queue(self, asked)),
            Command::ListQueue => desk.list(self),
            _ => desk.complain_of(command),
        }
    }
}

impl<R: BufRead, W: Write, E: Write> Desk<R, W, E> {
    /// Answers lines with a part at hand, and says what is made then, if anything is; a queue is lent `most` nodes at most.
    fn serve<P: Part>(&mut self, most: usize, part: &mut P) -> io::Result<Option<Making>> {
        for _ in 0..u64::MAX {
            match self.next_request(most)? {
                None => break,
                Some(Request::Made(making)) => return Ok(Some(making)),
                Some(Request::Asked(command)) => part.answer(self, command)?,
            }
        }
        Ok(None)
    }

    /// The next request, unless the script is at its end. Makings are answered here; a queue is lent `most` nodes at most.
    fn next_request(&mut self, most: usize) -> io::Result<Option<Request>> {
        for _ in 0..u64::MAX {
            match self.next()? {
                None => break,
                Some(Command::MakeSketch(count)) => {
                    let making = self.make_sketch(count as usize)?;
                    return Ok(Some(Request::Made(making)));
                }
                Some(Command::MakeQueue(count)) if count <= most as u64 => {
                    self.say(Answer::Made)?;
                    return Ok(Some(Request::Made(Making::Queue(count as usize))));
                }
                Some(Command::MakeQueue(_)) => self.complain(Fault::TooLarge)?,
                Some(command) => return Ok(Some(Request::Asked(command))),
            }
        }
        Ok(None)
    }

    /// Answers the making of a sketch: one with no word where the number of words is refused.
    fn make_sketch(&mut self, count: usize) -> io::Result<Making> {
        if FrequencySketch::opens_over(count) {
            self.say(Answer::Made)?;
            Ok(Making::Sketch(count))
        } else {
            self.say(Answer::Refused(Refusal::SketchWords.number()))?;
            Ok(Making::Sketch(0))
        }
    }

    /// Complains of a command of a part that is not at hand.
    fn complain_of(&mut self, command: Command) -> io::Result<()> {
        self.complain(match command {
            Command::Sketch(_) | Command::MakeSketch(_) => Fault::NoSketch,
            Command::Queue(_) | Command::MakeQueue(_) | Command::ListQueue => Fault::NoQueue,
        })
    }

    /// Writes the linked nodes with their elements, front first.
    fn list(&mut self, queue: &Deque<u64>) -> io::Result<()> {
        self.begin_list()?;
        for (node, element) in queue.iter() {
            self.list_item(Item { node, element })?;
        }
        self.end_list()
    }
}

/// Answers every line of a script, over lent words and nodes.
pub fn run<R: BufRead, W: Write, E: Write>(
    desk: &mut Desk<R, W, E>,
    words: &mut [u64],
    nodes: &mut [Node<u64>],
) -> io::Result<()> {
    let most = nodes.len();
    let mut made = desk.serve(most, &mut Nothing)?;
    for _ in 0..u64::MAX {
        made = match made {
            None => break,
            Some(Making::Sketch(count)) => {
                let lent = words.len().min(count);
                desk.serve(most, &mut FrequencySketch::new(&mut words[0..lent]))?
            }
            Some(Making::Queue(count)) => {
                let lent = most.min(count);
                desk.serve(most, &mut Deque::new(&mut nodes[0..lent]))?
            }
        };
    }
    desk.finish()
}
