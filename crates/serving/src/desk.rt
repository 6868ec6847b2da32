//! Where lines come from, and where answers and complaints go.
use script::answer::{Answer, Item};
use script::command::{Command, Fault};
use script::lines;
use std::alloc::Global;
use std::io;
use std::io::{BufRead, Write};

/// The script, its answers, and what is said of lines that are answered `error`.
#[derive(Drop)]
pub struct Desk<R, W, E> {
    input: R,
    output: W,
    notes: E,
    line: Vec<u8>,
    number: u64,
}

impl<R: BufRead, W: Write, E: Write> Desk<R, W, E> {
    pub fn new(heap: Global, input: R, output: W, notes: E) -> Desk<R, W, E> {
        Desk {
            input,
            output,
            notes,
            line: Vec::new(heap),
            number: 0,
        }
    }

    /// The next command, or none at the end of the script. Comments are passed over, and lines that are not well
    /// formed are answered.
    pub fn next(&mut self) -> io::Result<Option<Command>> {
        for _ in 0..u64::MAX {
            self.line.clear();
            if self.input.read_until(b'\n', &mut self.line)? == 0 {
                return Ok(None);
            }
            self.number = self.number.saturating_add(1);
            match lines::read(self.line.as_slice()) {
                Ok(None) => {}
                Ok(command) => return Ok(command),
                Err(why) => self.complain(why)?,
            }
        }
        Ok(None)
    }

    /// Writes an answer line.
    pub fn say(&mut self, answer: Answer) -> io::Result<()> {
        writeln!(self.output, "{answer}")
    }

    /// Answers `error`, and notes the line and the reason.
    pub fn complain(&mut self, why: Fault) -> io::Result<()> {
        writeln!(self.notes, "line {}: {why}", self.number)?;
        self.say(Answer::Error)
    }

    /// Begins the answer that lists a queue.
    pub fn begin_list(&mut self) -> io::Result<()> {
        write!(self.output, "list")
    }

    /// One more of the list.
    pub fn list_item(&mut self, item: Item) -> io::Result<()> {
        write!(self.output, "{item}")
    }

    /// Ends the list's line.
    pub fn end_list(&mut self) -> io::Result<()> {
        writeln!(self.output, "")
    }

    /// Writes out what was held back.
    pub fn finish(&mut self) -> io::Result<()> {
        self.notes.flush()?;
        self.output.flush()
    }
}

impl<R: BufRead + Drop, W: Write, E: Write + Drop> Desk<R, W, E> {
    /// What the answers were written to.
    pub fn into_output(self) -> W {
        self.output
    }
}
