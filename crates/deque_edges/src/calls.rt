//! What a desk does.
ghost use Rattle.std.specs.Prelude.{◌≡◌, ℕ, ◌<◌, length, nat_le, if◌then◌else◌, Some, slice_set};
ghost use Rattle.std.specs.List.{list_any};
ghost use Rattle.deque.specs.Meaning.{items, lent, pushed, front, rest};
ghost use Rattle.deque_edges.specs.Waiting.{line_of, can_come, called};

use crate::Desk;
use deque::Deque;
use deque::node::Node;

/// A desk over a line that was made elsewhere, with whoever waits in it.
pub fn open<'b, 'q, 'n>(names: &'b mut [u64], line: &'q mut Deque<'n, u32>) -> Desk<'b, 'q, 'n>
    ensures line { line_of result ≡ items line.old }
    ensures room { lent result.line.now ≡ lent line.old }
    ensures names { result.names.now ≡ names.old }
{
    let waiting = line.len();
    Desk {
        names,
        line,
        waiting,
    }
}

impl<'b, 'q, 'n> Desk<'b, 'q, 'n> {
    /// Number i, called by this name, joins the line.
    pub fn come(&mut self, i: usize, name: u64, at: u32) -> bool
        ensures answer { result ≡ can_come self.old i }
        ensures line { line_of self.new ≡ (if result then pushed (line_of self.old) i at else line_of self.old) }
        ensures names { self.new.names.now ≡ (if result then slice_set self.old.names.now i name else self.old.names.now) }
    {
        if i >= self.names.len() {
            return false;
        }
        let line = &mut *self.line;
        let joined = line.push_back(i, at).is_ok();
        self.waiting = line.len();
        if joined {
            self.names[i] = name;
        }
        joined
    }

    /// Takes the front of the line out, and says its name.
    pub fn call(&mut self) -> Option<u64>
        ensures answer { result ≡ called self.old.names.now (front (line_of self.old)) }
        ensures line { line_of self.new ≡ rest (line_of self.old) }
        ensures names { self.new.names.now ≡ self.old.names.now }
    {
        let line = &mut *self.line;
        let first = line.pop_front();
        self.waiting = line.len();
        let (i, _) = first?;
        let names = &mut *self.names;
        names.get(i).copied()
    }

    /// Whether anyone who waits came at this time or later.
    pub fn has_since(&self, at: u32) -> bool
        ensures { result ≡ list_any (λ p. nat_le at p.1) (line_of self.now) }
    {
        self.line.iter().any(|(_, came)| came >= at)
    }

    /// How many wait.
    pub fn waiting(&self) -> usize
        ensures { result ≡ length (line_of self.now) }
    {
        self.waiting
    }
}

/// Makes a line over the lent nodes and a desk over the line, and serves one who comes as number 0.
pub fn serve_one(names: &mut [u64], nodes: &mut [Node<u32>], name: u64) -> Option<u64>
    ensures { 0 < length names.old → 0 < length nodes.old → result ≡ Some name }
{
    let mut line = Deque::new(nodes);
    let mut desk = open(names, &mut line);
    let _ = desk.come(0, name, 0);
    desk.call()
}
