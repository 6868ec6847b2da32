//! The hub: reads a script on standard input and answers it line for line on standard output.
#![tactic(auto)]

use deque::node::Node;
use serving::desk::Desk;
use serving::serve;
use std::io;
use std::io::{BufReader, BufWriter};

/// The most words that a sketch is lent.
const MOST_WORDS: usize = 8192;

/// The most nodes that a queue is lent.
const MOST_NODES: usize = 8192;

fn main(rt: HostRuntime) -> io::Result<()> {
    let heap = rt.alloc();
    let mut words = vec![in heap; 0u64; MOST_WORDS]?;
    let mut nodes = vec![in heap; Node::new(0u64); MOST_NODES]?;
    let input = BufReader::new(heap, rt.stdin())?;
    let output = BufWriter::new(heap, rt.stdout())?;
    let notes = BufWriter::new(heap, rt.stderr())?;
    let mut desk = Desk::new(heap, input, output, notes);
    serve::run(&mut desk, words.as_mut_slice(), nodes.as_mut_slice())
}
