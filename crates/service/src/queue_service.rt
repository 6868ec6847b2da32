//! What a queue is asked by a script.
ghost use Rattle.std.specs.Prelude.{◌≡◌};
ghost use Rattle.deque.specs.Meaning.{items, lent};
ghost use Rattle.service.specs.QueueService.{queue_answer, queue_after, told};

use deque::Deque;
use refusals::Refusal;
use script::answer::Answer;
use script::command::QueueCommand;

/// Asks a queue.
pub fn ask_queue(queue: &mut Deque<u64>, command: QueueCommand) -> Answer
    ensures answer { result ≡ queue_answer (lent queue.old) (items queue.old) command }
    ensures order { items queue.new ≡ queue_after (lent queue.old) (items queue.old) command }
{
    asked(queue, command).unwrap_or_else(|why| Answer::Refused(why.number()))
}

/// What a queue answers, unless it refuses.
// A command is read off a line, so it is data: a closure for each would have to be made and handed out by the reader.
fn asked(queue: &mut Deque<u64>, command: QueueCommand) -> Result<Answer, Refusal>
    ensures answer { told result ≡ queue_answer (lent queue.old) (items queue.old) command }
    ensures order { items queue.new ≡ queue_after (lent queue.old) (items queue.old) command }
{
    Ok(match command {
        QueueCommand::Push(i, x) => {
            queue.push_back(i as usize, x)?;
            Answer::Pushed
        }
        QueueCommand::Pop => queue
            .pop_front()
            .map_or(Answer::Empty, |(node, x)| Answer::Popped(node, x)),
        QueueCommand::Front => queue
            .peek_front()
            .map_or(Answer::Empty, |(node, x)| Answer::Front(node, x)),
        QueueCommand::Back(i) => {
            queue.move_to_back(i as usize)?;
            Answer::Moved
        }
        QueueCommand::Unlink(i) => {
            queue.unlink(i as usize)?;
            Answer::Unlinked
        }
        QueueCommand::Next(i) => queue.next(i as usize)?.map_or(Answer::Last, Answer::Next),
        QueueCommand::Member(i) => if queue.contains(i as usize) {
            Answer::Yes
        } else {
            Answer::No
        },
    })
}
