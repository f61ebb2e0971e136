// Messages that go out: each is written to the log, counted for the site that it names, and waits
// last, until it is handed over. The functions are internal: the deliveries of crates
// `tracker_delivery` and `single_delivery`, and the parts of the batch call, call them, and what
// they require follows from what these require.

#![tactic(auto)]

ghost use Rattle.std.specs.Prelude.{◌≡◌, ◌+◌, ◌*◌, ◌≤◌, length};
ghost use Rattle.model.specs.Messages.{message_width};
ghost use Rattle.tracker_queue.specs.Log.{put_record};
ghost use Rattle.tracker_queue.specs.Sending.{nothing_waits, joined, without_head, SendAsks, SendSays, AnswerSays, SendTwoAsks, SendTwoSays};

use messages::no_message;
use model::{MESSAGE_WIDTH, Message, SITE_RECORDS};

// The messages that wait to be handed over, or are to go out: two at most, since an arrival sends
// two at most, and every hand-over is answered by one at most. An absent one is all zeros.
#[derive(Clone, Copy)]
pub struct Queue {
    pub count: u32,
    pub first: Message,
    pub second: Message,
}

// The messages of a delivery under way: how many stand in the log, and those that wait.
#[derive(Clone, Copy)]
pub struct Traffic {
    pub written: u64,
    pub waiting: Queue,
}

// No message waits.
pub fn empty_queue() -> Queue
    ensures { result ≡ nothing_waits }
{
    Queue {
        count: 0,
        first: no_message(),
        second: no_message(),
    }
}

// A message waits last.
pub fn join(queue: Queue, message: Message) -> Queue
    ensures { result ≡ joined queue message }
{
    if queue.count == 0 {
        return Queue {
            count: 1,
            first: message,
            ..empty_queue()
        };
    }
    Queue {
        count: 2,
        second: message,
        ..queue
    }
}

// The messages that wait without their head.
pub fn take_head(queue: Queue) -> Queue
    ensures { result ≡ without_head queue }
{
    if queue.count == 2 {
        return Queue {
            count: 1,
            first: queue.second,
            ..empty_queue()
        };
    }
    empty_queue()
}

// A record of the log.
fn write_record(log: &mut [u64], place: u64, message: Message)
    requires { message_width * place + message_width ≤ length log.old }
    ensures { log.new ≡ put_record log.old place message }
{
    let at = MESSAGE_WIDTH * (place as usize);
    log[at] = message.kind as u64;
    log[at + 1] = message.site as u64;
    log[at + 2] = message.a;
    log[at + 3] = message.b;
}

// A message goes out: it is written to the log, counted for the site that it names, and waits last.
// No other place writes a record of the log, or counts one.
fn send(
    traffic: Traffic,
    message: Message,
    counts: &mut [u64; SITE_RECORDS],
    log: &mut [u64],
) -> Traffic
    requires { SendAsks traffic message counts.old log.old }
    ensures { SendSays traffic message counts.old log.old result
        counts.new log.new }
{
    write_record(log, traffic.written, message);
    counts[message.site as usize] += 1;
    Traffic {
        written: traffic.written + 1,
        waiting: join(traffic.waiting, message),
    }
}

// The answer of a step goes out, if it has one. Internal: the log has room by the test for 14.
pub fn send_answer(
    traffic: Traffic,
    count: u32,
    message: Message,
    counts: &mut [u64; SITE_RECORDS],
    log: &mut [u64],
) -> Traffic
    requires { (count ≡ 0 → ⊥) → SendAsks traffic message counts.old log.old }
    ensures { AnswerSays count traffic message counts.old log.old result
        counts.new log.new }
{
    if count == 0 {
        return traffic;
    }
    send(traffic, message, counts, log)
}

// The messages of an arrival go out, of which there are `count`. Internal, as `send_answer`.
pub fn send_two(
    traffic: Traffic,
    count: u32,
    first: Message,
    second: Message,
    counts: &mut [u64; SITE_RECORDS],
    log: &mut [u64],
) -> Traffic
    requires { SendTwoAsks count traffic first second counts.old log.old }
    ensures { SendTwoSays count traffic first second counts.old log.old result
        counts.new log.new }
{
    let next = send_answer(traffic, count, first, counts, log);
    if count == 2 {
        return send(next, second, counts, log);
    }
    next
}
