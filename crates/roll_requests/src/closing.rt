//! The last requests of a session of a game elsewhere.
ghost use Rattle.std.specs.Prelude.{◌≡◌, ◌==◌, drop, length};

use crate::queue::Queue;
use crate::request::Request;
use std::marker::Model;

/// The last requests of a session of a game elsewhere that has ended: carry them out, in their order, before those of the session that
/// goes on from there.
#[derive(Drop)]
pub struct Closing {
    queue: Queue,
}

impl Model for Closing {
    ghost use Rattle.std.specs.Prelude.{List};
    ghost use Rattle.roll_requests.specs.declared.request.Request.{Request};

    ghost Value = { List Request };

    ghost view = { λ c. c.queue.requests };
}

impl Closing {
    /// All that wait in a queue.
    pub(crate) fn of(queue: Queue) -> Closing
        ensures { result ≡ queue.requests }
    {
        Closing { queue }
    }

    /// The requests that are still to be handed out, in their order.
    pub fn requests(&self) -> &[Request]
        ensures { result.now ≡ self.now }
    {
        self.queue.requests()
    }

    /// The next requests are handed out, so many of them, or all if there are fewer.
    pub fn hand_out(&mut self, count: usize)
        ensures { self.new ≡ drop count self.old }
    {
        self.queue.hand_out(count);
    }

    /// Whether all requests were handed out.
    pub fn is_done(&self) -> bool
        ensures { result ≡ (length self.now == 0) }
    {
        self.queue.is_done()
    }
}
