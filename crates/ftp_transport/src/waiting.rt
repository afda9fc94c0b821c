//! What a task learns after a poll that waits.

ghost use Rattle.std.specs.Prelude.{◌≡◌};
ghost use Rattle.futures.specs.Task.{IsArmed, Keeps};
ghost use Rattle.futures.specs.declared.task.Poll.TheVariants as poll;
ghost use Rattle.ftp_transport.specs.Waits.{first_over};

use futures::task::{Context, Poll};

/// Whether a task is registered for what a poll waits for.
#[derive(Clone, Copy, Debug, PartialEq, Eq)]
pub enum Waiting {
    /// Nothing is waited for here.
    Nothing,
    /// The task is registered: it is polled again once what is waited for has come.
    Registered,
    /// What was waited for has come: the poll is worth another try.
    Over,
}

impl Waiting {
    /// What a task learns that waits in two places: that the wait is over, where it is in either; else that it is
    /// registered, where it is in either.
    pub fn or(self, other: Waiting) -> Waiting
        ensures { result ≡ first_over self other }
    {
        match (self, other) {
            (Waiting::Over, _) | (_, Waiting::Over) => Waiting::Over,
            (Waiting::Registered, _) | (_, Waiting::Registered) => Waiting::Registered,
            (Waiting::Nothing, Waiting::Nothing) => Waiting::Nothing,
        }
    }

    /// Waits: a task that isn't registered is polled again at once, since what it waits for has come meanwhile, or nothing
    /// can tell when it comes.
    pub fn wait<T>(self, cx: &mut Context<'_>) -> Poll<T>
        requires { self ≡ Waiting.Registered → IsArmed cx.old }
        ensures pending { result ≡ poll.Pending }
        ensures registered { IsArmed cx.new }
        ensures kept { Keeps cx.old cx.new }
    {
        match self {
            Waiting::Registered => Poll::Pending,
            Waiting::Nothing | Waiting::Over => cx.yield_now(),
        }
    }
}
