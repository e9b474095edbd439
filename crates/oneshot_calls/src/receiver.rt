//! Makes the calls of a real receiver, and of the future that it becomes.

ghost use Rattle.futures.specs.Task.{Keeps};

use crate::future::{Tasks, call_future};
use crate::receives::Receives;
use crate::reply::{Bare, Reply};
use crate::words::ReceiverCall;
use futures::Future;
use futures::task::Context;
use oneshot_channel::{AsyncReceiver, Promise, Receiver};
use std::random::RandomSource;
use std::sync::Wait;
use std::time::Clock;

/// A receiver, or the future that it became.
#[derive(Drop)]
pub struct Receiving<T, E: Receives<T>> {
    receiver: Option<E>,
    future: Option<AsyncReceiver<T, E::Rt, E::About>>,
}

impl<T: Drop, W: Wait + Clock + Drop, P: Promise<T>> Receiving<T, Receiver<T, W, P>> {
    /// A future.
    pub fn of_future(future: AsyncReceiver<T, W, P>) -> Receiving<T, Receiver<T, W, P>> {
        Receiving {
            receiver: None,
            future: Some(future),
        }
    }
}

impl<T: Drop, E: Receives<T>> Receiving<T, E> {
    /// A receiver that is no future yet.
    pub fn new(receiver: E) -> Receiving<T, E> {
        Receiving {
            receiver: Some(receiver),
            future: None,
        }
    }

    /// Whether the receiver is there, and is no future.
    pub fn has_receiver(&self) -> bool {
        self.receiver.is_some()
    }

    /// Makes the calls in their order, as `make` does. Returns the reply of the last call that was made, and drops what
    /// is left.
    pub fn make_all<R: Wait + Clock + RandomSource + AllocGlobal>(
        mut self,
        rt: &R,
        tasks: Option<&Tasks>,
        calls: &[ReceiverCall],
    ) -> Reply<T> {
        let mut last = Reply::Bare(Bare::Nothing);
        for call in calls {
            last = last.then(self.make(rt, tasks, *call));
        }
        last
    }

    /// Makes a call, and returns its reply. `rt` is the runtime of `block_on`, and its clock that of deadlines; one of
    /// `tasks` makes a poll, if they are there.
    pub fn make<R: Wait + Clock + RandomSource + AllocGlobal>(
        &mut self,
        rt: &R,
        tasks: Option<&Tasks>,
        call: ReceiverCall,
    ) -> Reply<T> {
        match self.receiver.take() {
            Some(receiver) => self.call_receiver(rt, receiver, call),
            None => call_future(rt, tasks, &mut self.future, call),
        }
    }

    /// Polls the future for the task of `cx`, if it is there.
    pub fn poll_in(&mut self, cx: &mut Context<'_>) -> Reply<T>
        ensures { Keeps cx.old cx.new }
    {
        let Some(mut future) = self.future.take() else {
            return Reply::Bare(Bare::Nothing);
        };
        let polled = future.poll(cx);
        self.future = Some(future);
        Reply::polled(polled)
    }

    fn call_receiver<R: Clock>(&mut self, rt: &R, mut receiver: E, call: ReceiverCall) -> Reply<T> {
        match call {
            ReceiverCall::Ask(call) => {
                let reply = receiver.ask(rt, call);
                self.receiver = Some(receiver);
                reply
            }
            ReceiverCall::Recv => receiver.received(),
            ReceiverCall::Drop => {
                drop(receiver);
                Reply::Bare(Bare::Dropped)
            }
            ReceiverCall::DropRaw => {
                receiver.drop_raw();
                Reply::Bare(Bare::Dropped)
            }
            ReceiverCall::Raw => {
                self.receiver = Some(receiver.there_and_back());
                Reply::Bare(Bare::Raw)
            }
            ReceiverCall::Future => {
                self.future = Some(receiver.into_future());
                Reply::Bare(Bare::Future)
            }
            ReceiverCall::Poll(_) | ReceiverCall::Polls | ReceiverCall::Await => {
                self.receiver = Some(receiver);
                Reply::Bare(Bare::Nothing)
            }
        }
    }
}
