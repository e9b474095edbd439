//! A message that a task awaits with a deadline, as a thread does by `recv_timeout`.

ghost use Rattle.std.specs.Prelude.{◌≡◌, ◌⊎◌, IfOk};
ghost use Rattle.tokio.specs.Timers.{sleep_source, sleep_deadline, timeout_future, timeout_delay, IsDelayedBy};

use futures::Future;
use futures::task::{Context, Poll};
use oneshot_channel::{AsyncReceiver, Promise, RecvTimeoutError};
use std::io;
use std::time::{Clock, Duration};
use tokio::time::{Handle, Timeout};

/// A message, or `Timeout` if it did not come before the deadline, or `Disconnected` if none will come.
///
/// Any executor may poll it while the driver of its timer runs.
#[derive(Drop)]
pub struct Within<T, Rt, P: Promise<T>> {
    receiver: Timeout<AsyncReceiver<T, Rt, P>>,
}

/// Awaits the message of `receiver`, for at most `limit`.
///
/// `clock` shows the time, and `time` makes the timer. `Err`: out of memory, or no clock.
pub fn recv_within<T: Drop, Rt: Drop, P: Promise<T>>(
    clock: &impl Clock,
    time: &Handle,
    limit: Duration,
    receiver: AsyncReceiver<T, Rt, P>,
) -> io::Result<Within<T, Rt, P>>
    ensures own { IfOk result (λ within. timeout_future within.receiver ≡ receiver) }
    ensures deadline { IfOk result (λ within. IsDelayedBy limit (sleep_deadline (timeout_delay within.receiver))) }
{
    let receiver = time.timeout(clock, limit, receiver)?;
    Ok(Within { receiver })
}

impl<T: Drop, Rt: Drop, P: Promise<T>> Future for Within<T, Rt, P> {
    type Output = Result<T, RecvTimeoutError>;

    ghost needs = { λ within s. (s ≡ (timeout_future within.receiver).source)
        ⊎ (s ≡ sleep_source (timeout_delay within.receiver)) };

    // The message keeps the promise.
    ghost gives = { λ within answer. IfOk answer (P.keeps (timeout_future within.receiver).channel.about) };

    fn poll(&mut self, cx: &mut Context<'_>) -> Poll<Result<T, RecvTimeoutError>> {
        match self.receiver.poll(cx) {
            Poll::Pending => Poll::Pending,
            Poll::Ready(Ok(Ok(message))) => Poll::Ready(Ok(message)),
            Poll::Ready(Ok(Err(_))) => Poll::Ready(Err(RecvTimeoutError::Disconnected)),
            Poll::Ready(Err(_)) => Poll::Ready(Err(RecvTimeoutError::Timeout)),
        }
    }
}
