//! A guard and its watch: a thread drops the guard, and another polls the watch.

use crate::run::Scripts;
use crate::told::{
    BEGIN_RECEIVER, BEGIN_SENDER, DISCONNECTED, DROPPED, END_RECEIVER, END_SENDER, FUTURE, OPENED,
    PENDING, READY, RELEASE, TASKS, tell, tell_task,
};
use futures::task::Poll;
use futures::test::MockTask;
use oneshot_calls::{ReceiverCall, SenderCall, Task};
use oneshot_watch::{AsyncWatch, Guard, Watch, watch};
use std::alloc::{AllocError, AllocGlobal};
use std::random::RandomSource;
use std::sync::Wait;
use std::thread::{Threads, join};
use std::time::Clock;

/// Makes a guard and its watch, and runs both scripts, each in a thread. Of the sender's the guard has `drop`; of the
/// receiver's the watch has `future`, `poll1` and `drop`.
///
/// `Err`: out of memory.
pub fn run_watch<R: Threads + Wait + Clock + RandomSource + AllocGlobal + Sync>(
    rt: &R,
    scripts: &Scripts,
) -> Result<(), AllocError> {
    let (guard, watch) = watch(rt, rt.alloc())?;
    tell(rt, OPENED);
    let Ok(task) = MockTask::new(rt) else {
        return Err(AllocError);
    };
    tell(rt, RELEASE);
    tell(rt, READY);
    // A guard that its script keeps is dropped here, when no end runs any more.
    let mut left = None;
    join(
        rt,
        || left = guard_all(rt, &scripts.sends, guard),
        || watch_all(rt, &scripts.receives, Watching::new(watch), task),
    );
    drop(left);
    Ok(())
}

/// Makes the calls of the guard's script. Returns the guard, unless one drops it.
fn guard_all<R: Clock>(rt: &R, calls: &Vec<SenderCall>, guard: Guard) -> Option<Guard> {
    tell(rt, BEGIN_SENDER);
    let mut left = Some(guard);
    for call in calls.iter() {
        if let SenderCall::Drop = call {
            drop(left.take());
            tell(rt, DROPPED);
        }
    }
    tell(rt, END_SENDER);
    left
}

/// Makes the calls of the watch's script, and reports what each returned.
fn watch_all<R: Clock, Rt: Drop>(
    rt: &R,
    calls: &Vec<ReceiverCall>,
    mut watching: Watching<Rt>,
    task: MockTask,
) {
    tell(rt, BEGIN_RECEIVER);
    for call in calls.iter() {
        if let Some(code) = watching.make(&task, *call) {
            tell(rt, code);
        }
    }
    tell(rt, END_RECEIVER);
    tell_task(rt, TASKS, task.is_woken());
}

/// A watch, and then the future that it became.
#[derive(Drop)]
struct Watching<Rt> {
    watch: Option<Watch<Rt>>,
    future: Option<AsyncWatch<Rt>>,
}

impl<Rt: Drop> Watching<Rt> {
    fn new(watch: Watch<Rt>) -> Watching<Rt> {
        Watching {
            watch: Some(watch),
            future: None,
        }
    }

    /// Makes a call, and returns the code of what it returned. `None`: none was made.
    fn make(&mut self, task: &MockTask, call: ReceiverCall) -> Option<u64> {
        match call {
            ReceiverCall::Future => {
                let watch = self.watch.take()?;
                self.future = Some(watch.into_future());
                Some(FUTURE)
            }
            ReceiverCall::Poll(Task::One) => self.poll(task),
            ReceiverCall::Drop => {
                drop(self.watch.take());
                drop(self.future.take());
                Some(DROPPED)
            }
            _ => None,
        }
    }

    fn poll(&mut self, task: &MockTask) -> Option<u64> {
        let mut gone = self.future.take()?;
        let polled = task.poll(&mut gone);
        self.future = Some(gone);
        Some(match polled {
            Poll::Ready(()) => DISCONNECTED,
            Poll::Pending => PENDING,
        })
    }
}
