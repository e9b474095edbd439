//! The functions that make a channel.

ghost use Rattle.std.specs.Prelude.{◌≡◌, [], IfOk, None};
ghost use Rattle.oneshot_ends.specs.Ends.{IsOpen};

use crate::future::AsyncReceiver;
use crate::receiver::Receiver;
use crate::sender::Sender;
use crate::token::parker;
use crate::waker::ChannelWaker;
use oneshot_word::{Promise, discard, open};
use std::alloc::{AllocError, Global};

/// Makes a channel for one message, and returns its sender and its receiver.
///
/// `rt` is the runtime of the receives that block, which need `Rt: Wait + Clock`. The receiver keeps it.
/// Pass `()` for a receiver that never blocks. `alloc` is the allocator of the channel's memory; no later
/// call allocates.
///
/// `Err`: an allocation failed. Then nothing stays allocated, and `rt` is dropped.
pub fn channel<T: Send + Drop, Rt: Drop>(
    rt: Rt,
    alloc: Global,
) -> Result<(Sender<T>, Receiver<T, Rt>), AllocError>
    ensures one_channel { IfOk result (λ ends. ends.0.channel ≡ ends.1.channel) }
    ensures new_sender { IfOk result (λ ends. ends.0.log ≡ []) }
    ensures new_receiver { IfOk result (λ ends. ends.1.log ≡ []) }
    ensures none_taken { IfOk result (λ ends. ends.1.took ≡ None) }
    ensures open { IfOk result (λ ends. IsOpen ends.1.log) }
{
    // Does not call `channel_for`, which would copy both ends once more.
    let (sender, receiver) = open(alloc, &())?;
    let Ok((parking, waking)) = parker(alloc) else {
        discard(sender, receiver);
        return Err(AllocError);
    };
    Ok((
        Sender::new(sender),
        Receiver::new(receiver, parking, ChannelWaker::Thread(waking), rt),
    ))
}

/// Makes a channel with a promise: a relation `P` between each message and the value `about`. `Sender::send_kept`
/// requires it of its message, and each receive guarantees it of the message that it returns. The channel stores
/// nothing of `about`, and runs as one of `channel` does.
///
/// `rt`, `alloc` and `Err` are as in `channel`.
pub fn channel_for<T: Send + Drop, Rt: Drop, P: Promise<T>>(
    rt: Rt,
    alloc: Global,
    about: &P,
) -> Result<(Sender<T, P>, Receiver<T, Rt, P>), AllocError>
    ensures one_channel { IfOk result (λ ends. ends.0.channel ≡ ends.1.channel) }
    ensures new_sender { IfOk result (λ ends. ends.0.log ≡ []) }
    ensures new_receiver { IfOk result (λ ends. ends.1.log ≡ []) }
    ensures none_taken { IfOk result (λ ends. ends.1.took ≡ None) }
    ensures open { IfOk result (λ ends. IsOpen ends.1.log) }
    ensures sender_about { IfOk result (λ ends. ends.0.channel.about ≡ about.now) }
    ensures receiver_about { IfOk result (λ ends. ends.1.channel.about ≡ about.now) }
{
    let (sender, receiver) = open(alloc, about)?;
    let Ok((parking, waking)) = parker(alloc) else {
        discard(sender, receiver);
        return Err(AllocError);
    };
    Ok((
        Sender::new(sender),
        Receiver::new(receiver, parking, ChannelWaker::Thread(waking), rt),
    ))
}

/// Makes a channel whose receiver is a future: `channel` followed by `Receiver::into_future`.
///
/// The future keeps `rt`, but none of its calls uses it: pass `()`. `alloc` and `Err` are as in `channel`.
pub fn async_channel<T: Send + Drop, Rt: Drop>(
    rt: Rt,
    alloc: Global,
) -> Result<(Sender<T>, AsyncReceiver<T, Rt>), AllocError>
    ensures one_channel { IfOk result (λ ends. ends.0.channel ≡ ends.1.channel) }
    ensures new_sender { IfOk result (λ ends. ends.0.log ≡ []) }
    ensures new_receiver { IfOk result (λ ends. ends.1.log ≡ []) }
    ensures none_taken { IfOk result (λ ends. ends.1.took ≡ None) }
    ensures open { IfOk result (λ ends. IsOpen ends.1.log) }
{
    let (sender, receiver) = channel(rt, alloc)?;
    Ok((sender, receiver.into_future()))
}

/// Makes a channel with a promise about `about`, whose receiver is a future: `channel_for` followed by
/// `Receiver::into_future`. `rt`, `alloc` and `Err` are as in `async_channel`.
pub fn async_channel_for<T: Send + Drop, Rt: Drop, P: Promise<T>>(
    rt: Rt,
    alloc: Global,
    about: &P,
) -> Result<(Sender<T, P>, AsyncReceiver<T, Rt, P>), AllocError>
    ensures one_channel { IfOk result (λ ends. ends.0.channel ≡ ends.1.channel) }
    ensures new_sender { IfOk result (λ ends. ends.0.log ≡ []) }
    ensures new_receiver { IfOk result (λ ends. ends.1.log ≡ []) }
    ensures none_taken { IfOk result (λ ends. ends.1.took ≡ None) }
    ensures open { IfOk result (λ ends. IsOpen ends.1.log) }
    ensures sender_about { IfOk result (λ ends. ends.0.channel.about ≡ about.now) }
    ensures receiver_about { IfOk result (λ ends. ends.1.channel.about ≡ about.now) }
{
    let (sender, receiver) = channel_for(rt, alloc, about)?;
    Ok((sender, receiver.into_future()))
}
