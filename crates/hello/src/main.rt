//! Sends a number from one thread to another.
#![tactic(auto)]

use oneshot_channel::channel;
use std::io;
use std::thread::join;

fn main(rt: HostRuntime) -> io::Result<()> {
    let (sender, receiver) = channel(&rt, rt.alloc())?;
    let (received, _) = join(&rt, || receiver.recv(), || sender.send(19));
    match received {
        Ok(number) => println!(rt; "received {number}"),
        Err(error) => println!(rt; "{error}"),
    }
}
