//! Sends a number from one thread to a future that another thread blocks on.
#![tactic(auto)]

use futures::executor::block_on;
use oneshot_channel::async_channel;
use std::io;
use std::thread::join;

fn main(rt: HostRuntime) -> io::Result<()> {
    let (sender, receiver) = async_channel((), rt.alloc())?;
    let (received, _) = join(&rt, || block_on(&rt, receiver), || sender.send(19));
    match received? {
        Ok(number) => println!(rt; "received {number}"),
        Err(error) => println!(rt; "{error}"),
    }
}
