//! Runs a script of each end of a channel, each in a thread, and reports by short sleeps where it is and what each
//! call returned. The arguments are the kind of the channel, `S` and the sender's words, `R` and the receiver's. Others
//! are refused.
#![tactic(auto)]

mod asked;
mod brought;
mod parcel;
mod promised;
mod receives;
mod run;
mod sends;
mod told;
mod two;
mod watched;

use asked::Asked;
use run::run;
use std::io;
use std::process::ExitCode;

fn main(rt: HostRuntime) -> io::Result<ExitCode> {
    let Some(Asked { kind, scripts, .. }) = Asked::read(&rt)? else {
        return Ok(ExitCode::FAILURE);
    };
    run(&rt, kind, scripts)?;
    Ok(ExitCode::SUCCESS)
}
