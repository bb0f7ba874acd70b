//! The count office of a cantonal parliament: `main`, over the files of the operating system.
#![tactic(auto)]

mod status;
mod unknown;

use status::{run, status_of};
use std::process::ExitCode;
use std::{env, io};
use unknown::UnknownContent;
use zh_file::{FolderFiles, HostFolder, Remark, World};

/// Passes the operating system's arguments, streams and files to `run` and returns the status.
fn main(rt: HostRuntime) -> ExitCode {
    status_of(run(
        rt.alloc(),
        arguments(&rt),
        UnknownContent,
        &mut World {
            input: rt.stdin(),
            output: rt.stdout(),
            faults: rt.stderr(),
            remark: Remark::Whole,
            files: FolderFiles::new(HostFolder::<UnknownContent>::new(&rt)),
        },
    ))
}

/// The arguments, starting with the program's name.
fn arguments(rt: &HostRuntime) -> io::Result<Vec<String>> {
    Ok(env::args(rt)?.collect(rt.alloc())?)
}
