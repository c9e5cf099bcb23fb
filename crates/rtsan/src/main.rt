//! The program `rtsan`: the words of its command line, over the files of the system and standard output.
#![tactic(auto)]

use rt_base::{HostFiles, HostSink};
use rtsan_core::{Gate, Status, out_of_memory, serve};
use std::alloc::AllocError;
use std::env::Args;
use std::process::ExitCode;
use std::rt::Files;
use std::sync::Wait;
use std::thread::Threads;
use std::{env, io};

/// The gate of the program, which does nothing.
struct EmptyGate;

impl Gate for EmptyGate {
    fn before_slice(&self, _thread: u32) {}
}

fn main(rt: HostRuntime) -> ExitCode {
    let mut out = HostSink::new(rt);
    let status = match env::args(&rt) {
        Ok(arguments) => match serve_arguments(rt, arguments, &mut out) {
            Ok(status) => status,
            Err(AllocError) => out_of_memory(&mut out).status,
        },
        Err(error) if error.kind() == io::ErrorKind::OutOfMemory => out_of_memory(&mut out).status,
        // words that are no text are no command
        Err(_) => serve(
            rt,
            rt.alloc(),
            &[],
            &mut HostFiles::new(rt),
            &mut out,
            &EmptyGate,
        )
        .status,
    };
    ExitCode::from(status.number())
}

/// Serves the words after the program's name.
fn serve_arguments<R: Threads + Wait + Files + Print + AllocGlobal + Copy + Drop + Send + Sync>(
    rt: R,
    arguments: Args,
    out: &mut HostSink<R>,
) -> Result<Status, AllocError> {
    let mut texts = Vec::new(rt.alloc());
    for text in arguments {
        texts.push(text)?;
    }
    let mut words = Vec::new(rt.alloc());
    for text in texts.iter().skip(1) {
        words.push(text.as_str())?;
    }
    let mut files = HostFiles::new(rt);
    Ok(
        serve(
            rt,
            rt.alloc(),
            words.as_slice(),
            &mut files,
            out,
            &EmptyGate,
        )
        .status,
    )
}
