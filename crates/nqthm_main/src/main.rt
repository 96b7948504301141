//! The program: the top call over the real words and streams.
#![tactic(auto)]

use nq_io::{ReadSource, WriteSink};
use nqthm::nqthm;
use std::alloc::AllocError;
use std::env;
use std::io::ErrorKind;
use std::process::ExitCode;

/// The status where memory is wanting.
const NO_MEMORY: u8 = 6;

fn main(rt: HostRuntime) -> ExitCode {
    let alloc = rt.alloc();
    let mut source = ReadSource::new(rt.stdin());
    let mut out = WriteSink::new(rt.stdout());
    let mut side = WriteSink::new(rt.stderr());
    match words_of(&rt) {
        Ok(words) => ExitCode::from(nqthm(alloc, words, &mut source, &mut out, &mut side)),
        Err(_) => ExitCode::from(NO_MEMORY),
    }
}

/// The words of the command line. Where one of them is no text there are none, which are the words
/// of no command.
fn words_of(rt: &HostRuntime) -> Result<Vec<String>, AllocError> {
    match env::args(rt) {
        Ok(words) => words.collect(rt.alloc()),
        Err(error) if error.kind() == ErrorKind::OutOfMemory => Err(AllocError),
        Err(_) => Ok(Vec::new(rt.alloc())),
    }
}

#[cfg(test)]
mod tests;
