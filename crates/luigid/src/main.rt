//! The scheduler daemon.
#![tactic(auto)]

pub mod audit;
pub mod call;
pub mod connection;
pub mod daemon;
pub mod exit;
pub mod handle;
pub mod hearing;
pub mod lane;
pub mod laws;
pub mod life;
pub mod payload;
pub mod refusal;
pub mod said;
#[cfg(test)]
mod tests;

use audit::LineAudit;
use daemon::luigid;
use exit::Exit;
use lg_base::{NoMemory, Text};
use lg_io::{DiskFiles, RandomNumbers, StdioNet, SystemClock, WriterSink};
use std::alloc::Global;
use std::env;
use std::io::ErrorKind;
use std::process::ExitCode;
use std::rt::Env;

fn main(rt: HostRuntime) -> ExitCode {
    let alloc = rt.alloc();
    let mut err = WriterSink::new(rt.stderr());
    let status = match words_of(&rt) {
        Ok(words) => luigid(
            &rt,
            alloc,
            &words,
            &mut StdioNet::new(rt.stdin(), rt.stdout(), SystemClock::new(&rt)),
            &mut Vec::new(alloc),
            &mut DiskFiles::new(&rt),
            &mut RandomNumbers::new(&rt),
            &mut LineAudit::new(WriterSink::new(rt.stderr())),
            &mut WriterSink::new(rt.stdout()),
            &mut err,
        ),
        Err(NoMemory) => Exit::NoMemory.tell(&mut err),
    };
    ExitCode::from(status)
}

/// The words behind the program's name; none where one of them isn't UTF-8, as such words are no command line.
fn words_of(rt: &(impl Env + Alloc<A = Global>)) -> Result<Vec<Text>, NoMemory> {
    let mut words = Vec::new(rt.alloc());
    match env::args(rt) {
        Ok(args) => {
            for word in args.skip(1) {
                words.push(Text::from_string(word))?;
            }
        }
        Err(error) if error.kind() == ErrorKind::OutOfMemory => return Err(NoMemory),
        Err(_) => {}
    }
    Ok(words)
}
