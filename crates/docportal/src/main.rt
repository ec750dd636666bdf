//! The document portal and permission store of a desktop, in one program.
//!
//! Behind the word `serve` it is a service at Unix sockets, as `serve_command` says;
//! with any other words it runs scripts, as `script_command` says.
//!
//! `docs/serve.md` and `docs/scripts.md` say how it is run, `docs/statuses.md` how it ends.
#![tactic(auto)]

use host_real::System;
use portal_base::list::List;
use portal_base::text::Text;
use script_command::status::Status;
use std::alloc::AllocGlobal;
use std::process::ExitCode;
use std::random::RandomSource;
use std::{env, io};

fn main(rt: HostRuntime) -> ExitCode {
    ExitCode::from(match words_of(&rt) {
        Ok(words) => answer(&rt, &rt, words.as_slice()),
        Err(status) => script_command::answer::tell(&rt, status),
    })
}

/// Does what the words ask for: the number that the program ends with.
fn answer<R: System + RandomSource + AllocGlobal + Sync>(
    rt: &R,
    system: &HostRuntime,
    words: &[Text],
) -> u8 {
    if let Some((first, others)) = words.split_first() {
        if first.as_str() == "serve" {
            return serve_command::answer::answer(rt, system, others);
        }
    }
    script_command::answer::answer(system, words)
}

/// The words behind the program's name. One that isn't UTF-8 is in none of the
/// program's commands.
fn words_of(rt: &HostRuntime) -> Result<List<Text>, Status> {
    let mut words = List::new(rt.alloc());
    let arguments = match env::args(rt) {
        Ok(arguments) => arguments,
        Err(error) => return Err(status_of(&error)),
    };
    for word in arguments.skip(1) {
        if words.push(Text::from_string(word)).is_err() {
            return Err(Status::Memory);
        }
    }
    Ok(words)
}

fn status_of(error: &io::Error) -> Status {
    if error.kind() == io::ErrorKind::OutOfMemory {
        Status::Memory
    } else {
        Status::Usage
    }
}
