//! What the program does for the words behind `serve`.

ghost use Rattle.std.specs.Prelude.{◌≡◌};
ghost use Rattle.serve_start.specs.Ends.{number_of};

use crate::descriptors::files_open;
use crate::line::on_one_line;
use crate::root::root_of_words;
use crate::standing::Standing;
use crate::system::SystemOpeners;
use host_real::System;
use portal_base::memory::WantOfMemory;
use portal_base::outside::{Sink, StdSink, WriteAnswer};
use portal_base::text::Text;
use serve_start::end::ServeEnd;
use serve_start::obey::{Obeyed, obey};
use std::alloc::AllocGlobal;
use std::random::RandomSource;

/// The number that the program ends with where help can't be written.
const WRITE_FAULT: u8 = 4;

/// Does what the words behind `serve` ask for: the number that the program ends with.
///
/// One line on standard output tells that all sockets stand, once each post is about to
/// accept. It returns only where the sockets, the connections and the devices do. What isn't
/// 0 is told by one line on standard error.
pub fn answer<R: System + RandomSource + AllocGlobal + Sync>(
    rt: &R,
    system: &HostRuntime,
    words: &[Text],
) -> u8 {
    let standing = Standing::new(system);
    let held = files_open(system);
    let root = root_of_words(rt, system, held, words);
    let mut openers = SystemOpeners::new(rt, system, &standing, held, root);
    number_of_words(
        system,
        &standing,
        obey(system.alloc(), rt, words, &mut openers, &standing),
    )
}

/// The number of what words came to, which is told.
fn number_of_words(system: &HostRuntime, standing: &Standing<'_>, obeyed: Obeyed) -> u8 {
    standing.clear();
    match obeyed {
        Obeyed::Told(text) => print(system, text.as_str()),
        Obeyed::Ended(end) => tell(system, &end),
    }
}

/// Prints what the words ask to be told.
fn print(system: &HostRuntime, text: &str) -> u8 {
    match StdSink::new(system.stdout()).write(text.as_bytes()) {
        WriteAnswer::Done => 0,
        WriteAnswer::Failed => {
            let _ = eprintln!(system; "docportal: write fault");
            WRITE_FAULT
        }
    }
}

/// The number of an end. Where it isn't 0, standard error is told how the service ended.
pub fn tell(system: &HostRuntime, end: &ServeEnd) -> u8
    ensures { result ≡ number_of end.now }
{
    let number = end.number();
    if number != 0 {
        let _ = match line_of(system, end) {
            Ok(line) => eprintln!(system; "docportal: {line}"),
            Err(WantOfMemory) => eprintln!(system; "docportal: {end}"),
        };
    }
    number
}

/// What is said of an end, on one line.
fn line_of(system: &HostRuntime, end: &ServeEnd) -> Result<String, WantOfMemory> {
    let text = format!(in system.alloc(); "{end}")?;
    on_one_line(system.alloc(), text.as_str())
}
