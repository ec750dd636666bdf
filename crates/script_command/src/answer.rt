//! What the program does for its words, where they are none of a service.

ghost use Rattle.std.specs.Prelude.{◌≡◌};
ghost use Rattle.script_replay.specs.Statuses.{number_of};

use crate::about;
use crate::run::run;
use portal_base::outside::{Sink, StdSink, StdSource, WriteAnswer};
use portal_base::text::Text;
use script_replay::status::Status;

/// Does what the words ask for: the number that the program ends with.
///
/// What isn't done is told by one line on standard error.
pub fn answer(rt: &HostRuntime, words: &[Text]) -> u8 {
    tell(rt, ended(rt, words))
}

/// Prints what the words ask the program to tell of itself, or else runs what they
/// ask for: how that ended.
fn ended(rt: &HostRuntime, words: &[Text]) -> Status {
    let mut sink = StdSink::new(rt.stdout());
    if let Some(text) = about::told_to(words) {
        return match sink.write(text.as_bytes()) {
            WriteAnswer::Done => Status::Done,
            WriteAnswer::Failed => Status::WriteFault,
        };
    }
    let mut source = StdSource::new(rt.stdin());
    run(rt.alloc(), words, &mut source, &mut sink)
}

/// The number of a status. Where it isn't done, standard error is told how the run
/// ended.
pub fn tell(rt: &HostRuntime, status: Status) -> u8
    ensures { result ≡ number_of status }
{
    if status != Status::Done {
        let _ = eprintln!(rt; "docportal: {status}");
    }
    status.number()
}
