//! The words of the program.

ghost use Rattle.std.specs.Prelude.{◌≡◌, ◌∷◌, [], IfOk, MatchOption, OnErr, true};
ghost use Rattle.portal_base.specs.Names.{is_app_name};
ghost use Rattle.script_command.specs.Commands.{IsCount, IsNoCount, NamesApp, ReadsCommand};

use portal_base::memory::WantOfMemory;
use portal_base::names::{AppId, NameError};
use portal_base::text::Text;
use script_form::read_number;
use std::alloc::Global;

/// What the words of the program ask for.
#[derive(Drop)]
pub enum Command {
    /// `replay`: a script is run.
    Replay,
    /// `worlds APP`: two scripts are compared as an application sees their runs.
    Worlds {
        /// The application.
        app: AppId,
    },
    /// `generate N`: a load of so many requests is run.
    Generate {
        /// How many.
        count: u32,
    },
}

/// The greatest number of requests that may be generated.
const MOST_REQUESTS: u64 = 100_000;

/// What the words ask for; `None` where they are none of the three commands. Only the
/// name of an application wants memory.
pub fn command_of(alloc: Global, words: &[Text]) -> Result<Option<Command>, WantOfMemory>
    ensures reads { IfOk result (ReadsCommand words.now) }
    ensures wants { OnErr result (NamesApp words.now) }
{
    match words {
        [word] => Ok(command_of_one(word.as_bytes())),
        [first, second] => command_of_two(alloc, first.as_bytes(), second.as_bytes()),
        _ => Ok(None),
    }
}

fn command_of_one(word: &[u8]) -> Option<Command>
    ensures { ReadsCommand (word.now ∷ []) result }
{
    if word == b"replay".as_slice() {
        return Some(Command::Replay);
    }
    None
}

fn command_of_two(
    alloc: Global,
    first: &[u8],
    second: &[u8],
) -> Result<Option<Command>, WantOfMemory>
    ensures reads { IfOk result (ReadsCommand (first.now ∷ second.now ∷ [])) }
    ensures wants { OnErr result (NamesApp (first.now ∷ second.now ∷ [])) }
{
    // Whether the word is a name is asked first, since that takes no memory: with however little
    // of it, faulty words are faulty.
    if first == b"worlds".as_slice() && AppId::is_name(second) {
        return match app_named(alloc, second) {
            Ok(app) => Ok(Some(Command::Worlds { app })),
            Err(WantOfMemory) => Err(WantOfMemory),
        };
    }
    if first == b"generate".as_slice() {
        return match read_count(second) {
            Some(count) => Ok(Some(Command::Generate { count })),
            None => Ok(None),
        };
    }
    Ok(None)
}

/// The application of a name.
fn app_named(alloc: Global, name: &[u8]) -> Result<AppId, WantOfMemory>
    requires { is_app_name name.now ≡ true }
    ensures { IfOk result (λ app. app ≡ name.now) }
{
    match AppId::read(alloc, name) {
        Ok(app) => Ok(app),
        Err(NameError::Memory) => Err(WantOfMemory),
        Err(NameError::BadName { at: _ }) => unreachable!(),
    }
}

/// The number from 1 to 100,000 that a word is.
fn read_count(word: &[u8]) -> Option<u32>
    ensures { MatchOption result (IsNoCount word.now) (IsCount word.now) }
{
    let Some(number) = read_number(word) else {
        return None;
    };
    if number == 0 {
        return None;
    }
    if number > MOST_REQUESTS {
        return None;
    }
    Some(number as u32)
}
