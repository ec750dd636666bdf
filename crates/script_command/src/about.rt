//! What the program tells of itself, ahead of any run.

ghost use Rattle.std.specs.Prelude.{◌≡◌, None};
ghost use Rattle.script_command.specs.Commands.{IsCommand};
ghost use Rattle.script_command.specs.declared.command.Command.{Command};

use portal_base::text::Text;

/// What `--help` prints.
const HELP: &str = "\
usage: docportal serve ..      serves the portal at sockets (docportal serve --help)
       docportal replay        runs the script on standard input
       docportal worlds APP    compares two scripts on standard input as APP sees them
       docportal generate N    runs a generated load of N requests, from 1 to 100000
       docportal --help        prints this
       docportal --version     prints the version

docportal is the document portal and the permission store of the XDG desktop.
A run of scripts that isn't done ends with a status from 1 to 6, and says why on standard
error (docs/statuses.md); docs/scripts.md says what a script is, and docs/isolation.md
what comparing two tells.
";

/// What `--version` prints.
const VERSION: &str = "docportal 0.1.0\n";

/// What the words ask the program to tell of itself, where they ask for that: none of
/// its commands does.
pub fn told_to(words: &[Text]) -> Option<&'static str>
    ensures { (command : Command) → IsCommand words.now command → result ≡ None }
{
    let [word] = words else {
        return None;
    };
    match word.as_str() {
        "--help" => Some(HELP),
        "--version" => Some(VERSION),
        _ => None,
    }
}
