//! What `clap` is told of the words.

ghost use Rattle.std.specs.Prelude.{◌≡◌, IfOk, codes, false};
ghost use Rattle.clap.specs.Simple.{app_of};
ghost use Rattle.clap.specs.Walk.{rule_of};
ghost use Rattle.serve_words.specs.Form.{flag_rule, number_rule, path_rule, serve_form, words_rule};

use clap::{Arg, ArgAction, Command};
use std::alloc::{AllocError, Global};

/// What `--help` says first.
const ABOUT: &str = "\
Serves the document portal and the permission store at Unix sockets.

Each connection speaks D-Bus (host.bus, app.NAME.bus) or FUSE frames (host.mount,
app.NAME.mount); the socket that it comes by says whose it is. Its owner alone may
connect to a socket. One line on standard output tells that all stand and are served.";

/// What `--help` says last.
const AFTER_HELP: &str = "\
It ends with 0 where every socket was closed, and else with one line on standard
error: 1 the words are faulty, 2 a socket can't be made or served, 3 the store fails, 4
the store has a bad record, 5 no memory, 6 the store is of another version, 7 a socket
failed. docs/serve.md says how to run it and how to keep its store.";

/// What `--version` says.
pub const VERSION: &str = "0.1.0";

/// The command, as `clap` reads it.
pub fn form<'a>(alloc: Global) -> Result<Command<'a>, AllocError>
    ensures { IfOk result (λ command. app_of command ≡ serve_form) }
{
    let command = Command::new(alloc, "docportal serve")
        .version(VERSION)
        .about(ABOUT)
        .after_help(AFTER_HELP)
        .no_binary_name(true)
        .arg(folder(
            alloc,
            "root",
            "DIR",
            "The folder that host paths are looked up below",
        ))?
        .arg(folder(
            alloc,
            "store",
            "FILE",
            "The database of what is kept; made where there is none",
        ))?
        .arg(folder(
            alloc,
            "sockets",
            "DIR",
            "The folder that the sockets are made in; made where there is none",
        ))?
        .arg(number(
            alloc,
            "workers",
            "N",
            "How many connections each socket serves at a time, 1 to 8",
            "2",
        ))?
        .arg(number(
            alloc,
            "history",
            "N",
            "How many bytes the history of requests may cost, up to 4294967296",
            "536870912",
        ))?
        .arg(flag(alloc, "polled", "Serves each connection poll by poll"))?
        .arg(apps(alloc))?;
    Ok(command)
}

/// A required option whose value is a path.
fn folder<'a>(alloc: Global, name: &'static str, value: &'static str, help: &'static str) -> Arg<'a>
    ensures rule { rule_of result ≡ path_rule name.now }
    ensures own { result.global ≡ false }
{
    Arg::new(alloc, name)
        .long(name)
        .value_name(value)
        .required(true)
        .action(ArgAction::Set)
        .help(help)
}

/// An option whose value is a number.
fn number<'a>(
    alloc: Global,
    name: &'static str,
    value: &'static str,
    help: &'static str,
    usual: &'static str,
) -> Arg<'a>
    ensures rule { rule_of result ≡ number_rule name.now usual.now }
    ensures own { result.global ≡ false }
{
    Arg::new(alloc, name)
        .long(name)
        .value_name(value)
        .action(ArgAction::Set)
        .default_value(usual)
        .help(help)
}

/// An option that is given or not.
fn flag<'a>(alloc: Global, name: &'static str, help: &'static str) -> Arg<'a>
    ensures rule { rule_of result ≡ flag_rule name.now }
    ensures own { result.global ≡ false }
{
    Arg::new(alloc, name)
        .long(name)
        .action(ArgAction::SetTrue)
        .help(help)
}

/// The names of the applications.
fn apps<'a>(alloc: Global) -> Arg<'a>
    ensures rule { rule_of result ≡ words_rule (codes "app") }
    ensures own { result.global ≡ false }
{
    Arg::new(alloc, "app")
        .value_name("APP")
        .action(ArgAction::Append)
        .num_args(0..)
        .help("The applications, up to 64, each with a bus and a mount")
}
