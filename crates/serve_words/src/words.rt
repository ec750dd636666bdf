//! The words of `docportal serve`.

ghost use Rattle.std.specs.Prelude.{◌≡◌, ◌≤◌, ◌<◌, ◌^◌, ◌++◌, ◌∷◌, [], ℕ, List, IfOk, IfSome, MatchOption, OnOk, codes, false, map, true};
ghost use Rattle.std.specs.Fmt.{decimal};
ghost use Rattle.std.specs.List.{list_all, list_any};
ghost use Rattle.std.specs.Char.{is_ascii_digit};
ghost use Rattle.std.specs.Option.{option_map};
ghost use Rattle.clap.specs.Values.{kind_of};
ghost use Rattle.clap.specs.Matches.{found_of};
ghost use Rattle.clap.specs.Walk.{rows_of};
ghost use Rattle.portal_base.specs.Names.{is_app_name, is_same};
ghost use Rattle.clap.specs.declared.error.kind.ErrorKind.TheVariants.{OutOfMemory};
ghost use Rattle.serve_words.specs.Digits.{are_digits_in, leads_with_zero_in};
ghost use Rattle.serve_words.specs.Form.{flag_in, value_in, values_in};
ghost use Rattle.serve_words.specs.declared.words.ServeWords.{ServeWords};
ghost use Rattle.serve_words.specs.Words.{AreNamed, Asks, AsksFor, AsksInForm, AsksOneOf, GivesNumber, GivesPath, IsFaulty, IsInForm, IsText, TellsFault, most_history, most_workers};

use crate::form::form;
use clap::ArgMatches;
use clap::error::ErrorKind;
use portal_base::list::List;
use portal_base::memory::WantOfMemory;
use portal_base::names::{AppId, NameError};
use portal_base::text::Text;
use std::alloc::{AllocError, Global};
use thiserror::Error;

/// The most posts of one listener.
const MOST_WORKERS: u64 = 8;

/// The most bytes that a history may cost.
const MOST_HISTORY: u64 = 4_294_967_296;

/// The most applications of one service.
const MOST_APPS: usize = 64;

/// What a service is to be.
#[derive(Drop)]
pub struct ServeWords {
    /// The folder below which paths on the host are looked up.
    pub root: Text,
    /// The file of the store.
    pub store: Text,
    /// The folder of the sockets.
    pub sockets: Text,
    /// How many posts each listener has.
    pub workers: u32,
    /// What the history may cost, in bytes.
    pub history: u64,
    /// Whether connections are polled.
    pub polled: bool,
    /// The applications, each once, in the order of the words.
    pub apps: List<AppId>,
}

/// What the words ask for.
#[derive(Drop)]
pub enum ServeAsk {
    /// A service.
    Serve(ServeWords),
    /// That this is printed: help, or the version.
    Tell(String),
}

/// Why words ask for nothing.
#[derive(Debug, Drop, Error)]
pub enum WordsError {
    /// They are faulty; the text says why, in one line.
    #[error("{0}")]
    Faulty(String),
    /// There was no memory.
    #[error("no memory")]
    Memory,
}

impl From<WantOfMemory> for WordsError {
    ghost use Rattle.std.specs.Prelude.{◌≡◌};
    ghost use Rattle.clap.specs.declared.error.kind.ErrorKind.TheVariants.{OutOfMemory};
    ghost use Rattle.serve_words.specs.Digits.{are_digits_in, leads_with_zero_in};
    ghost use Rattle.serve_words.specs.Form.{value_in, values_in};
    ghost use Rattle.serve_words.specs.declared.words.WordsError.TheVariants.{Memory};

    ghost from_gives = { λ _ error. error ≡ Memory };

    fn from(_error: WantOfMemory) -> WordsError {
        WordsError::Memory
    }
}

impl From<AllocError> for WordsError {
    ghost use Rattle.std.specs.Prelude.{◌≡◌};
    ghost use Rattle.clap.specs.declared.error.kind.ErrorKind.TheVariants.{OutOfMemory};
    ghost use Rattle.serve_words.specs.Digits.{are_digits_in, leads_with_zero_in};
    ghost use Rattle.serve_words.specs.Form.{value_in, values_in};
    ghost use Rattle.serve_words.specs.declared.words.WordsError.TheVariants.{Memory};

    ghost from_gives = { λ _ error. error ≡ Memory };

    fn from(_error: AllocError) -> WordsError {
        WordsError::Memory
    }
}

/// What the words behind `serve` ask for.
///
/// They are faulty where `clap` doesn't take them, or where what it finds in them asks for no
/// service.
pub fn read_words(alloc: Global, words: &[Text]) -> Result<ServeAsk, WordsError>
    ensures asks { IfOk result (Asks words.now) }
    ensures form { IfOk result AsksInForm }
    ensures faulty { TellsFault result → IsFaulty words.now }
{
    let mut texts = List::new(alloc);
    for word in words {
        texts.push(word.as_str())?;
    }
    read_texts(alloc, texts.as_slice())
}

/// What words ask for.
fn read_texts(alloc: Global, words: &[&str]) -> Result<ServeAsk, WordsError>
    ensures asks { IfOk result (Asks (map (λ word. word.now) words.now)) }
    ensures form { IfOk result AsksInForm }
    ensures faulty { TellsFault result → IsFaulty (map (λ word. word.now) words.now) }
{
    let command = form(alloc)?;
    match command.try_get_matches_from(words) {
        Ok(matches) => ask_of(alloc, &matches),
        Err(error) => told_by(alloc, &error),
    }
}

/// What is asked for by what was found in words.
fn ask_of(alloc: Global, matches: &ArgMatches<'_>) -> Result<ServeAsk, WordsError>
    ensures asks { IfOk result (AsksOneOf (rows_of (found_of matches.now))) }
    ensures form { IfOk result AsksInForm }
    ensures faulty { TellsFault result
        → (service : ServeWords) → AsksFor (rows_of (found_of matches.now)) service → ⊥ }
{
    match service_of(alloc, matches) {
        Ok(words) => Ok(ServeAsk::Serve(words)),
        Err(error) => Err(error),
    }
}

/// What `clap` tells in place of matches: what is to be printed, or what is faulty.
fn told_by(alloc: Global, error: &clap::Error) -> Result<ServeAsk, WordsError>
    ensures asks { IfOk result (λ ask. IsText ask × (kind_of error.now ≡ OutOfMemory → ⊥)) }
    ensures faulty { TellsFault result → kind_of error.now ≡ OutOfMemory → ⊥ }
{
    let text = format!(in alloc; "{error}")?;
    match error.kind() {
        ErrorKind::DisplayHelp | ErrorKind::DisplayVersion => Ok(ServeAsk::Tell(text)),
        ErrorKind::OutOfMemory => Err(WordsError::Memory),
        _ => Err(WordsError::Faulty(one_line(alloc, text.as_str())?)),
    }
}

/// The lines of a message up to its first empty one, as one line without the word `error`.
fn one_line(alloc: Global, message: &str) -> Result<String, WantOfMemory> {
    // What `clap` says up to its first empty line, without its hint at a similar word.
    let message = message.strip_prefix("error: ").unwrap_or(message);
    let mut line = String::new(alloc);
    for part in message.lines() {
        if part.is_empty() {
            break;
        }
        if !line.is_empty() {
            line.push_str(" ")?;
        }
        line.push_str(part.trim())?;
    }
    Ok(line)
}

/// The service that is asked for by what was found in words.
fn service_of(alloc: Global, matches: &ArgMatches<'_>) -> Result<ServeWords, WordsError>
    ensures asks { IfOk result (AsksFor (rows_of (found_of matches.now))) }
    ensures form { IfOk result IsInForm }
    ensures faulty { TellsFault result
        → (service : ServeWords) → AsksFor (rows_of (found_of matches.now)) service → ⊥ }
{
    let root = path_of(alloc, matches, "root")?;
    let store = path_of(alloc, matches, "store")?;
    let sockets = path_of(alloc, matches, "sockets")?;
    let workers = workers_of(alloc, matches)?;
    let history = history_of(alloc, matches)?;
    let apps = apps_of(alloc, matches)?;
    Ok(ServeWords {
        root,
        store,
        sockets,
        workers,
        history,
        polled: is_polled(matches),
        apps,
    })
}

/// The first value of a name.
fn value_of<'a>(matches: &ArgMatches<'a>, name: &str) -> Option<&'a str>
    ensures { option_map (λ value. value.now) result
        ≡ value_in (rows_of (found_of matches.now)) name.now }
{
    matches.get_str(name)
}

/// The path that an option has, which isn't empty.
fn path_of(alloc: Global, matches: &ArgMatches<'_>, name: &str) -> Result<Text, WordsError>
    ensures given { IfOk result (GivesPath (rows_of (found_of matches.now)) name.now) }
    ensures faulty { TellsFault result
        → (path : List ℕ) → GivesPath (rows_of (found_of matches.now)) name.now path → ⊥ }
{
    match value_of(matches, name) {
        Some(path) if !path.is_empty() => Ok(Text::copied(alloc, path)?),
        _ => {
            let why = format!(in alloc; "the value of --{name} is empty")?;
            Err(WordsError::Faulty(why))
        }
    }
}

/// How many posts a listener has.
fn workers_of(alloc: Global, matches: &ArgMatches<'_>) -> Result<u32, WordsError>
    ensures given { IfOk result (λ workers.
        GivesNumber (rows_of (found_of matches.now)) (codes "workers") 1 most_workers workers) }
    ensures faulty { TellsFault result → (workers : ℕ)
        → GivesNumber (rows_of (found_of matches.now)) (codes "workers") 1 most_workers workers
        → ⊥ }
{
    match number_of(matches, "workers", 1, MOST_WORKERS) {
        Some(workers) => Ok(workers as u32),
        None => {
            let why = format!(in alloc;
                "the value of --workers is no number from 1 to {MOST_WORKERS}"
            )?;
            Err(WordsError::Faulty(why))
        }
    }
}

/// What the history may cost.
fn history_of(alloc: Global, matches: &ArgMatches<'_>) -> Result<u64, WordsError>
    ensures given { IfOk result (λ history.
        GivesNumber (rows_of (found_of matches.now)) (codes "history") 0 most_history history) }
    ensures faulty { TellsFault result → (history : ℕ)
        → GivesNumber (rows_of (found_of matches.now)) (codes "history") 0 most_history history
        → ⊥ }
{
    match number_of(matches, "history", 0, MOST_HISTORY) {
        Some(history) => Ok(history),
        None => {
            let why = format!(in alloc;
                "the value of --history is no number up to {MOST_HISTORY}"
            )?;
            Err(WordsError::Faulty(why))
        }
    }
}

/// Whether connections are to be polled.
fn is_polled(matches: &ArgMatches<'_>) -> bool
    ensures { result ≡ flag_in (rows_of (found_of matches.now)) (codes "polled") }
{
    match value_of(matches, "polled") {
        Some(value) => value == "true",
        None => false,
    }
}

/// The number that an option has, where it is in these bounds.
fn number_of(matches: &ArgMatches<'_>, name: &str, least: u64, most: u64) -> Option<u64>
    ensures { MatchOption result
        ((number : ℕ) → GivesNumber (rows_of (found_of matches.now)) name.now least most number
        → ⊥)
        (GivesNumber (rows_of (found_of matches.now)) name.now least most) }
{
    let word = value_of(matches, name)?;
    let number = read_number(word)?;
    if number < least || most < number {
        return None;
    }
    Some(number)
}

/// The number that decimal digits without leading zeros stand for.
fn read_number(word: &str) -> Option<u64>
    ensures { MatchOption result ((n : ℕ) → n < 2 ^ 64 → word.now ≡ decimal n → ⊥)
        (λ n. (n < 2 ^ 64) × (word.now ≡ decimal n)) }
{
    // As everywhere in the program, numbers are decimal digits without a sign or a leading zero,
    // and not what `parse` takes.
    if !are_digits(word.as_bytes()) {
        return None;
    }
    match word.parse::<u64>() {
        Ok(number) => Some(number),
        Err(_) => None,
    }
}

/// Whether bytes are decimal digits without a leading zero.
fn are_digits(bytes: &[u8]) -> bool
    ensures { result ≡ are_digits_in bytes.now }
{
    !bytes.is_empty() && !leads_with_zero(bytes) && all_digits(bytes)
}

/// Whether there is more than one byte, and a zero first.
#[tactic(auto, using(crate::proofs::Numbers::leads_long, crate::proofs::Numbers::leads_short))]
fn leads_with_zero(bytes: &[u8]) -> bool
    ensures { result ≡ leads_with_zero_in bytes.now }
{
    bytes.len() > 1 && bytes[0] == b'0'
}

/// Whether each byte is a decimal digit.
fn all_digits(bytes: &[u8]) -> bool
    ensures { result ≡ list_all is_ascii_digit bytes.now }
{
    bytes.iter().all(|byte| byte.is_ascii_digit())
}

/// The applications that are named, in order.
fn apps_of(alloc: Global, matches: &ArgMatches<'_>) -> Result<List<AppId>, WordsError>
    ensures given { IfOk result (λ apps.
        (apps ≡ values_in (rows_of (found_of matches.now)) (codes "app")) × AreNamed apps) }
    ensures faulty { TellsFault result
        → AreNamed (values_in (rows_of (found_of matches.now)) (codes "app")) → ⊥ }
{
    apps_named(alloc, matches.get_strs("app").unwrap_or(&[]))
}

/// The applications of these names, in order.
fn apps_named(alloc: Global, names: &[&str]) -> Result<List<AppId>, WordsError>
    ensures given { IfOk result (λ apps. (apps ≡ map (λ name. name.now) names.now)
        × AreNamed apps) }
    ensures faulty { TellsFault result → AreNamed (map (λ name. name.now) names.now) → ⊥ }
{
    let mut apps = List::new(alloc);
    for name in names {
        add_app(alloc, &mut apps, name)?;
    }
    Ok(apps)
}

/// Adds an application to those that are named.
#[tactic(auto, using(crate::proofs::Apps::not_nameless, crate::proofs::Apps::not_many))]
fn add_app(alloc: Global, apps: &mut List<AppId>, name: &str) -> Result<(), WordsError>
    requires { AreNamed apps.old }
    ensures named { OnOk result ((apps.new ≡ apps.old ++ name.now ∷ []) × AreNamed apps.new) }
    ensures faulty { TellsFault result → AreNamed (apps.old ++ name.now ∷ []) → ⊥ }
{
    if apps.len() == MOST_APPS {
        let why = format!(in alloc; "more than {MOST_APPS} applications")?;
        return Err(WordsError::Faulty(why));
    }
    let app = app_of(alloc, name)?;
    if is_named(apps.as_slice(), &app) {
        let why = format!(in alloc; "'{name}' is named twice")?;
        return Err(WordsError::Faulty(why));
    }
    apps.push(app)?;
    Ok(())
}

/// The application of a name.
fn app_of(alloc: Global, name: &str) -> Result<AppId, WordsError>
    ensures named { IfOk result (λ app. (app ≡ name.now) × (is_app_name name.now ≡ true)) }
    ensures faulty { TellsFault result → is_app_name name.now ≡ false }
{
    match AppId::read(alloc, name.as_bytes()) {
        Ok(app) => Ok(app),
        Err(NameError::Memory) => Err(WordsError::Memory),
        Err(NameError::BadName { at: _ }) => {
            let why = format!(in alloc; "'{name}' is no name of an application")?;
            Err(WordsError::Faulty(why))
        }
    }
}

/// Whether an application is among others.
fn is_named(apps: &[AppId], app: &AppId) -> bool
    ensures { result ≡ list_any (is_same app.now) apps.now }
{
    apps.iter().any(|other| app == other)
}
