//! Starts of a portal that are refused.

use host_tree::MemoryTree;
use portal_base::list::List;
use portal_base::outside::{Clock, ListWords, SetClock, Words};
use portal_core::portal::Portal;
use portal_lines::{DOCUMENTS, PLENTY, let_go, limits};
use portal_model::records::{DocRecord, GrantRecord, Records};
use portal_start::start::StartRefusal;
use record_keeper::{Keeper, KeeperLoad, MemoryKeeper};
use std::alloc::Global;
use vector_lines::error::LineError;
use vector_lines::notation::{cut, numbers, small_number};
use vector_lines::output::Output;

/// The devices of a portal that lines start.
type Refusal = StartRefusal<MemoryTree, MemoryKeeper, SetClock, ListWords>;

/// `start VERSION FAILS | NUMBER PATH GRANTS | ..`: why no portal starts over a keeper whose
/// calls of these numbers fail, and which has records of this version: documents, with rights
/// as `APP=RIGHTS,..`; and what the devices give that come back: the clock, which shows 5, the
/// words, of which the first is 7, and how many documents of which version the keeper
/// loads. `started` where one starts.
pub fn start(alloc: Global, out: &mut Output, rest: &str) -> Result<(), LineError> {
    let words = ListWords::new(List::copied(alloc, [7].as_slice())?);
    let keeper = keeper(alloc, rest)?;
    put_started(alloc, out, keeper, words);
    Ok(())
}

/// What a portal starts with over a keeper.
fn put_started(alloc: Global, out: &mut Output, keeper: MemoryKeeper, words: ListWords) {
    let tree = MemoryTree::new(alloc, List::new(alloc));
    let clock = SetClock::new(5);
    match Portal::start(alloc, tree, keeper, clock, words, limits(DOCUMENTS, PLENTY)) {
        Ok(portal) => {
            let_go(portal);
            out.text("started");
        }
        Err(refusal) => {
            let mut refusal = refusal;
            put_refusal(out, &mut refusal);
            drop(refusal);
        }
    }
}

/// The keeper of a line.
fn keeper(alloc: Global, rest: &str) -> Result<MemoryKeeper, LineError> {
    let (version, fails) = cut(rest.split('|').next().unwrap_or("").trim());
    let version = small_number(version)?;
    let fails = numbers(alloc, fails)?;
    let records = Records {
        version,
        documents: documents(alloc, rest)?,
        entries: List::new(alloc),
    };
    Ok(MemoryKeeper::new(alloc, records, fails)?)
}

/// The documents behind the first `|`.
fn documents(alloc: Global, rest: &str) -> Result<List<DocRecord>, LineError> {
    let mut documents = List::new(alloc);
    for part in rest.split('|').skip(1) {
        documents.push(document(alloc, part.trim())?)?;
    }
    Ok(documents)
}

fn document(alloc: Global, part: &str) -> Result<DocRecord, LineError> {
    let (number, rest) = cut(part);
    let (path, rights) = cut(rest);
    Ok(DocRecord {
        number: small_number(number)?,
        path: List::copied(alloc, path.as_bytes())?,
        reusable: false,
        strict: false,
        grants: grants(alloc, rights)?,
    })
}

fn grants(alloc: Global, words: &str) -> Result<List<GrantRecord>, LineError> {
    let mut grants = List::new(alloc);
    for word in words.split_terminator(',') {
        grants.push(grant(alloc, word)?)?;
    }
    Ok(grants)
}

fn grant(alloc: Global, word: &str) -> Result<GrantRecord, LineError> {
    let (app, rights) = word.split_once('=').unwrap_or((word, ""));
    match rights.parse::<u8>() {
        Ok(rights) => Ok(GrantRecord {
            app: List::copied(alloc, app.as_bytes())?,
            rights,
        }),
        Err(_) => Err(LineError::BadLine),
    }
}

/// Why no portal starts, and what the devices give then.
fn put_refusal(out: &mut Output, refusal: &mut Refusal) {
    out.debug(&refusal.error);
    out.text("; clock ");
    out.number(refusal.clock.now());
    out.text(", word ");
    out.number(u64::from(refusal.words.next()));
    out.text(", keeper ");
    let load = refusal.keeper.load();
    put_load(out, &load);
    drop(load);
}

/// How many documents a keeper loads, of which version.
fn put_load(out: &mut Output, load: &KeeperLoad) {
    match load {
        KeeperLoad::Got(records) => {
            out.number(records.documents.len() as u64);
            out.text(" of version ");
            out.number(u64::from(records.version));
        }
        load => out.debug(load),
    }
}
