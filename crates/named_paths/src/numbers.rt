//! The numbers of open handles, by seat.

ghost use Rattle.std.specs.Prelude.{◌≡◌, ℕ, ◌==◌, ◌&&◌, ◌||◌, OnOk, false, filter, not, option_copied, true};
ghost use Rattle.named_paths.specs.OpenNumbers.{IsFollowed, IsJoined, IsLeftOpen, is_among, last_opened, numbers_of};

use open_handles::Handles;
use portal_base::memory::WantOfMemory;
use portal_model::request::{NodeOp, Request};
use portal_model::state::Connection;
use std::alloc::Global;
use std::collections::BTreeMap;

/// By seat, numbers among which those of its open handles are. A number that was
/// released is gone from them.
pub type OpenNumbers = BTreeMap<u32, Vec<u64>>;

/// Lets the numbers be those behind a request of a seat, where these are the open
/// handles and the seat's connection, if any, behind it. Each number that was there
/// or is the last of the connection is there afterwards, if it is open.
pub fn follow(
    alloc: Global,
    numbers: &mut OpenNumbers,
    handles: &Handles,
    connection: Option<&Connection>,
    seat: u32,
    request: &Request,
) -> Result<(), WantOfMemory>
    ensures { OnOk result (IsFollowed seat (last_opened (option_copied connection.entry))
        handles.now.seats numbers.old numbers.new) }
{
    if handles.is_entered(seat) {
        return follow_open(
            alloc,
            numbers,
            handles,
            seat,
            last_opened(connection),
            request,
        );
    }
    numbers.remove(&seat);
    Ok(())
}

/// The same of a seat that has a place among the open handles, where this is the
/// number of the last handle that it was given.
fn follow_open(
    alloc: Global,
    numbers: &mut OpenNumbers,
    handles: &Handles,
    seat: u32,
    last: u64,
    request: &Request,
) -> Result<(), WantOfMemory>
    ensures { OnOk result (IsFollowed seat last handles.now.seats numbers.old numbers.new) }
{
    add_last(alloc, numbers, handles, seat, last)?;
    match released(request) {
        Some(number) => {
            drop_closed(numbers, handles, seat, number);
            Ok(())
        }
        None => Ok(()),
    }
}

/// How many handles a connection was given, which is the number of the last.
fn last_opened(connection: Option<&Connection>) -> u64
    ensures { result ≡ last_opened (option_copied connection.entry) }
{
    match connection {
        Some(connection) => connection.opens,
        None => 0,
    }
}

// No clause needs its answer: a number is dropped only where its handle isn't open.
/// The number of the handle that a request releases, if any.
fn released(request: &Request) -> Option<u64> {
    match request {
        Request::Node(request) => match &request.op {
            NodeOp::Release { fh } => Some(*fh),
            NodeOp::ReleaseDir { fh } => Some(*fh),
            _ => None,
        },
        _ => None,
    }
}

/// Adds the last number of a seat, if it is open.
fn add_last(
    alloc: Global,
    numbers: &mut OpenNumbers,
    handles: &Handles,
    seat: u32,
    last: u64,
) -> Result<(), WantOfMemory>
    ensures { OnOk result (IsFollowed seat last handles.now.seats numbers.old numbers.new) }
{
    match handles.get(seat, last) {
        Some(_) => add_number(alloc, numbers, seat, last),
        None => Ok(()),
    }
}

/// Adds a number to those of a seat.
fn add_number(
    alloc: Global,
    numbers: &mut OpenNumbers,
    seat: u32,
    number: u64,
) -> Result<(), WantOfMemory>
    ensures { OnOk result (IsJoined seat number numbers.old numbers.new) }
{
    if let Some(known) = numbers.get_mut(&seat) {
        return push_new(known, number);
    }
    let mut first = Vec::new(alloc);
    first.push(number)?;
    numbers.insert(seat, first)?;
    Ok(())
}

/// Puts a number behind others, unless it is the last of them.
fn push_new(known: &mut Vec<u64>, number: u64) -> Result<(), WantOfMemory>
    ensures { OnOk result ((n : ℕ) →
        (is_among known.old.items n || number == n) ≡ true →
        is_among known.new.items n ≡ true) }
{
    // The last handle of a connection stays its last through most requests.
    if is_last(known.as_slice(), number) {
        return Ok(());
    }
    known.push(number)?;
    Ok(())
}

/// Says whether the last of some numbers is this one.
fn is_last(known: &[u64], number: u64) -> bool
    ensures { result ≡ true → is_among known.now number ≡ true }
{
    match known.last() {
        Some(last) => *last == number,
        None => false,
    }
}

/// Drops a number of a seat, unless its handle is open.
fn drop_closed(numbers: &mut OpenNumbers, handles: &Handles, seat: u32, number: u64)
    ensures { IsLeftOpen handles.now.seats numbers.old numbers.new }
{
    match handles.get(seat, number) {
        Some(_) => {}
        None => drop_number(numbers, seat, number),
    }
}

/// Drops a number of a seat.
fn drop_number(numbers: &mut OpenNumbers, seat: u32, number: u64)
    ensures { (s n : ℕ) → is_among (numbers_of numbers.old s) n ≡ true →
        (seat == s && number == n) ≡ false → is_among (numbers_of numbers.new s) n ≡ true }
{
    match numbers.get_mut(&seat) {
        Some(known) => take_out(known, number),
        None => {}
    }
}

/// Takes a number out of others.
fn take_out(known: &mut Vec<u64>, number: u64)
    ensures { known.new.items ≡ filter (λ n. not (n == number)) known.old.items }
{
    known.retain(|other| *other != number);
}
