//! The connections of seats, each with its open handles, with what it has named and with
//! its temporaries, and with a box of changes where it hears of them.

ghost use Rattle.std.specs.Prelude.{◌≡◌, ◌++◌, ◌∷◌, [], None, OnErr, OnOk};
ghost use Rattle.change_signals.specs.Unsent.{IsSame, unsent_on};
ghost use Rattle.file_ops.specs.SeatNames.{NamesKept};
ghost use Rattle.file_ops.specs.SeatTemps.{SeatsKept};
ghost use Rattle.folder_documents.specs.Named.{AtSeat as AtNames, Enters as BeginsNames, named_on};
ghost use Rattle.open_handles.specs.Opened.{AtSeat, Enters, opened_on};
ghost use Rattle.portal_model.specs.Valid.{is_host_bus};
ghost use Rattle.portal_steps.specs.Stored.{Hears};
ghost use Rattle.save_files.specs.Own.{AtSeat as AtTemps, Enters as BeginsTemps, own_on};

use change_signals::Outboxes;
use change_signals::hearing::hears_of_changes;
use folder_documents::Namings;
use open_handles::Handles;
use portal_base::list::List;
use portal_base::memory::WantOfMemory;
use portal_model::state::Connection;
use save_files::Temps;

/// A connection begins, which was not there. Want of memory leaves all as it was.
pub fn enter(
    connections: &mut List<Connection>,
    handles: &mut Handles,
    namings: &mut Namings,
    temps: &mut Temps,
    outboxes: &mut Outboxes,
    connection: Connection,
) -> Result<(), WantOfMemory>
    requires handles { opened_on handles.old.seats connection.seat ≡ None }
    requires names { named_on namings.old connection.seat ≡ None }
    requires temps { own_on temps.old.seats connection.seat ≡ None }
    requires outboxes { unsent_on outboxes.old connection.seat ≡ None }
    ensures heard { OnOk result (Hears (is_host_bus connection.who connection.kind)
        connection.seat outboxes.old outboxes.new) }
    ensures outboxes { OnErr result (IsSame outboxes.old outboxes.new) }
    ensures limit { handles.new.most ≡ handles.old.most }
    ensures connected { OnOk result (connections.new ≡ connections.old ++ connection ∷ []) }
    ensures entered { OnOk result
        (AtSeat Enters handles.old.seats handles.new.seats connection.seat) }
    ensures connections { OnErr result (connections.new ≡ connections.old) }
    ensures handles { OnErr result (handles.new.seats ≡ handles.old.seats) }
    ensures named { OnOk result
        (AtNames BeginsNames namings.old namings.new connection.seat) }
    ensures names { OnErr result (NamesKept namings.old namings.new) }
    ensures begun { OnOk result
        (AtTemps BeginsTemps temps.old.seats temps.new.seats connection.seat) }
    ensures temps { OnErr result (SeatsKept temps.old.seats temps.new.seats) }
    ensures taken { temps.new.taken ≡ temps.old.taken }
{
    let seat = connection.seat;
    let hears = hears_of_changes(&connection.who, connection.kind);
    if hears {
        outboxes.enter(seat)?;
    }
    match begin(connections, handles, namings, temps, connection) {
        Ok(()) => Ok(()),
        Err(WantOfMemory) => {
            if hears {
                outboxes.leave(seat);
            }
            Err(WantOfMemory)
        }
    }
}

/// A connection begins, which was not there, with its open handles, what it names and its
/// temporaries.
fn begin(
    connections: &mut List<Connection>,
    handles: &mut Handles,
    namings: &mut Namings,
    temps: &mut Temps,
    connection: Connection,
) -> Result<(), WantOfMemory>
    requires handles { opened_on handles.old.seats connection.seat ≡ None }
    requires names { named_on namings.old connection.seat ≡ None }
    requires temps { own_on temps.old.seats connection.seat ≡ None }
    ensures limit { handles.new.most ≡ handles.old.most }
    ensures connected { OnOk result (connections.new ≡ connections.old ++ connection ∷ []) }
    ensures entered { OnOk result
        (AtSeat Enters handles.old.seats handles.new.seats connection.seat) }
    ensures connections { OnErr result (connections.new ≡ connections.old) }
    ensures handles { OnErr result (handles.new.seats ≡ handles.old.seats) }
    ensures named { OnOk result
        (AtNames BeginsNames namings.old namings.new connection.seat) }
    ensures names { OnErr result (NamesKept namings.old namings.new) }
    ensures begun { OnOk result
        (AtTemps BeginsTemps temps.old.seats temps.new.seats connection.seat) }
    ensures temps { OnErr result (SeatsKept temps.old.seats temps.new.seats) }
    ensures taken { temps.new.taken ≡ temps.old.taken }
{
    let seat = connection.seat;
    connections.push(connection)?;
    match named(handles, namings, temps, seat) {
        Ok(()) => Ok(()),
        Err(WantOfMemory) => {
            connections.truncate(connections.len() - 1);
            Err(WantOfMemory)
        }
    }
}

/// The open handles of a seat begin, what it names and its temporaries.
fn named(
    handles: &mut Handles,
    namings: &mut Namings,
    temps: &mut Temps,
    seat: u32,
) -> Result<(), WantOfMemory>
    requires handles { opened_on handles.old.seats seat ≡ None }
    requires names { named_on namings.old seat ≡ None }
    requires temps { own_on temps.old.seats seat ≡ None }
    ensures limit { handles.new.most ≡ handles.old.most }
    ensures entered { OnOk result (AtSeat Enters handles.old.seats handles.new.seats seat) }
    ensures handles { OnErr result (handles.new.seats ≡ handles.old.seats) }
    ensures named { OnOk result (AtNames BeginsNames namings.old namings.new seat) }
    ensures names { OnErr result (NamesKept namings.old namings.new) }
    ensures begun { OnOk result (AtTemps BeginsTemps temps.old.seats temps.new.seats seat) }
    ensures temps { OnErr result (SeatsKept temps.old.seats temps.new.seats) }
    ensures taken { temps.new.taken ≡ temps.old.taken }
{
    namings.enter(seat)?;
    match opened(handles, temps, seat) {
        Ok(()) => Ok(()),
        Err(WantOfMemory) => {
            namings.leave(seat);
            Err(WantOfMemory)
        }
    }
}

/// The open handles of a seat begin, and its temporaries.
fn opened(handles: &mut Handles, temps: &mut Temps, seat: u32) -> Result<(), WantOfMemory>
    requires handles { opened_on handles.old.seats seat ≡ None }
    requires temps { own_on temps.old.seats seat ≡ None }
    ensures limit { handles.new.most ≡ handles.old.most }
    ensures entered { OnOk result (AtSeat Enters handles.old.seats handles.new.seats seat) }
    ensures handles { OnErr result (handles.new.seats ≡ handles.old.seats) }
    ensures begun { OnOk result (AtTemps BeginsTemps temps.old.seats temps.new.seats seat) }
    ensures temps { OnErr result (SeatsKept temps.old.seats temps.new.seats) }
    ensures taken { temps.new.taken ≡ temps.old.taken }
{
    temps.enter(seat)?;
    match handles.enter(seat) {
        Ok(()) => Ok(()),
        Err(WantOfMemory) => {
            temps.leave(seat);
            Err(WantOfMemory)
        }
    }
}
