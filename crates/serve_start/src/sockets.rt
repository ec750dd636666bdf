//! The sockets of a service.

ghost use Rattle.std.specs.Prelude.{◌≡◌, ◌+◌, ◌*◌, ◌++◌, length, IfOk, OnOk};
ghost use Rattle.serve_start.specs.Sockets.{kind_name, path_in, sockets_in, sockets_of_one, who_name};

use portal_base::list::List;
use portal_base::memory::{Replica, WantOfMemory};
use portal_base::names::AppId;
use portal_base::text::Text;
use portal_base::who::{Kind, Who};
use std::alloc::Global;

/// A socket of a service.
#[derive(Drop)]
pub struct Socket {
    /// Where it is.
    pub path: Text,
    /// Whose each connection is that comes by it.
    pub who: Who,
    /// What such a connection speaks.
    pub kind: Kind,
}

/// The sockets of a service: those of the host, then of each application in order, of each
/// a bus and then a mount.
pub fn sockets_of(
    alloc: Global,
    folder: &Text,
    apps: &[AppId],
) -> Result<List<Socket>, WantOfMemory>
    ensures sockets { IfOk result (λ sockets. sockets ≡ sockets_in folder.now apps.now) }
    ensures count { IfOk result (λ sockets. length sockets ≡ 2 + 2 * length apps.now) }
{
    let mut sockets = List::new(alloc);
    add_sockets(alloc, &mut sockets, folder, &Who::Host)?;
    for app in apps {
        let who = Who::App(app.replica(alloc)?);
        add_sockets(alloc, &mut sockets, folder, &who)?;
    }
    Ok(sockets)
}

/// Adds the sockets of one caller.
fn add_sockets(
    alloc: Global,
    sockets: &mut List<Socket>,
    folder: &Text,
    who: &Who,
) -> Result<(), WantOfMemory>
    ensures { OnOk result (sockets.new ≡ sockets.old ++ sockets_of_one folder.now who.now) }
{
    sockets.push(socket_of(alloc, folder, who, Kind::Bus)?)?;
    sockets.push(socket_of(alloc, folder, who, Kind::Mount)?)
}

/// The socket of a caller, for connections of a kind.
fn socket_of(alloc: Global, folder: &Text, who: &Who, kind: Kind) -> Result<Socket, WantOfMemory>
    ensures path { IfOk result (λ socket. socket.path ≡ path_in folder.now who.now kind) }
    ensures who { IfOk result (λ socket. socket.who ≡ who.now) }
    ensures kind { IfOk result (λ socket. socket.kind ≡ kind) }
{
    Ok(Socket {
        path: path_of(alloc, folder, who, kind)?,
        who: who.replica(alloc)?,
        kind,
    })
}

/// Where the socket of a caller is, for connections of a kind.
fn path_of(alloc: Global, folder: &Text, who: &Who, kind: Kind) -> Result<Text, WantOfMemory>
    ensures { IfOk result (λ path. path ≡ path_in folder.now who.now kind) }
{
    let mut path = Text::copied(alloc, folder.as_str())?;
    path.push_str("/")?;
    push_who(&mut path, who)?;
    path.push_str(name_of(kind))?;
    Ok(path)
}

/// Puts a caller's name at the end of a path.
fn push_who(path: &mut Text, who: &Who) -> Result<(), WantOfMemory>
    ensures { OnOk result (path.new ≡ path.old ++ who_name who.now) }
{
    match who {
        Who::Host => path.push_str("host"),
        Who::App(app) => {
            path.push_str("app.")?;
            push_app(path, app)
        }
    }
}

/// Puts the name of an application at the end of a path.
fn push_app(path: &mut Text, app: &AppId) -> Result<(), WantOfMemory>
    ensures { OnOk result (path.new ≡ path.old ++ app.now) }
{
    let Ok(name) = str::from_utf8(app.as_bytes()) else {
        unreachable!();
    };
    path.push_str(name)
}

/// What a socket's name ends with.
fn name_of(kind: Kind) -> &'static str
    ensures { result.now ≡ kind_name kind }
{
    match kind {
        Kind::Bus => ".bus",
        Kind::Mount => ".mount",
    }
}
