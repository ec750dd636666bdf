//! The posts of the services: two mounts, of which one may have no link, or a bus.

use crate::hold::{Hold, Steps};
use crate::links::{Links, links};
use portal_base::list::List;
use portal_base::names::AppId;
use portal_base::who::{Kind, Who};
use std::alloc::Global;
use vector_lines::error::LineError;
use worker_gate::worker::Post;

/// The posts of a service.
pub type Posts<'a> = List<Post<Links<'a>>>;

/// A GETATTR of the document's file (include/uapi/linux/fuse.h: fuse_in_header,
/// fuse_getattr_in).
const GETATTR: &str = "38000000 03000000 0100000000000000 0a00000002000000 e8030000 e8030000 \
    01000000 00000000 00000000 00000000 0000000000000000";

/// What comes first (D-Bus Specification, "Authentication Protocol").
const HANDSHAKE: &str = "00 \"AUTH EXTERNAL 31303030\\r\\nBEGIN\\r\\n\"";

/// A Ping with the serial 1 (D-Bus Specification, "org.freedesktop.DBus.Peer").
const PING: &str = "6c010001 00000000 01000000 45000000 01016f00 01000000 2f000000 00000000 \
    02017300 19000000 \"org.freedesktop.DBus.Peer\" 00 000000000000 03017300 04000000 \"Ping\" \
    00 000000";

/// Puts the posts of a service behind others: a bus of the host, whose message comes only once
/// the handshake is answered; or a mount of the host and one of an application, on each link of
/// which the attributes of the document's file are asked. Where workers are held each has one
/// link; in rounds the host's has three, and the application's none. Their connections are polled
/// or not.
pub fn put_posts<'a>(
    alloc: Global,
    posts: &mut Posts<'a>,
    answered: &'a Steps,
    hold: Hold,
    polled: bool,
) -> Result<(), LineError> {
    let (of_host, of_app) = match hold {
        Hold::Nobody => {
            let bus = links(alloc, answered, 1, HANDSHAKE, PING);
            return put(posts, bus, Who::Host, Kind::Bus, polled);
        }
        Hold::NobodyInRounds => (3, 0),
        Hold::AtFirst | Hold::AtSecond { worker: _ } => (1, 1),
    };
    put(
        posts,
        links(alloc, answered, of_host, GETATTR, ""),
        Who::Host,
        Kind::Mount,
        polled,
    )?;
    let app = AppId::read(alloc, b"org.ed")?;
    put(
        posts,
        links(alloc, answered, of_app, GETATTR, ""),
        Who::App(app),
        Kind::Mount,
        polled,
    )
}

fn put<'a>(
    posts: &mut Posts<'a>,
    listener: Result<Links<'a>, LineError>,
    who: Who,
    kind: Kind,
    polled: bool,
) -> Result<(), LineError> {
    match listener {
        Ok(listener) => match posts.push(Post {
            listener,
            who,
            kind,
            polled,
        }) {
            Ok(()) => Ok(()),
            Err(error) => Err(LineError::from(error)),
        },
        Err(error) => {
            drop(who);
            Err(error)
        }
    }
}
