//! What a service stands on, opened.

ghost use Rattle.std.specs.Prelude.{◌≡◌, ◌≤◌, ◌*◌, ◌+◌, ◌++◌, ℕ, List, IfOk, OnOk, length, map, replicate};
ghost use Rattle.portal_start.specs.Loading.{BeganFirst};
ghost use Rattle.serve_start.specs.Guids.{DrawsGuid};
ghost use Rattle.serve_start.specs.Openings.{Opens};
ghost use Rattle.serve_start.specs.Posts.{ListenAt, bound_at, bound_of, paths_of, posts_of};
ghost use Rattle.serve_start.specs.Services.{IsService};
ghost use Rattle.serve_start.specs.Settings.{settings_with};
ghost use Rattle.serve_start.specs.Sockets.{sockets_in};
ghost use Rattle.serve_words.specs.Words.{IsInForm};

use crate::end::ServeEnd;
use crate::files::files_wanted;
use crate::guid::guid_of;
use crate::openers::Openers;
use crate::settings::settings;
use crate::sockets::{Socket, sockets_of};
use host_tree::HostTree;
use portal_base::limits::Settings;
use portal_base::list::List;
use portal_base::memory::Replica;
use portal_base::outside::Words;
use serve_words::words::ServeWords;
use std::alloc::Global;
use worker_gate::worker::Post;

/// What a service stands on.
#[derive(Drop)]
pub(crate) struct Prepared<L, T, K, C, W> {
    pub(crate) posts: List<Post<L>>,
    pub(crate) tree: T,
    pub(crate) keeper: K,
    pub(crate) clock: C,
    pub(crate) words: W,
    pub(crate) settings: Settings,
}

/// What a service of these words stands on, opened in this order: what it needs of files and
/// threads, the folder of its files, random words, its sockets, the store, and its posts.
pub(crate) fn prepare<O, L, T, K, C, W>(
    alloc: Global,
    words: &ServeWords,
    openers: &mut O,
) -> Result<Prepared<L, T, K, C, W>, ServeEnd>
where
    O: Openers<L, T, K, C, W>,
    L: Drop,
    T: HostTree + Drop,
    K: Drop,
    C: Drop,
    W: Words + Drop,
    requires { IsInForm words.now }
    ensures opens { Opens (O.faults openers.old) result (O.faults openers.new) }
    ensures service { IfOk result (λ p. IsService O.at T.is W.told words.now p.posts p.tree p.words
        p.settings) }
    ensures count { IfOk result (λ p. (1 ≤ length p.posts) × (length p.posts ≤ 65535)) }
{
    let sockets = sockets_of(alloc, &words.sockets, words.apps.as_slice())?;
    let tree = open_tree(openers, words, sockets.len())?;
    let (drawn, settings) = draw(alloc, words.history, openers)?;
    openers.tell(words);
    openers.make_sockets(&words.sockets, sockets.as_slice())?;
    let keeper = openers.open_store(&words.store)?;
    let posts = posts_at(
        alloc,
        openers,
        sockets.as_slice(),
        words.workers,
        words.polled,
    )?;
    Ok(Prepared {
        posts,
        tree,
        keeper,
        clock: openers.clock(),
        words: drawn,
        settings,
    })
}

/// The tree of a service's files, once there are files and threads enough.
fn open_tree<O, L, T, K, C, W>(
    openers: &mut O,
    words: &ServeWords,
    sockets: usize,
) -> Result<T, ServeEnd>
where
    O: Openers<L, T, K, C, W>,
    T: HostTree,
    requires form { IsInForm words.now }
    requires sockets { sockets ≤ 130 }
    ensures opens { Opens (O.faults openers.old) result (O.faults openers.new) }
    ensures began { IfOk result (λ tree. (T.is tree).told ≡ (T.is tree).began) }
    ensures first { IfOk result (λ tree. BeganFirst (T.is tree).began) }
{
    let posts = sockets * words.workers as usize;
    let wanted = files_wanted(openers.files_open(), sockets as u64, posts as u64);
    openers.see_files(wanted)?;
    openers.see_threads(posts)?;
    openers.open_root(&words.root, wanted)
}

/// Words that nobody can foresee, and the settings with a guid that was drawn of them.
fn draw<O, L, T, K, C, W>(
    alloc: Global,
    history: u64,
    openers: &mut O,
) -> Result<(W, Settings), ServeEnd>
where
    O: Openers<L, T, K, C, W>,
    T: HostTree,
    W: Words + Drop,
    ensures opens { Opens (O.faults openers.old) result (O.faults openers.new) }
    ensures draws { IfOk result (λ drawn. (seed : W)
        × DrawsGuid (W.told seed) drawn.1.guid (W.told drawn.0)) }
    ensures settings { IfOk result (λ drawn. drawn.1 ≡ settings_with history drawn.1.guid) }
{
    let mut words = openers.open_words()?;
    let guid = guid_of(&mut words);
    let settings = settings(alloc, history, guid)?;
    Ok((words, settings))
}

/// So many posts at each socket, one behind the other.
fn posts_at<O, L, T, K, C, W>(
    alloc: Global,
    openers: &mut O,
    sockets: &[Socket],
    workers: u32,
    polled: bool,
) -> Result<List<Post<L>>, ServeEnd>
where
    O: Openers<L, T, K, C, W>,
    L: Drop,
    T: HostTree,
    ensures opens { Opens (O.faults openers.old) result (O.faults openers.new) }
    ensures bound { IfOk result (λ posts. map bound_of posts ≡ posts_of workers polled sockets.now) }
    ensures listen { IfOk result (λ posts. ListenAt O.at posts (paths_of workers sockets.now)) }
    ensures count { IfOk result (λ posts. length posts ≡ workers * length sockets.now) }
{
    let mut posts = List::new(alloc);
    for socket in sockets {
        add_posts(alloc, openers, &mut posts, socket, workers, polled)?;
    }
    Ok(posts)
}

/// Adds the posts at a socket.
fn add_posts<O, L, T, K, C, W>(
    alloc: Global,
    openers: &mut O,
    posts: &mut List<Post<L>>,
    socket: &Socket,
    workers: u32,
    polled: bool,
) -> Result<(), ServeEnd>
where
    O: Openers<L, T, K, C, W>,
    L: Drop,
    T: HostTree,
    ensures opens { Opens (O.faults openers.old) result (O.faults openers.new) }
    ensures bound { OnOk result (map bound_of posts.new
        ≡ map bound_of posts.old ++ replicate workers (bound_at polled socket.now)) }
    ensures listen { (paths : List (List ℕ)) → ListenAt O.at posts.old paths
        → OnOk result (ListenAt O.at posts.new (paths ++ replicate workers socket.now.path)) }
    ensures count { OnOk result (length posts.new ≡ length posts.old + workers) }
{
    for _ in 0..workers {
        posts.push(Post {
            listener: openers.listen(socket)?,
            who: socket.who.replica(alloc)?,
            kind: socket.kind,
            polled,
        })?;
    }
    Ok(())
}
