//! The folder of a service's files, opened ahead of all else.
//!
//! A tree starts threads that share its handle. That the handle may be shared is known of a
//! function's parameter, and not where `Openers` is implemented; so the folder is opened here, and
//! handed over in its turn.

ghost use Rattle.std.specs.Prelude.{◌≤◌};
ghost use Rattle.serve_words.specs.Words.{IsInForm};

use host_real::{OpenError, RealTree, System, files_beside};
use portal_base::text::Text;
use serve_start::files::files_wanted;
use serve_words::words::{ServeAsk, ServeWords, read_words};

/// What opening the folder of a service's files came to.
pub(crate) type Root<R> = Result<RealTree<R>, OpenError>;

/// Opens the folder that words name, where they ask for a service and so many files are open
/// before it.
pub(crate) fn root_of_words<R: System>(
    rt: &R,
    system: &HostRuntime,
    held: u64,
    words: &[Text],
) -> Option<Root<R>>
    requires { held ≤ 1000000 }
{
    match read_words(system.alloc(), words) {
        Ok(ServeAsk::Serve(words)) => Some(root_of(rt, system, held, &words)),
        _ => None,
    }
}

/// Opens the folder of a service's files, beside which its other files have room.
fn root_of<R: System>(rt: &R, system: &HostRuntime, held: u64, words: &ServeWords) -> Root<R>
    requires held { held ≤ 1000000 }
    requires form { IsInForm words.now }
{
    let sockets = 2 + 2 * words.apps.len() as u64;
    let posts = sockets * u64::from(words.workers);
    let kept = files_beside(files_wanted(held, sockets, posts));
    RealTree::open(*rt, *system, system.alloc(), words.root.as_str(), kept)
}
