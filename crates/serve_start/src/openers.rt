//! What a service is opened from.

ghost use Rattle.std.specs.Prelude.{◌≡◌, ◌≤◌, ◌⊎◌, ℕ, List, IfErr, IfOk};
ghost use Rattle.portal_start.specs.Loading.{BeganFirst};
ghost use Rattle.serve_start.specs.Openings.{IsFewFiles, IsOfRoot, IsOfSeed, IsOfSocket, IsOfStore, IsOfThreads, Opens};

use crate::end::ServeEnd;
use crate::sockets::Socket;
use host_tree::HostTree;
use portal_base::memory::WantOfMemory;
use portal_base::text::Text;
use serve_words::words::ServeWords;

/// What a service is opened from: descriptors, threads, the folder of its files, random words,
/// sockets and a store.
///
/// An opening that is refused raises the count of faults, and nothing else does.
pub trait Openers<L, T: HostTree, K, C, W> {
    /// How many openings were refused.
    ghost faults: { Self → ℕ };

    /// Whether a listener is at a path, where that is told.
    ghost at: { L → List ℕ → Type 0 };

    /// How many files the process has open, at most a million.
    fn files_open(&self) -> u64
        ensures { result ≤ 1000000 };

    /// Makes sure that so many files may be open at once.
    fn see_files(&mut self, wanted: u64) -> Result<(), ServeEnd>
        ensures opens { Opens (faults self.old) result (faults self.new) }
        ensures end { IfErr result (IsFewFiles wanted) };

    /// Makes sure that there are threads for so many posts.
    fn see_threads(&mut self, posts: usize) -> Result<(), ServeEnd>
        requires { posts ≤ 1040 }
        ensures opens { Opens (faults self.old) result (faults self.new) }
        ensures end { IfErr result IsOfThreads };

    /// The tree of the files below a folder, which leaves room for so many files that are open
    /// beside it. One that tells its files has those that it began with, each the first of its
    /// path and present.
    fn open_root(&mut self, root: &Text, beside: u64) -> Result<T, ServeEnd>
        ensures opens { Opens (faults self.old) result (faults self.new) }
        ensures end { IfErr result IsOfRoot }
        ensures began { IfOk result (λ tree. (T.is tree).told ≡ (T.is tree).began) }
        ensures first { IfOk result (λ tree. BeganFirst (T.is tree).began) };

    /// Words that nobody can foresee.
    fn open_words(&mut self) -> Result<W, ServeEnd>
        ensures opens { Opens (faults self.old) result (faults self.new) }
        ensures end { IfErr result IsOfSeed };

    /// The clock.
    fn clock(&self) -> C;

    /// Is told of a service that is about to get its sockets.
    fn tell(&self, words: &ServeWords);

    /// Makes the sockets in their folder, where they stand once all posts are about to accept.
    fn make_sockets(&mut self, folder: &Text, sockets: &[Socket]) -> Result<(), ServeEnd>
        ensures opens { Opens (faults self.old) result (faults self.new) }
        ensures end { IfErr result IsOfSocket };

    /// A listener at a socket that was made.
    fn listen(&mut self, socket: &Socket) -> Result<L, ServeEnd>
        ensures opens { Opens (faults self.old) result (faults self.new) }
        ensures end { IfErr result IsOfSocket }
        ensures at { IfOk result (λ listener. at listener socket.now.path) };

    /// The store in a file.
    fn open_store(&mut self, store: &Text) -> Result<K, ServeEnd>
        ensures opens { Opens (faults self.old) result (faults self.new) }
        ensures end { IfErr result IsOfStore };

    /// So many posts are about to begin.
    fn expect(&mut self, posts: u64)
        ensures { faults self.new ≡ faults self.old };

    /// All posts have ended: whether their sockets stood. They don't where one can't be put in
    /// its place, or some posts had no thread.
    fn close(&mut self) -> Result<(), ServeEnd>
        ensures opens { Opens (faults self.old) result (faults self.new) }
        ensures end { IfErr result (λ end. IsOfSocket end ⊎ IsOfThreads end) };

    /// What a store says of the fault that it met.
    fn fault_of(&self, keeper: &K) -> Result<String, WantOfMemory>;
}
