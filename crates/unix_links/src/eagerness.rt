//! How eagerly a client is waited for.

/// How often a read looks whether something comes before it sleeps. Together these looks take some
/// thirty microseconds, which is about what it costs both sides that it is put to sleep and woken.
const LOOKS: u64 = 100;

/// For how many waits at most nothing is looked for.
const LONGEST_PAUSE: u32 = 64;

/// How eagerly a client is waited for.
///
/// A client that sends its next request as soon as it is answered is looked for ahead of a wait.
/// Behind looks that were in vain there are none for a while, for twice as many waits each time: so
/// a client that takes its time costs next to nothing.
#[derive(Clone, Copy)]
pub(crate) struct Eagerness {
    /// For how many waits nothing is looked for behind looks in vain.
    pause: u32,
    /// How many of these waits are left.
    left: u32,
}

impl Eagerness {
    /// That of a new client, which is looked for.
    pub(crate) fn new() -> Eagerness {
        Eagerness { pause: 0, left: 0 }
    }

    /// How many looks there are ahead of the next wait.
    pub(crate) fn looks(&self) -> u64 {
        if self.left == 0 { LOOKS } else { 0 }
    }

    /// All looks were in vain, or there were none, and a wait begins.
    pub(crate) fn waits(&mut self) {
        if self.left > 0 {
            self.left = self.left.saturating_sub(1);
        } else {
            self.pause = self.pause.saturating_mul(2).clamp(1, LONGEST_PAUSE);
            self.left = self.pause;
        }
    }

    /// Something came at the look of this number, of so many: not at the first of all, and not
    /// behind a wait, where looks paid off.
    pub(crate) fn is_served(&mut self, look: u64, looks: u64) {
        if 0 < look && look <= looks {
            self.pause = 0;
        }
    }
}
