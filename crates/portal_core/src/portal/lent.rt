//! Devices of a portal that are lent.

ghost use Rattle.std.specs.Prelude.{◌≡◌};

use crate::portal::Portal;
use host_tree::HostTree;
use portal_base::outside::{Clock, Words};
use record_keeper::Keeper;

impl<T: HostTree, K: Keeper, C: Clock, W: Words> Portal<T, K, C, W> {
    ghost use Rattle.std.specs.Borrow.{Lends, sem};
    ghost use Rattle.portal_core.specs.contracts.portal.Portal.{the_row};

    /// The clock, through which nothing else changes.
    pub fn clock_mut(&mut self) -> &mut C
        ensures value { result.now ≡ self.old.clock }
        ensures* lends { sem 𝓛 (Lends (the_row T.row K.row C.row W.row T.HostTree K.Keeper
            C.Clock W.Words) C.row self.entry result
            (λ clock. record self.old { clock = clock })) }
    {
        &mut self.clock
    }

    /// The words to come, through which nothing else changes.
    pub fn words_mut(&mut self) -> &mut W
        ensures value { result.now ≡ self.old.words }
        ensures* lends { sem 𝓛 (Lends (the_row T.row K.row C.row W.row T.HostTree K.Keeper
            C.Clock W.Words) W.row self.entry result
            (λ words. record self.old { words = words })) }
    {
        &mut self.words
    }
}
