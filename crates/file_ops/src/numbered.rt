//! Numbers that are given to names below folders that are documents, and what connections
//! have by numbers.

ghost use Rattle.std.specs.Prelude.{◌≡◌, ◌<◌, ◌^◌, IfOk, IsSome, IsSomeAnd, List, Some, not, true};
ghost use Rattle.folder_documents.specs.Named.{CanName, named_on};
ghost use Rattle.portal_model.specs.declared.naming.Naming.{Naming as NamingNow};
ghost use Rattle.portal_model.specs.Lookup.{node_of_naming};
ghost use Rattle.portal_model.specs.NodeVerdict.{Names, NamesStay};
ghost use Rattle.portal_model.specs.Place.{id_of_node};
ghost use Rattle.portal_model.specs.SeatNames.{lacks_number, naming_of, temp_of};
ghost use Rattle.file_ops.specs.SeatNames.{SeatNamed, namings_on};
ghost use Rattle.file_ops.specs.SeatTemps.{HeldTemps, temps_on};
ghost use Rattle.node_looks.specs.Sights.{naming_by, temp_by};

use app_view::{id_of, node_of};
use folder_documents::{NamingError, Namings};
use node_looks::served::ByNumber;
use portal_base::memory::WantOfMemory;
use portal_model::naming::Naming;
use portal_model::place::Place;
use save_files::Temps;

/// What the connection of a seat has by the number in a node, whatever kind that is of.
pub(crate) fn by_number<'a>(
    namings: &'a Namings,
    temps: &'a Temps,
    seat: u32,
    node: u64,
) -> ByNumber<'a>
    ensures naming { (has : List NamingNow) → namings_on namings.now seat ≡ Some has →
        naming_by result ≡ naming_of has (id_of_node node) }
    ensures temp { (has : HeldTemps) → temps_on temps.now.seats seat ≡ Some has →
        temp_by result ≡ temp_of has.temps (id_of_node node) }
{
    let number = id_of(node);
    let naming = namings.get(seat, number);
    let temp = temps.get(seat, number);
    ByNumber { naming, temp }
}

/// Takes room for the number of a name on a seat; `false` exactly where the seat may name
/// no more, and hasn't named it.
pub(crate) fn take_number(
    namings: &mut Namings,
    seat: u32,
    naming: &Naming,
) -> Result<bool, WantOfMemory>
    requires { IsSome (named_on namings.old seat) }
    ensures full { (has : List NamingNow) → namings_on namings.old seat ≡ Some has →
        IfOk result (λ free. lacks_number has naming.now ≡ not free) }
    ensures room { IfOk result (λ free. free ≡ true →
        IsSomeAnd (named_on namings.new seat) (CanName naming.now)) }
    ensures kept { SeatNamed seat NamesStay namings.old namings.new }
{
    match namings.reserve(seat, naming) {
        Ok(()) => Ok(true),
        Err(NamingError::Full) => Ok(false),
        Err(NamingError::Memory) => Err(WantOfMemory),
    }
}

/// Gives a name the number for which room was taken: the node that it has in its view.
pub(crate) fn give_number(namings: &mut Namings, seat: u32, naming: Naming) -> u64
    requires room { IsSomeAnd (named_on namings.old seat) (CanName naming) }
    requires view { naming.view < 2 ^ 28 }
    ensures node { (has : List NamingNow) → namings_on namings.old seat ≡ Some has →
        result ≡ node_of_naming has naming }
    ensures names { SeatNamed seat (Names naming) namings.old namings.new }
{
    let view = naming.view;
    match namings.name(seat, naming) {
        Ok(k) => node_of(Place::Named { view, k }),
        Err(_) => unreachable!(),
    }
}
