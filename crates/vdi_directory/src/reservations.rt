ghost use Rattle.std.specs.Prelude.{◌≡◌, ◌==◌, not, filter, List};
ghost use Rattle.std.specs.Option.{option_copied};
ghost use Rattle.std.specs.List.{list_any};
ghost use Rattle.vdi_directory.specs.declared.effect.Reservation.{Reservation};
ghost use Rattle.vdi_directory.specs.Effects.{reservations_but, reservation_on};
ghost use Rattle.vdi_directory.specs.Decisions.{names_reservation};

use crate::effect::Reservation;
use object_id::{NodeId, Vid};

/// The reservation on an id. Reservations stand while a command is under way, so they are few.
pub fn reservation_on(reservations: &[Reservation], vid: Vid) -> Option<&Reservation>
    ensures { option_copied result ≡ reservation_on vid reservations.now }
{
    reservations
        .iter()
        .find(|reservation| reservation.vid == vid)
}

fn names_reservation(reservation: &Reservation, name: &[u8]) -> bool
    ensures { result ≡ names_reservation name.now reservation.now }
{
    reservation.name.as_slice() == name
}

/// Whether a reservation of the name stands.
pub fn is_reserved(reservations: &[Reservation], name: &[u8]) -> bool
    ensures { result ≡ list_any (names_reservation name.now) reservations.now }
{
    reservations
        .iter()
        .any(|reservation| names_reservation(reservation, name))
}

/// Lets the reservation of an id go.
pub fn drop_reservation(reservations: &mut Vec<Reservation>, vid: Vid)
    ensures { reservations.new.items ≡ reservations_but vid reservations.old.items }
{
    reservations.retain(|reservation| reservation.vid != vid);
}

/// Lets the reservations of a node go.
pub fn drop_reservations_of(reservations: &mut Vec<Reservation>, node: NodeId)
    ensures { reservations.new.items ≡ filter (λ (reservation : Reservation). not (reservation.by.0 == node.0)) reservations.old.items }
{
    reservations.retain(|reservation| reservation.by != node);
}
