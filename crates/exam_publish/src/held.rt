// The kept seats, and the free ones between them.
ghost use Rattle.std.specs.Prelude.{◌≡◌, ◌≤◌, length, All, IfOk};
ghost use Rattle.std.specs.List.{list_any};
ghost use Rattle.std.specs.List.Sorted.{IsSorted};
ghost use Rattle.exam_terms.specs.declared.limits.TheConstants.{MAX_AMOUNT};
ghost use Rattle.exam_publish.specs.Seating.{AreHeld, AreNeeded, EntrantExists, IsNextFree, KeepsOwnPlace, KeepsSmallSeat, compare_held, is_held};

use crate::entrants::Entrant;
use exam_model::{Instance, PeriodNo, Place, RoomNo};
use std::alloc::{AllocError, Global};

/// A kept seat; ordered by period, then room, then seat.
#[derive(Clone, Copy, PartialEq, Eq, PartialOrd, Ord)]
pub(crate) struct Held {
    pub period: PeriodNo,
    pub room: RoomNo,
    pub seat: u32,
}

/// Returns the seats that entrants keep in the rooms and periods in which others need a seat, in
/// order.
pub(crate) fn held_seats(
    alloc: Global,
    instance: &Instance,
    entrants: &[Entrant],
) -> Result<Vec<Held>, AllocError>
    requires exist { All (EntrantExists instance.now) entrants.now }
    requires small { All KeepsSmallSeat entrants.now }
    requires placed { All KeepsOwnPlace entrants.now }
    ensures { IfOk result (λ held. AreHeld entrants.now held.items) }
{
    let needed = needed_slots(alloc, instance, entrants)?;
    let mut held = Vec::new(alloc);
    'entrants: for entrant in entrants {
        let Some(row) = entrant.kept else {
            continue;
        };
        let slot = instance.slot_of(entrant.place);
        if !needed[slot] {
            continue;
        }
        held.push(Held {
            period: row.period,
            room: row.room,
            seat: row.seat,
        })?;
    }
    held.sort_unstable();
    Ok(held)
}

// Returns for each room and period whether an entrant who keeps no seat needs one there.
fn needed_slots(
    alloc: Global,
    instance: &Instance,
    entrants: &[Entrant],
) -> Result<Vec<bool>, AllocError>
    requires { All (EntrantExists instance.now) entrants.now }
    ensures { IfOk result (λ needed. AreNeeded (length instance.now.periods)
        (length instance.now.rooms) entrants.now (length entrants.now) needed.items) }
{
    let places = instance.periods() * instance.rooms();
    let mut needed = vec![in alloc; false; places as usize]?;
    'entrants: for entrant in entrants {
        if entrant.kept.is_some() {
            continue;
        }
        let slot = instance.slot_of(entrant.place);
        needed[slot] = true;
    }
    Ok(needed)
}

/// Returns the least seat, from this one on, that no entrant keeps in a room and period.
pub(crate) fn next_free(held: &[Held], place: &Place, from: u32) -> u32
    requires sorted { IsSorted compare_held held.now }
    requires small { All (λ h. h.seat ≤ MAX_AMOUNT) held.now }
    ensures { IsNextFree held.now place.now from result }
{
    let mut seat = from;
    'seats: while is_held(held, place, seat) {
        seat += 1;
    }
    seat
}

// Returns whether an entrant keeps this seat.
fn is_held(held: &[Held], place: &Place, seat: u32) -> bool
    requires { IsSorted compare_held held.now }
    ensures { result ≡ list_any (is_held place.now seat) held.now }
{
    let searched = Held {
        period: place.period,
        room: place.room,
        seat,
    };
    held.binary_search(&searched).is_ok()
}
