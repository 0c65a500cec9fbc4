// Mixed durations: the number of different durations of the exams in each room and period.
ghost use Rattle.std.specs.Prelude.{◌≡◌, ◌<◌, ◌≤◌, ◌+◌, ◌-◌, ◌*◌, ℕ, length, IfOk, slice_index};
ghost use Rattle.exam_terms.specs.declared.limits.TheConstants.{MAX_EXAMS};
ghost use Rattle.exam_model.specs.Fits.{Suits};
ghost use Rattle.exam_publish.specs.Durations.{AreDurations};
ghost use Rattle.exam_model.specs.Sums.{sum_below};

use exam_model::{Instance, PeriodNo, Place, RoomNo, Timetable};
use exam_score::stays_of;
use std::alloc::{AllocError, Global};

/// Returns the number of different durations in each room and period.
pub(crate) fn durations(
    alloc: Global,
    instance: &Instance,
    timetable: &Timetable,
) -> Result<Vec<u32>, AllocError>
    requires { Suits instance.now timetable.now }
    ensures { IfOk result (λ kinds. AreDurations instance.now timetable.now kinds.items) }
{
    let places = instance.periods() * instance.rooms();
    let mut kinds = vec![in alloc; 0u32; places as usize]?;
    let mut stays = stays_of(alloc, instance, timetable)?;
    stays.sort_unstable();
    stays.dedup();
    'stays: for stay in &stays {
        let slot = instance.slot_of(Place {
            period: stay.period,
            room: stay.room,
        });
        let count = kinds[slot] + 1;
        kinds[slot] = count;
    }
    Ok(kinds)
}

/// Returns a room's mixed durations: its weight for each duration but one, over all periods.
pub(crate) fn mixed_in(instance: &Instance, kinds: &[u32], room: RoomNo) -> u64
    requires room { room < length instance.now.rooms }
    requires table { length kinds.now ≡ length instance.now.periods * length instance.now.rooms }
    requires small { (k : ℕ) → slice_index kinds.now k ≤ MAX_EXAMS }
    ensures { result ≡ sum_below (length instance.now.periods) (λ p.
        (slice_index kinds.now (p * length instance.now.rooms + room) - 1)
        * instance.now.weights.mixed) }
{
    let weight = u64::from(instance.weights().mixed);
    let mut total = 0;
    'periods: for period in 0..instance.periods() {
        let place = Place {
            period: PeriodNo::new(period),
            room,
        };
        let count = kinds[instance.slot_of(place)];
        total += u64::from(count.saturating_sub(1)) * weight;
    }
    total
}
