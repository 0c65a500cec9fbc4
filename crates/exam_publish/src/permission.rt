// Whether a timetable may be published.
ghost use Rattle.std.specs.Prelude.{◌≡◌, None, false, IfErr, OnOk};
ghost use Rattle.exam_model.specs.Fits.{Fits};
ghost use Rattle.exam_publish.specs.Permit.{publish_refusal, IsComplete, NamesCause, RefusesPublication};
ghost use Rattle.exam_rules.specs.Breaches.{is_breach};
ghost use Rattle.exam_rules.specs.declared.breach.Breach.{Breach};

use crate::fault::PublishFault;
use exam_model::{Enrolments, Instance, Timetable};
use exam_rules::breaches;
use std::alloc::Global;

/// Returns `Ok` if a timetable may be published: each exam has a place, and no hard rule is broken.
pub fn permit(
    alloc: Global,
    instance: &Instance,
    enrolments: &Enrolments,
    timetable: &Timetable,
) -> Result<(), PublishFault>
    requires { Fits instance.now enrolments.now timetable.now }
    ensures ok { OnOk result (publish_refusal instance.now enrolments.now timetable.now ≡ None) }
    ensures complete { OnOk result (IsComplete timetable.now) }
    ensures unbroken { OnOk result ((b : Breach)
        → is_breach instance.now enrolments.now timetable.now b ≡ false) }

    // An exam without a place is named before any breach.
    ensures refused { IfErr result
        (RefusesPublication instance.now enrolments.now timetable.now) }
    ensures cause { IfErr result (NamesCause instance.now enrolments.now timetable.now) }
{
    if let Some(exam) = timetable.complete() {
        return Err(PublishFault::Unplaced(exam));
    }
    let found = breaches(alloc, instance, enrolments, timetable)?;
    let least = found.first().copied();
    match least {
        Some(breach) => Err(PublishFault::Broken(breach)),
        None => Ok(()),
    }
}
