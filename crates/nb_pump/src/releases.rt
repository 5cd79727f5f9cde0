//! What is due comes back, and time goes on.
ghost use Rattle.std.specs.Prelude.{◌≡◌, max};
ghost use Rattle.nb_core.specs.Calls.{state_of};
ghost use Rattle.nb_core.specs.Paced.{IsOwnEmpty};
ghost use Rattle.nb_core.specs.Past.{constants};
ghost use Rattle.nb_pump.specs.Drains.{DueIs, ReleasesAre, Standing, WindIs};

use nb_base::{Moment, Waiting};
use nb_core::{Desk, DeskFault};

/// The first of the entries that are due by a moment.
pub fn due_by<D: Desk>(desk: &mut D, moment: Moment) -> Result<Option<Waiting>, DeskFault>
    requires { Standing (D.view desk.old) }
    ensures due { DueIs moment result (D.view desk.old) (D.view desk.new) }
    ensures stands { (start : D.Start) → D.stands start desk.old → D.stands start desk.new }
    ensures caused { D.caused desk.old → D.caused desk.new }
{
    match desk.next_due() {
        Ok(Some(next)) => {
            if next.due <= moment {
                Ok(Some(next))
            } else {
                Ok(None)
            }
        }
        Ok(None) => Ok(None),
        Err(fault) => Err(fault),
    }
}

/// Releases all that is due at most the moment, by due and then number.
pub fn release_due<D: Desk>(desk: &mut D, moment: Moment) -> Result<(), DeskFault>
    requires standing { Standing (D.view desk.old) }
    requires moment { (state_of (D.view desk.old)).moment ≡ moment }
    ensures releases { ReleasesAre result (D.view desk.old) (D.view desk.new) }
    ensures stands { (start : D.Start) → D.stands start desk.old → D.stands start desk.new }
    ensures caused { D.caused desk.old → D.caused desk.new }
{
    loop {
        let next = match due_by(desk, moment) {
            Ok(Some(next)) => next,
            Ok(None) => return Ok(()),
            Err(fault) => return Err(fault),
        };
        match desk.release(next.number) {
            Ok(()) => {}
            Err(fault) => return Err(fault),
        }
    }
}

/// The later of two moments.
fn later(a: Moment, b: Moment) -> Moment
    ensures { result ≡ max a b }
{
    if a < b { b } else { a }
}

/// Lets time go on until something stands in the own queue, and answers that moment; or answers
/// None where nothing is left that is due at most `until`.
pub fn wind<D: Desk>(
    desk: &mut D,
    moment: Moment,
    until: Moment,
) -> Result<Option<Moment>, DeskFault>
    requires standing { Standing (D.view desk.old) }
    requires moment { (state_of (D.view desk.old)).moment ≡ moment }
    requires empty { IsOwnEmpty (constants (D.view desk.old).fixed) (state_of (D.view desk.old)) }
    ensures wind { WindIs until result (D.view desk.old) (D.view desk.new) }
    ensures stands { (start : D.Start) → D.stands start desk.old → D.stands start desk.new }
    ensures caused { D.caused desk.old → D.caused desk.new }
{
    let mut now = moment;
    loop {
        let next = match due_by(desk, until) {
            Ok(Some(next)) => next,
            Ok(None) => return Ok(None),
            Err(fault) => return Err(fault),
        };
        now = later(now, next.due);
        match desk.tick(now) {
            Ok(()) => {}
            Err(fault) => return Err(fault),
        }
        match release_due(desk, now) {
            Ok(()) => {}
            Err(fault) => return Err(fault),
        }
        match desk.drained(now) {
            Ok(true) => {}
            Ok(false) => return Ok(Some(now)),
            Err(fault) => return Err(fault),
        }
    }
}
