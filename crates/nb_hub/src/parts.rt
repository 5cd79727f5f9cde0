//! Small changes of what a hub keeps in memory.
ghost use Rattle.std.specs.Prelude.{◌≡◌, is_some};
ghost use Rattle.nb_base.specs.Orders.{ByNumber};
ghost use Rattle.std.specs.FinMap as map;

use nb_base::ByNumber;

/// Takes the note back that an entry was put back, unless it was noted before.
pub fn unmark(back: &mut ByNumber<()>, number: u64, was_back: bool)
    ensures { (old : ByNumber (Unit {0})) → was_back ≡ is_some (map.get old number) → back.old ≡ map.insert old number tt → back.new ≡ old }
{
    if !was_back {
        back.remove(number);
    }
}
