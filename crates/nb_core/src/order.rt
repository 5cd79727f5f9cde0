//! Which events may come, as far as their order says.
ghost use Rattle.std.specs.Prelude.{◌≡◌, ◌↔◌, ◌∷◌, [], true, IsTrue};
ghost use Rattle.nb_core.specs.Legal.{IsOfWorker, MayFollow, TakesFrom, is_halt};
ghost use Rattle.nb_core.specs.Past.{taken as takes_after};

use crate::event::Event;

/// Whether the event is one of a worker below this number, or of none.
pub fn is_of_worker(workers: u32, event: &Event) -> bool
    ensures { IsTrue result ↔ IsOfWorker workers event.now }
{
    match event {
        Event::Load { envelope: _ } => true,
        Event::Take { w } => *w < workers,
        Event::Look { w } => *w < workers,
        Event::Settle { w } => *w < workers,
        Event::Send { w } => *w < workers,
        Event::Mark { w } => *w < workers,
        Event::Aside { w } => *w < workers,
        Event::Remove { w } => *w < workers,
        Event::Tick { to: _ } => true,
        Event::Release { number: _ } => true,
        Event::Purge { id: _ } => true,
        Event::PutBack { number: _ } => true,
        Event::DropBack { number: _ } => true,
        Event::Stop { moment: _ } => true,
        Event::Halt { store: _ } => true,
    }
}

/// Whether the event may follow a Halt.
fn is_stop(event: &Event) -> bool
    ensures { IsTrue result ↔ MayFollow true (event.now ∷ []) }
{
    match event {
        Event::Load { envelope: _ } => false,
        Event::Take { w: _ } => false,
        Event::Look { w: _ } => false,
        Event::Settle { w: _ } => false,
        Event::Send { w: _ } => false,
        Event::Mark { w: _ } => false,
        Event::Aside { w: _ } => false,
        Event::Remove { w: _ } => false,
        Event::Tick { to: _ } => false,
        Event::Release { number: _ } => false,
        Event::Purge { id: _ } => false,
        Event::PutBack { number: _ } => false,
        Event::DropBack { number: _ } => false,
        Event::Stop { moment: _ } => true,
        Event::Halt { store: _ } => false,
    }
}

/// Whether the event may follow, where a Halt may have come just before.
pub fn may_follow(halted: bool, event: &Event) -> bool
    ensures { IsTrue result ↔ MayFollow halted (event.now ∷ []) }
{
    if halted { is_stop(event) } else { true }
}

/// Whether there is a turn for the event, where so many Takes came since the last Stop.
pub fn has_turn(turns: u64, taken: u64, event: &Event) -> bool
    ensures { IsTrue result ↔ TakesFrom turns taken (event.now ∷ []) }
{
    match event {
        Event::Load { envelope: _ } => true,
        Event::Take { w: _ } => taken < turns,
        Event::Look { w: _ } => true,
        Event::Settle { w: _ } => true,
        Event::Send { w: _ } => true,
        Event::Mark { w: _ } => true,
        Event::Aside { w: _ } => true,
        Event::Remove { w: _ } => true,
        Event::Tick { to: _ } => true,
        Event::Release { number: _ } => true,
        Event::Purge { id: _ } => true,
        Event::PutBack { number: _ } => true,
        Event::DropBack { number: _ } => true,
        Event::Stop { moment: _ } => true,
        Event::Halt { store: _ } => true,
    }
}

/// The Takes since the last Stop, the event included.
pub fn taken_with(turns: u64, taken: u64, event: &Event) -> u64
    requires { TakesFrom turns taken (event.now ∷ []) }
    ensures { result ≡ takes_after taken (event.now ∷ []) }
{
    match event {
        Event::Load { envelope: _ } => taken,
        Event::Take { w: _ } => taken + 1,
        Event::Look { w: _ } => taken,
        Event::Settle { w: _ } => taken,
        Event::Send { w: _ } => taken,
        Event::Mark { w: _ } => taken,
        Event::Aside { w: _ } => taken,
        Event::Remove { w: _ } => taken,
        Event::Tick { to: _ } => taken,
        Event::Release { number: _ } => taken,
        Event::Purge { id: _ } => taken,
        Event::PutBack { number: _ } => taken,
        Event::DropBack { number: _ } => taken,
        Event::Stop { moment: _ } => 0,
        Event::Halt { store: _ } => taken,
    }
}

/// Whether the event is a Halt.
pub fn is_halt(event: &Event) -> bool
    ensures { result ≡ is_halt event.now }
{
    match event {
        Event::Load { envelope: _ } => false,
        Event::Take { w: _ } => false,
        Event::Look { w: _ } => false,
        Event::Settle { w: _ } => false,
        Event::Send { w: _ } => false,
        Event::Mark { w: _ } => false,
        Event::Aside { w: _ } => false,
        Event::Remove { w: _ } => false,
        Event::Tick { to: _ } => false,
        Event::Release { number: _ } => false,
        Event::Purge { id: _ } => false,
        Event::PutBack { number: _ } => false,
        Event::DropBack { number: _ } => false,
        Event::Stop { moment: _ } => false,
        Event::Halt { store: _ } => true,
    }
}
