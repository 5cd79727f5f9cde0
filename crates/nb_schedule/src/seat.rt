//! What is kept of the workers.
ghost use Rattle.std.specs.Prelude.{◌≡◌, IsSome, IsTrue, OnOk, OnErr, None, Some};
ghost use Rattle.std.specs.FinMap as map;
ghost use Rattle.nb_schedule.specs.Seats.{put_seat, left_at, seat_after};

use nb_base::{ByNumber, Envelope, NoMemory, Reads};
use nb_core::Settled;

/// What is kept of a worker; of an idle one nothing is.
#[derive(Drop)]
pub enum Seat {
    /// It took the entry of this message.
    Held(Envelope),
    /// It looked for this message, and this is what it read.
    Looked { envelope: Envelope, reads: Reads },
    /// It sends its batch.
    Sending,
    /// It puts a copy aside.
    Leaving,
    /// It is done but for the removal.
    Done,
    /// Nothing is known of it.
    Lost,
}

/// Keeps of an idle worker that nothing is known of it. Where there is no memory it stays idle.
pub fn forget(seats: &mut ByNumber<Seat>, w: u32) -> Result<(), NoMemory>
    ensures ok { OnOk result (seats.new ≡ map.insert seats.old w Seat.Lost) }
    ensures err { OnErr result (seats.new ≡ seats.old) }
{
    seats.insert(u64::from(w), Seat::Lost)
}

/// Takes out what is kept of a worker, and forgets it for the time being.
pub fn leave(seats: &mut ByNumber<Seat>, w: u32) -> Option<Seat>
    ensures value { result ≡ map.get seats.old w }
    ensures rest { seats.new ≡ left_at seats.old w (map.get seats.old w) }
{
    if seats.get(u64::from(w)).is_none() {
        return None;
    }
    Some(seats.replace(u64::from(w), Seat::Lost))
}

/// Puts down what a worker is at, which isn't idle. An idle one isn't there.
pub fn sit(seats: &mut ByNumber<Seat>, w: u32, seat: Option<Seat>)
    requires { IsSome (map.get seats.old w) }
    ensures { seats.new ≡ put_seat seats.old w seat }
{
    match seat {
        Some(seat) => {
            seats.replace(u64::from(w), seat);
        }
        None => seats.remove(u64::from(w)),
    }
}

/// Whether a worker is idle.
pub fn is_idle(seats: &ByNumber<Seat>, w: u32) -> bool
    ensures { IsTrue result → map.get seats.now w ≡ None }
{
    seats.get(u64::from(w)).is_none()
}

/// Whether a worker sends its batch.
pub fn is_sending(seats: &ByNumber<Seat>, w: u32) -> bool
    ensures { IsTrue result → map.get seats.now w ≡ Some Seat.Sending }
{
    matches!(seats.get(u64::from(w)), Some(Seat::Sending))
}

/// Whether a worker puts a copy aside.
pub fn is_leaving(seats: &ByNumber<Seat>, w: u32) -> bool
    ensures { IsTrue result → map.get seats.now w ≡ Some Seat.Leaving }
{
    matches!(seats.get(u64::from(w)), Some(Seat::Leaving))
}

/// Whether a worker is done but for the removal.
pub fn is_done(seats: &ByNumber<Seat>, w: u32) -> bool
    ensures { IsTrue result → map.get seats.now w ≡ Some Seat.Done }
{
    matches!(seats.get(u64::from(w)), Some(Seat::Done))
}

/// Whether every worker is idle.
pub fn is_empty(seats: &ByNumber<Seat>) -> bool
    ensures { IsTrue result → (w : _) → map.get seats.now w ≡ None }
{
    match seats.iter().next() {
        None => true,
        Some(_) => false,
    }
}

/// What a worker is at behind a Settle.
pub fn seat_after(settled: &Settled) -> Option<Seat>
    ensures { result ≡ seat_after settled.now }
{
    match settled {
        Settled::Committed(_) => Some(Seat::Sending),
        Settled::Twin { sent: true } => Some(Seat::Done),
        Settled::Twin { sent: false } => Some(Seat::Sending),
        Settled::Again(_) => None,
        Settled::Later(_) => Some(Seat::Leaving),
        Settled::Error(_) => Some(Seat::Leaving),
        Settled::Discarded(_) => Some(Seat::Done),
    }
}
