//! The index.
ghost use Rattle.std.specs.Prelude.{◌≡◌, ◌+◌, OnOk, OnErr, IsSome, is_some, nat_lt, None, true, false};
ghost use Rattle.std.specs.FinMap as finite;
ghost use Rattle.nb_ready.specs.Seats.{Has, HasA, fresh, is_free, changed_at, counts_of, IsLeastFree, IsFirstDue};
ghost use Rattle.nb_ready.specs.declared.seat.Seat.{Seat};

use crate::seat::Seat;
use crate::tree::Tree;
use nb_base::{Count, Moment, NoMemory, Waiting};
use std::alloc::Global;
use std::marker::Model;

/// Numbers, each with the moment until which it waits or none, whether it is held, and how often it failed. A number
/// is free where it doesn't wait and isn't held. Only `add` takes memory.
#[derive(Drop)]
pub struct Ready {
    tree: Tree,
    len: usize,
    // Room for the count of each number.
    room: Vec<Count>,
}

impl Model for Ready {
    ghost use Rattle.std.specs.Prelude.{vec_len, vec_capacity};
    ghost use Rattle.nb_ready.specs.Seats.{Seats, seats_code, IsReady};

    ghost Value = { Seats };

    ghost coded = { seats_code };

    ghost view = { λ r. r.tree.0 };

    ghost invariant = { λ r. IsReady r.tree.0 r.len (vec_capacity r.room) (vec_len r.room) };
}

impl Ready {
    /// No numbers.
    pub fn new(alloc: Global) -> Ready
        ensures { result ≡ finite.empty }
    {
        Ready {
            tree: Tree::new(),
            len: 0,
            room: Vec::new(alloc),
        }
    }

    /// Adds a number that waits for a moment, or one that is free.
    pub fn add(&mut self, alloc: Global, number: u64, due: Option<Moment>) -> Result<(), NoMemory>
        requires { finite.get self.old number ≡ None }
        ensures ok { OnOk result (self.new ≡ finite.insert self.old number (fresh due)) }
        ensures err { OnErr result (self.new ≡ self.old) }
    {
        if self.len >= (1 << 32) - 1 {
            return Err(NoMemory);
        }
        self.room.reserve(self.len + 1)?;
        self.tree.add(alloc, 64, number, Seat::new(due))?;
        self.len += 1;
        Ok(())
    }

    /// The least free number.
    pub fn next_ready(&self) -> Option<u64>
        ensures { IsLeastFree self.now result }
    {
        self.tree.first().free
    }

    /// The number that comes due first, of several the least.
    pub fn next_due(&self) -> Option<Waiting>
        ensures { IsFirstDue self.now result }
    {
        self.tree.first().due
    }

    fn seat(&self, number: u64) -> Seat
        requires { IsSome (finite.get self.now number) }
        ensures { Has self.now number result }
    {
        match self.tree.get(number) {
            Some(seat) => seat,
            None => unreachable!(),
        }
    }

    fn put(&mut self, number: u64, seat: Seat)
        requires { IsSome (finite.get self.old number) }
        ensures { self.new ≡ finite.insert self.old number seat }
    {
        self.tree.set(number, seat);
    }

    /// Holds a number, which is free.
    pub fn hold(&mut self, number: u64)
        requires { HasA is_free self.old number }
        ensures { self.new ≡ changed_at self.old number (λ s. record s { held = true }) }
    {
        let seat = self.seat(number);
        self.put(number, Seat { held: true, ..seat });
    }

    /// Lets a number go, which is held.
    pub fn free(&mut self, number: u64)
        requires { HasA (λ s. s.held) self.old number }
        ensures { self.new ≡ changed_at self.old number (λ s. record s { held = false }) }
    {
        let seat = self.seat(number);
        self.put(
            number,
            Seat {
                held: false,
                ..seat
            },
        );
    }

    /// Counts a failure of a number, and answers how many there were.
    pub fn count_fail(&mut self, number: u64) -> u32
        requires { HasA (λ s. nat_lt s.count 4294967295) self.old number }
        ensures value { (s : Seat) → Has self.old number s → result ≡ s.count + 1 }
        ensures state { self.new ≡
            changed_at self.old number (λ s. record s { count = s.count + 1 }) }
    {
        let seat = self.seat(number);
        let count = seat.count + 1;
        self.put(number, Seat { count, ..seat });
        count
    }

    /// Takes a number over to those that don't wait.
    pub fn release(&mut self, number: u64)
        requires { HasA (λ s. is_some s.due) self.old number }
        ensures { self.new ≡ changed_at self.old number (λ s. record s { due = None }) }
    {
        let seat = self.seat(number);
        self.put(number, Seat { due: None, ..seat });
    }

    /// The counts above 0, by rising numbers.
    pub fn counts(self) -> Vec<Count>
        ensures { result.items ≡ counts_of self }
    {
        let Ready {
            tree,
            len: _,
            mut room,
        } = self;
        tree.list(&mut room);
        room
    }

    /// Takes a number out.
    pub fn forget(&mut self, number: u64)
        requires { IsSome (finite.get self.old number) }
        ensures { self.new ≡ finite.remove self.old number }
    {
        self.tree.remove(number);
        self.len -= 1;
    }
}
