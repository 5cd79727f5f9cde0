//! The history.
ghost use Rattle.std.specs.Prelude.{◌≡◌, ◌↔◌, ◌≤◌, ◌<◌, [], IsTrue, is_ok, true, false};
ghost use Rattle.nb_core.specs.Legal.{halted};
ghost use Rattle.nb_core.specs.Past.{takes};
ghost use Rattle.nb_core.specs.declared.event.Event.TheVariants as event;
ghost use Rattle.nb_queue.specs.Applied.{IsOfPut};
ghost use Rattle.nb_store.specs.Applied.{IsOfCommit};
ghost use Rattle.nb_hub.specs.Ledgers.{course, with_room, with_event, Begins, IsQuiet};
ghost use Rattle.nb_hub.specs.Stops.{IsPostStop, IsBaseStop};

use nb_base::{Items, Settings, Which};
use nb_core::{DeskFault, Event, Events, History, Opening};
use nb_queue::PostFault;
use nb_store::StoreFault;
use std::alloc::Global;
use std::marker::Model;

/// Histories have fewer events than this.
const LIMIT: usize = 1 << 32;

/// What contracts see of a ledger: what never changes, the events so far, and whether there is room for one more.
#[derive(Drop)]
pub struct Course {
    pub settings: Settings,
    pub turns: u64,
    pub opening: Opening,
    pub base_faults: u64,
    pub post_faults: u64,
    pub events: Events,
    pub room: bool,
}

/// The history, with what never changes.
#[derive(Drop)]
pub struct Ledger {
    settings: Settings,
    turns: u64,
    opening: Opening,
    base_faults: u64,
    post_faults: u64,
    takes: u64,
    halted: bool,
    events: Vec<Event>,
    room: bool,
}

impl Model for Ledger {
    ghost use Rattle.std.specs.Prelude.{◌≡◌, ◌<◌, ◌^◌, ◌+◌, length, true, vec_len, vec_capacity};
    ghost use Rattle.nb_hub.specs.Ledgers.{course, Keeps};
    ghost use Rattle.nb_hub.specs.declared.ledger.Course.{Course};
    ghost use Rattle.nb_hub.specs.contracts.ledger.Course as course_type;

    ghost Value = { Course };

    ghost coded = { course_type.the_row.coded };

    ghost view = { λ l. course l.settings l.turns l.opening l.base_faults l.post_faults l.events.items l.room };

    ghost invariant = { λ l. Keeps l.events.items l.takes l.halted × (l.room ≡ true → (vec_len l.events < vec_capacity l.events) × (length l.events.items + 1 < 2 ^ 32)) };
}

impl Ledger {
    /// The history without an event.
    pub fn new(
        alloc: Global,
        settings: Settings,
        turns: u64,
        opening: Opening,
        base_faults: u64,
        post_faults: u64,
    ) -> Ledger
        ensures { result ≡ course settings turns opening base_faults post_faults [] false }
    {
        Ledger {
            settings,
            turns,
            opening,
            base_faults,
            post_faults,
            takes: 0,
            halted: false,
            events: Vec::new(alloc),
            room: false,
        }
    }

    /// Whether a store failed.
    pub fn is_halted(&self) -> bool
        ensures { result ≡ halted self.now.events }
    {
        self.halted
    }

    /// Whether there are as many Takes as there may be.
    pub fn is_spent(&self) -> bool
        ensures { IsTrue result ↔ self.now.turns ≤ takes self.now.events }
    {
        self.takes >= self.turns
    }

    /// The settings.
    pub fn settings(&self) -> &Settings
        ensures { result.now ≡ self.now.settings }
    {
        &self.settings
    }

    /// Takes the room for one more event, where no store failed.
    pub fn begin(&mut self) -> Result<(), DeskFault>
        ensures room { self.new ≡ with_room self.old (is_ok result) }
        ensures begins { Begins self.old.events result }
    {
        self.room = false;
        if self.halted {
            return Err(DeskFault::Halted);
        }
        if self.events.len() + 1 >= LIMIT || self.events.reserve(1).is_err() {
            return Err(DeskFault::NoMemory);
        }
        self.room = true;
        Ok(())
    }

    /// Notes an event that no Take is and no Halt.
    pub fn note(&mut self, event: Event)
        requires quiet { IsQuiet event }
        requires room { self.old.room ≡ true }
        requires on { halted self.old.events ≡ false }
        ensures { self.new ≡ with_event self.old event }
    {
        self.room = false;
        self.events.push_reserved(event);
    }

    /// Notes a Take.
    pub fn note_take(&mut self, w: u32)
        requires turn { takes self.old.events < self.old.turns }
        requires room { self.old.room ≡ true }
        requires on { halted self.old.events ≡ false }
        ensures { self.new ≡ with_event self.old (event.Take w) }
    {
        self.room = false;
        self.takes += 1;
        self.events.push_reserved(Event::Take { w });
    }

    /// Notes that a store failed.
    fn halt(&mut self, store: Which)
        requires room { self.old.room ≡ true }
        ensures { self.new ≡ with_event self.old (event.Halt store) }
    {
        self.room = false;
        self.halted = true;
        self.events.push_reserved(Event::Halt { store });
    }

    /// What a refused call on the queues comes to: a Halt, where their store failed.
    pub fn stop_post(&mut self, fault: PostFault) -> DeskFault
        requires fault { IsOfPut fault }
        requires room { self.old.room ≡ true }
        ensures { IsPostStop fault self.old self.new result }
    {
        match fault {
            PostFault::Failed => {
                self.halt(Which::Post);
                DeskFault::PostFailed
            }
            PostFault::Damaged { space: _, key: _ } => unreachable!(),
            PostFault::Spent => DeskFault::Spent,
            PostFault::NoMemory => DeskFault::NoMemory,
        }
    }

    /// What a refused call on the tables comes to: a Halt, where their store failed.
    pub fn stop_base(&mut self, fault: StoreFault) -> DeskFault
        requires fault { IsOfCommit fault }
        requires room { self.old.room ≡ true }
        ensures { IsBaseStop fault self.old self.new result }
    {
        match fault {
            StoreFault::Failed => {
                self.halt(Which::Base);
                DeskFault::StoreFailed
            }
            StoreFault::Damaged { space: _, key: _ } => unreachable!(),
            StoreFault::Spent => DeskFault::Spent,
            StoreFault::NoMemory => DeskFault::NoMemory,
        }
    }

    /// The history, with no copy.
    pub fn into_history(self) -> History
        ensures { result ≡ record { opening = self.opening; events = self.events } }
    {
        let Ledger {
            settings: _,
            turns: _,
            opening,
            base_faults: _,
            post_faults: _,
            takes: _,
            halted: _,
            events,
            room: _,
        } = self;
        let Ok(events) = Items::of_vec(events) else {
            unreachable!()
        };
        History { opening, events }
    }
}
