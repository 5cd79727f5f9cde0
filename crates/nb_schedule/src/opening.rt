//! How a stage is opened.

use crate::lent::Lent;
use crate::stage::Stage;
use crate::texts::{Unread, settings_of};
use nb_base::{ByNumber, Moment};
use nb_cells::MemCells;
use nb_core::Desk;
use nb_eval::Handlers;
use nb_hub::{Hub, StartFault, StartRefusal};
use std::alloc::Global;

/// What a stage is opened with, beside its stores.
#[derive(Clone, Copy)]
pub struct Terms<'a> {
    /// The bytes of the settings file.
    pub settings: &'a str,
    pub moment: Moment,
    pub workers: u32,
    /// How many Takes there may be.
    pub turns: u64,
}

/// Why a stage wasn't opened.
#[derive(Debug, Drop)]
pub enum Unopened {
    /// The settings weren't read.
    Settings(Unread),
    /// The hub wasn't started.
    Start(StartFault),
}

/// Why a stage wasn't opened, and the two stores.
#[derive(Drop)]
pub struct Refused {
    pub why: Unopened,
    pub post: MemCells,
    pub base: MemCells,
}

impl<'a> Stage<'a> {
    /// The stage of two stores, whose workers are idle.
    pub fn open(
        alloc: Global,
        handlers: &'a Handlers,
        terms: &Terms,
        post: MemCells,
        base: MemCells,
    ) -> Result<Stage<'a>, Refused> {
        let settings = match settings_of(alloc, terms.settings, handlers) {
            Ok(settings) => settings,
            Err(why) => {
                return Err(Refused {
                    why: Unopened::Settings(why),
                    post,
                    base,
                });
            }
        };
        let moment = terms.moment;
        let workers = terms.workers;
        let lent = Lent { handlers };
        match Hub::start(
            alloc,
            lent,
            settings,
            moment,
            workers,
            terms.turns,
            post,
            base,
        ) {
            Ok(hub) => {
                hub.legal();
                Ok(Stage {
                    alloc,
                    handlers,
                    hub,
                    workers,
                    moment,
                    seats: ByNumber::new(alloc),
                })
            }
            Err(StartRefusal { fault, post, base }) => Err(Refused {
                why: Unopened::Start(fault),
                post,
                base,
            }),
        }
    }
}
