//! A gate that holds workers until all have come.

ghost use Rattle.std.specs.Prelude.{◌≤◌};

use crate::gate::{Gate, Point};
use std::sync::atomic::Ordering::SeqCst;
use std::sync::atomic::{AtomicBool, AtomicU64};
use std::thread;

/// A gate that holds each worker at one point until as many different ones as it waits for have come there.
#[derive(Drop)]
pub struct HoldGate {
    at: Point,
    workers: u32,
    limit: u64,
    /// The bit of each worker that has come.
    came: AtomicU64,
    /// Whether some worker looked in vain as often as it may.
    open: AtomicBool,
}

impl HoldGate {
    /// A gate at this point, for 1 to 16 workers, at which each looks at most so often.
    pub fn new(at: Point, workers: u32, limit: u64) -> HoldGate
        requires { (1 ≤ workers) × (workers ≤ 16) }
    {
        HoldGate {
            at,
            workers,
            limit,
            came: AtomicU64::new(0),
            open: AtomicBool::new(false),
        }
    }

    /// Whether it holds nobody any more, since a worker looked in vain.
    pub fn gave_up(&self) -> bool {
        self.open.load(SeqCst)
    }

    /// Whether a worker may go on.
    fn is_open(&self) -> bool {
        self.gave_up() || self.came.load(SeqCst).count_ones() >= self.workers
    }
}

impl Gate for HoldGate {
    fn pass(&self, w: u32, point: Point) {
        if point != self.at || w >= 64 {
            return;
        }
        self.came.fetch_or(1 << w, SeqCst);
        for _ in 0..self.limit {
            if self.is_open() {
                return;
            }
            thread::yield_now();
        }
        self.open.store(true, SeqCst);
    }
}
