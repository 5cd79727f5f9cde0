//! Stores of given cells, and plans of their faults.

use crate::trial::numbers;
use nb_base::{Bytes, Items, NoMemory, Which};
use nb_cells::{Cell, CellList, FaultPlan, MemCells, Stop};
use std::alloc::Global;

/// The two stores of the program.
#[derive(Drop)]
pub struct Stores {
    pub post: MemCells,
    pub base: MemCells,
}

impl Stores {
    /// Two empty stores without faults.
    pub fn empty(alloc: Global) -> Stores {
        Stores {
            post: MemCells::empty(alloc),
            base: MemCells::empty(alloc),
        }
    }

    /// Two stores, of which this one is `store` and the other one is empty.
    pub fn one(alloc: Global, which: Which, store: MemCells) -> Stores {
        match which {
            Which::Base => Stores {
                post: MemCells::empty(alloc),
                base: store,
            },
            Which::Post => Stores {
                post: store,
                base: MemCells::empty(alloc),
            },
        }
    }

    /// How many cells both hold.
    pub fn cells(&self, alloc: Global) -> Result<usize, NoMemory> {
        let post = self.post.now(alloc)?;
        let base = self.base.now(alloc)?;
        Ok(post.len().saturating_add(base.len()))
    }
}

/// A store that is opened again after a stop, and has no faults.
fn reopened(alloc: Global, store: MemCells) -> Result<MemCells, NoMemory> {
    let cells = store.left(alloc)?;
    MemCells::new(alloc, cells, FaultPlan::none(alloc))
}

/// The stores, opened again after a stop.
pub fn both_reopened(alloc: Global, stores: Stores) -> Result<Stores, NoMemory> {
    let Stores { post, base } = stores;
    let post = reopened(alloc, post)?;
    let base = reopened(alloc, base)?;
    Ok(Stores { post, base })
}

/// A plan by which a store stops at this apply, before or after its effect.
fn stop_at(alloc: Global, apply: u64, after: bool) -> FaultPlan {
    FaultPlan {
        reads: Items::new(alloc),
        applies: Items::new(alloc),
        stop: Some(Stop { apply, after }),
    }
}

/// A plan by which this read fails.
fn fail_at(alloc: Global, read: u64) -> Result<FaultPlan, NoMemory> {
    let reads = numbers(alloc, Some(read))?;
    Ok(FaultPlan {
        reads,
        applies: Items::new(alloc),
        stop: None,
    })
}

/// An empty store with this plan.
fn planned(alloc: Global, plan: FaultPlan) -> Result<MemCells, NoMemory> {
    MemCells::new(alloc, Items::new(alloc), plan)
}

/// Two empty stores, of which this read of this one fails.
pub fn failing(alloc: Global, which: Which, read: u64) -> Result<Stores, NoMemory> {
    let plan = fail_at(alloc, read)?;
    let store = planned(alloc, plan)?;
    Ok(Stores::one(alloc, which, store))
}

/// Two empty stores, of which the first read fails.
pub fn both_failing(alloc: Global) -> Result<Stores, NoMemory> {
    let first = fail_at(alloc, 1)?;
    let second = fail_at(alloc, 1)?;
    let post = planned(alloc, first)?;
    let base = planned(alloc, second)?;
    Ok(Stores { post, base })
}

/// Two empty stores, of which this one stops at this apply, before or after its effect.
pub fn stopping(alloc: Global, which: Which, apply: u64, after: bool) -> Result<Stores, NoMemory> {
    let store = planned(alloc, stop_at(alloc, apply, after))?;
    Ok(Stores::one(alloc, which, store))
}

/// These cells, in a store that stops at this apply, before or after its effect.
fn stopped_again(
    alloc: Global,
    store: MemCells,
    apply: u64,
    after: bool,
) -> Result<MemCells, NoMemory> {
    let cells = store.left(alloc)?;
    MemCells::new(alloc, cells, stop_at(alloc, apply, after))
}

/// The stores that an earlier call left, of which this one stops at this apply.
pub fn stopping_again(
    alloc: Global,
    earlier: Stores,
    which: Which,
    apply: u64,
    after: bool,
) -> Result<Stores, NoMemory> {
    let Stores { post, base } = earlier;
    match which {
        Which::Base => {
            let base = stopped_again(alloc, base, apply, after)?;
            Ok(Stores { post, base })
        }
        Which::Post => {
            let post = stopped_again(alloc, post, apply, after)?;
            Ok(Stores { post, base })
        }
    }
}

/// One cell.
fn one_cell(alloc: Global, space: u8, key: &[u8], bytes: &[u8]) -> Result<CellList, NoMemory> {
    let key = Bytes::new(alloc, key)?;
    let bytes = Bytes::new(alloc, bytes)?;
    let mut cells: CellList = Items::new(alloc);
    cells.push(Cell { space, key, bytes })?;
    Ok(cells)
}

/// A store of one cell.
pub fn holding(alloc: Global, space: u8, key: &[u8], bytes: &[u8]) -> Result<MemCells, NoMemory> {
    let cells = one_cell(alloc, space, key, bytes)?;
    MemCells::new(alloc, cells, FaultPlan::none(alloc))
}
