//! The blocks that a message meets.
ghost use Rattle.std.specs.Prelude.{◌≡◌, slice_get, IfOk};
ghost use Rattle.nb_check.specs.Blocks.{blocks};
ghost use Rattle.nb_check.specs.Meets.{met_from};
ghost use Rattle.nb_check.specs.Sites.{fits_block, fitting, site_block};
ghost use Rattle.nb_script.specs.Tree.{script};

use crate::checked::Checked;
use crate::incoming::Incoming;
use crate::sites::{Blocks, Site};
use nb_base::{Items, NoMemory};
use nb_script::item::Item;
use std::alloc::Global;

impl Incoming {
    /// Whether a message of the block's type meets the block that stands there.
    fn fits_site(&self, items: &[Item], site: &Site) -> bool
        ensures { result ≡ fits_block self.now (site_block (script items.now) site.now) }
    {
        match items.get(site.item as usize) {
            Some(Item::Handler { .. }) => !self.timeout,
            Some(Item::Saga(saga)) => match saga.parts.as_slice().get(site.part as usize) {
                Some(part) => self.fits_part(&saga.name, part),
                None => false,
            },
            _ => false,
        }
    }
}

impl Checked {
    /// Whether a message of the block's type meets the block with this number.
    fn fits_number(&self, m: &Incoming, number: u32) -> bool
        ensures { result ≡ fits_block m.now (slice_get (blocks (script self.now)) number) }
    {
        match self.site(number) {
            Some(site) => m.fits_site(self.items(), site),
            None => false,
        }
    }

    /// Of the numbers of blocks of the message's type those that it meets.
    fn fitting(&self, alloc: Global, m: &Incoming, numbers: &[u32]) -> Result<Blocks, NoMemory>
        ensures { IfOk result (λ ns. ns ≡ fitting m.now (blocks (script self.now)) numbers.now) }
    {
        let mut met = Items::new(alloc);
        for number in numbers {
            if self.fits_number(m, *number) {
                met.push(*number)?;
            }
        }
        Ok(met)
    }

    /// The numbers of the blocks that a message meets, rising.
    pub fn met(&self, alloc: Global, m: &Incoming) -> Result<Blocks, NoMemory>
        ensures { IfOk result (λ ns. ns ≡ met_from m.now 0 (blocks (script self.now))) }
    {
        self.fitting(alloc, m, self.numbers_of(&m.name))
    }
}
