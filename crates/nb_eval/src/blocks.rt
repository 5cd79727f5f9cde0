//! What the blocks that a message meets do.
ghost use Rattle.std.specs.Prelude.{◌≡◌, slice_get, Some, option_copied};
ghost use Rattle.nb_check.specs.Blocks.{Finds, Answers, part_block, blocks};
ghost use Rattle.nb_check.specs.Declarations.{saga_type, sagas};
ghost use Rattle.nb_check.specs.Fits.{saga_named};
ghost use Rattle.nb_check.specs.Keys as keys;
ghost use Rattle.nb_check.specs.Sites.{site_block};
ghost use Rattle.nb_eval.specs.Blocks.{in_block, block_does, term_does, at_does, numbers_do};
ghost use Rattle.nb_eval.specs.Meanings.{FitsLook};
ghost use Rattle.nb_eval.specs.Statements.{Does};
ghost use Rattle.nb_eval.specs.Worlds.{seen_in, saga_there, world_of};
ghost use Rattle.nb_script.specs.Tree as tree;
ghost use Rattle.nb_script.specs.Tree.{script};

use crate::find::value_in;
use crate::instance::stored_instance;
use crate::scene::{Instance, Scene, State};
use crate::stmt::cut;
use crate::stop::Stop;
use nb_base::{Key, NoMemory, Read, SagaRow, Seen, Text, Value};
use nb_check::{Checked, Site};
use nb_script::item::{Answer, Finder, Item, Part, Saga};
use nb_script::stmt::Block;
use std::alloc::Global;

fn same_value(a: &Value, b: &Value) -> bool
    ensures { result ≡ keys.same_value a.now b.now }
{
    match (a, b) {
        (Value::Int(m), Value::Int(n)) => *m == *n,
        (Value::Text(s), Value::Text(t)) => *s == *t,
        (Value::Bool(b), Value::Bool(c)) => { if *b { *c } else { !*c } }
        _ => false,
    }
}

/// The saga that was read, where it was there.
fn saga_in(seen: &Seen) -> Option<&SagaRow>
    ensures { option_copied result ≡ saga_there seen.now }
{
    match seen {
        Seen::Saga(row) => Some(row),
        _ => None,
    }
}

/// The saga that was read at a correlation value.
fn by_corr<'a>(saga: &Text, corr: &Value, reads: &'a [Read]) -> Option<&'a SagaRow>
    ensures { option_copied result ≡ saga_there (seen_in reads.now (Key.ByCorr saga.now corr.now)) }
{
    for r in reads {
        match &r.key {
            Key::ByCorr { saga: s, corr: v } if *s == *saga && same_value(v, corr) => {
                return saga_in(&r.seen);
            }
            _ => {}
        }
    }
    None
}

/// The saga that was read at an id.
fn by_id<'a>(saga: &Text, id: &Text, reads: &'a [Read]) -> Option<&'a SagaRow>
    ensures { option_copied result ≡ saga_there (seen_in reads.now (Key.ById saga.now id.now)) }
{
    for r in reads {
        match &r.key {
            Key::ById { saga: s, id: v } if *s == *saga && *v == *id => return saga_in(&r.seen),
            _ => {}
        }
    }
    None
}

impl Scene {
    /// Does what a block says, on this saga.
    fn in_block(
        &self,
        alloc: Global,
        state: &mut State,
        saga: Option<Instance>,
        b: &Block,
    ) -> Result<(), Stop>
        ensures { Does result state.new
            (in_block saga (tree.block b.now) (world_of self.now) state.old) }
    {
        state.saga = saga;
        cut(&mut state.names, 0);
        self.within(alloc, state, b)?;
        state.end(alloc)?;
        Ok(())
    }

    /// Does what a block that finds its saga by a field says, at its place among the blocks met.
    fn find(
        &self,
        alloc: Global,
        c: &Checked,
        state: &mut State,
        saga: &Saga,
        finder: Finder,
        field: &Text,
        block: u32,
        b: &Block,
    ) -> Result<(), Stop>
        requires declared { saga_named saga.now.name (sagas (script c.now))
            ≡ Some (saga_type (tree.saga saga.now)) }
        requires fits { FitsLook (sagas (script c.now)) (seen_in self.now.reads) }
        ensures { Does result state.new
            (block_does (sagas (script c.now)) block (Finds finder saga.now.name field.now)
            (tree.block b.now) (world_of self.now) state.old) }
    {
        let Some(value) = value_in(field, self.fields.as_slice()) else {
            return Err(Stop::Wrong);
        };
        match by_corr(&saga.name, value, self.reads.as_slice()) {
            Some(row) => {
                let i = stored_instance(alloc, c, saga, row)?;
                self.in_block(alloc, state, Some(i), b)
            }
            None => match finder {
                Finder::Start => {
                    let i = self.new_instance(alloc, saga, value, block)?;
                    self.in_block(alloc, state, Some(i), b)
                }
                Finder::Find => Ok(()),
            },
        }
    }

    /// Does what a block that finds its saga by the id in the headers says.
    fn answer(
        &self,
        alloc: Global,
        c: &Checked,
        state: &mut State,
        saga: &Saga,
        answer: Answer,
        block: u32,
        b: &Block,
    ) -> Result<(), Stop>
        requires declared { saga_named saga.now.name (sagas (script c.now))
            ≡ Some (saga_type (tree.saga saga.now)) }
        requires fits { FitsLook (sagas (script c.now)) (seen_in self.now.reads) }
        ensures { Does result state.new
            (block_does (sagas (script c.now)) block (Answers answer saga.now.name)
            (tree.block b.now) (world_of self.now) state.old) }
    {
        match by_id(&saga.name, &self.saga_id, self.reads.as_slice()) {
            Some(row) => {
                let i = stored_instance(alloc, c, saga, row)?;
                self.in_block(alloc, state, Some(i), b)
            }
            None => Ok(()),
        }
    }

    /// Does what a part of a saga says.
    fn part_does(
        &self,
        alloc: Global,
        c: &Checked,
        state: &mut State,
        saga: &Saga,
        p: &Part,
        block: u32,
    ) -> Result<(), Stop>
        requires declared { saga_named saga.now.name (sagas (script c.now))
            ≡ Some (saga_type (tree.saga saga.now)) }
        requires fits { FitsLook (sagas (script c.now)) (seen_in self.now.reads) }
        ensures { Does result state.new
            (term_does (sagas (script c.now)) block (part_block saga.now.name (tree.part p.now))
            (world_of self.now) state.old) }
    {
        match p {
            Part::ByField {
                finder,
                field,
                block: b,
                ..
            } => self.find(alloc, c, state, saga, *finder, field, block, b),
            Part::ById {
                answer,
                block: b,
                ..
            } => self.answer(alloc, c, state, saga, *answer, block, b),
        }
    }

    /// Does what the block that stands there says, at its place among the blocks met.
    fn site_does(
        &self,
        alloc: Global,
        c: &Checked,
        state: &mut State,
        site: &Site,
        place: u32,
    ) -> Result<(), Stop>
        requires fits { FitsLook (sagas (script c.now)) (seen_in self.now.reads) }
        ensures { Does result state.new
            (at_does (sagas (script c.now)) place (site_block (script c.now) site.now)
            (world_of self.now) state.old) }
    {
        match c.items().get(site.item as usize) {
            Some(Item::Handler { block, .. }) => self.in_block(alloc, state, None, block),
            Some(Item::Saga(saga)) => match saga.parts.as_slice().get(site.part as usize) {
                Some(p) => self.part_does(alloc, c, state, saga, p, place),
                None => Err(Stop::Wrong),
            },
            Some(Item::Message { .. }) => Err(Stop::Wrong),
            None => Err(Stop::Wrong),
        }
    }

    /// Does what the block with this number says, at its place among the blocks met.
    fn number_does(
        &self,
        alloc: Global,
        c: &Checked,
        state: &mut State,
        number: u32,
        place: u32,
    ) -> Result<(), Stop>
        requires fits { FitsLook (sagas (script c.now)) (seen_in self.now.reads) }
        ensures { Does result state.new
            (at_does (sagas (script c.now)) place (slice_get (blocks (script c.now)) number)
            (world_of self.now) state.old) }
    {
        match c.site(number) {
            Some(site) => self.site_does(alloc, c, state, site, place),
            None => Err(Stop::Wrong),
        }
    }

    /// Does what the blocks with these numbers say.
    pub(crate) fn blocks(
        &self,
        alloc: Global,
        c: &Checked,
        state: &mut State,
        met: &[u32],
    ) -> Result<(), Stop>
        requires fits { FitsLook (sagas (script c.now)) (seen_in self.now.reads) }
        ensures { Does result state.new
            (numbers_do (sagas (script c.now)) (blocks (script c.now)) 1 met.now
            (world_of self.now) state.old) }
    {
        let mut place: u32 = 0;
        for number in met {
            place = place.checked_add(1).ok_or(NoMemory)?;
            self.number_does(alloc, c, state, *number, place)?;
        }
        Ok(())
    }
}
