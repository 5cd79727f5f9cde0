//! What statements do.
ghost use Rattle.std.specs.Prelude.{◌≡◌, if◌then◌else◌, Some, None, take, OnOk};
ghost use Rattle.nb_eval.specs.Statements as spec;
ghost use Rattle.nb_eval.specs.Statements.{Does, with_field, set_to, complete, run, within, otherwise};
ghost use Rattle.nb_eval.specs.Values.{Gives, found};
ghost use Rattle.nb_eval.specs.Worlds.{world_of, stored};
ghost use Rattle.nb_script.specs.Tree as tree;

use crate::make::target_of;
use crate::scene::{Scene, State, Touched};
use crate::stop::Stop;
use crate::values::sum;
use nb_base::{Copied, Field, NoMemory, Target, Text, Value};
use nb_script::stmt::{Block, Else, Stmt};
use sqlite_items::Items as Rows;
use std::alloc::Global;

/// Stores to a row, or erases it, in its place or at the end.
#[tactic(auto, using(crate::proofs::InPlace::stored_set, crate::proofs::InPlace::stored_push))]
fn store(rows: &mut Rows<Touched>, name: Text, value: Option<i64>) -> Result<(), NoMemory>
    ensures { OnOk result (rows.new ≡ stored name value rows.old) }
{
    for i in 0..rows.len() {
        if rows.as_slice()[i].name == name {
            rows.set(i, Touched { name, value });
            return Ok(());
        }
    }
    rows.push(Touched { name, value })?;
    Ok(())
}

/// Sets a field, where it is there.
#[tactic(auto, using(crate::proofs::InPlace::field_set, crate::proofs::InPlace::field_absent))]
fn set_field(fields: &mut Rows<Field>, name: Text, value: Value) -> bool
    ensures { with_field name value fields.old ≡ (if result then Some fields.new else None) }
{
    for i in 0..fields.len() {
        if fields.as_slice()[i].name == name {
            fields.set(i, Field { name, value });
            return true;
        }
    }
    false
}

/// Leaves the first names alone.
pub(crate) fn cut(names: &mut Rows<Field>, count: usize)
    ensures { names.new ≡ take count names.old }
{
    while names.len() > count {
        let _last = names.pop();
    }
}

impl State {
    fn set(&mut self, name: &Text, value: Value) -> Result<(), Stop>
        ensures { Does result self.new (set_to name.now value self.old) }
    {
        let name = name.copy()?;
        match &mut self.saga {
            None => Err(Stop::Wrong),
            Some(i) => {
                if set_field(&mut i.fields, name, value) {
                    Ok(())
                } else {
                    Err(Stop::Wrong)
                }
            }
        }
    }

    fn complete(&mut self) -> Result<(), Stop>
        ensures { Does result self.new (complete self.old) }
    {
        match &mut self.saga {
            None => Err(Stop::Wrong),
            Some(i) => {
                i.completed = true;
                Ok(())
            }
        }
    }
}

impl Scene {
    /// Does what a statement says.
    #[cycle(run)]
    fn run(&self, alloc: Global, state: &mut State, d: &Stmt) -> Result<(), Stop>
        ensures { Does result state.new (run (tree.phrase d.now) (world_of self.now) state.old) }
    {
        match d {
            Stmt::Let { name, value, .. } => {
                let value = self.value(alloc, state, value)?;
                let name = name.copy()?;
                state.names.push(Field { name, value })?;
                Ok(())
            }
            Stmt::Set { field, value, .. } => {
                let value = self.value(alloc, state, value)?;
                state.set(field, value)
            }
            Stmt::Put { row, value, .. } => {
                let name = self.row_at(alloc, state, row)?;
                let n = self.whole_of(alloc, state, value)?;
                store(&mut state.touched, name, Some(n))?;
                Ok(())
            }
            Stmt::Add { row, value, .. } => {
                let name = self.row_at(alloc, state, row)?;
                let n = self.whole_of(alloc, state, value)?;
                let m = sum(self.number_or_zero(&name, state), n)?;
                store(&mut state.touched, name, Some(m))?;
                Ok(())
            }
            Stmt::Erase { row, .. } => {
                let name = self.row_at(alloc, state, row)?;
                store(&mut state.touched, name, None)?;
                Ok(())
            }
            Stmt::Send {
                after,
                to,
                make,
                ..
            } => {
                let delay = self.delay_of(alloc, state, after)?;
                self.send(alloc, state, target_of(*to), delay, make)
            }
            Stmt::Publish { make, .. } => self.send(alloc, state, Target::Publish, None, make),
            Stmt::Reply {
                originator_at,
                make,
                ..
            } => {
                let target = self.answered(*originator_at, state)?;
                self.send(alloc, state, target, None, make)
            }
            Stmt::Timeout { delay, make, .. } => {
                let seconds = self.timed(alloc, state, delay)?;
                self.send(alloc, state, Target::Timeout, Some(seconds), make)
            }
            Stmt::Complete { .. } => state.complete(),
            Stmt::Refuse {
                refusal,
                name,
                text,
                ..
            } => {
                let text = self.text_of(alloc, state, text)?;
                let name = name.copy()?;
                Err(Stop::Refused {
                    refusal: *refusal,
                    name,
                    text,
                })
            }
            Stmt::If {
                test,
                block,
                otherwise,
                ..
            } => {
                if self.truth_of(alloc, state, test)? {
                    self.within(alloc, state, block)
                } else {
                    self.otherwise(alloc, state, otherwise)
                }
            }
        }
    }

    /// Does what the statements of a block say, and forgets the names that they made.
    #[cycle(run)]
    pub(crate) fn within(&self, alloc: Global, state: &mut State, b: &Block) -> Result<(), Stop>
        ensures { Does result state.new (within (tree.block b.now) (world_of self.now) state.old) }
    {
        let count = state.names.len();
        for d in b.body.as_slice() {
            self.run(alloc, state, d)?;
        }
        cut(&mut state.names, count);
        Ok(())
    }

    #[cycle(run)]
    fn otherwise(&self, alloc: Global, state: &mut State, o: &Else) -> Result<(), Stop>
        ensures { Does result state.new
            (otherwise (tree.otherwise o.now) (world_of self.now) state.old) }
    {
        match o {
            Else::Nothing => Ok(()),
            Else::Last { block, .. } => self.within(alloc, state, block),
            Else::Chain {
                test,
                block,
                otherwise,
                ..
            } => {
                if self.truth_of(alloc, state, test)? {
                    self.within(alloc, state, block)
                } else {
                    self.otherwise(alloc, state, otherwise.get())
                }
            }
        }
    }
}
