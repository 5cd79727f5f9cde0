//! The sagas on which blocks work.
ghost use Rattle.std.specs.Prelude.{◌≡◌, ◌++◌, nat_abs, true, Some, IfOk, OnOk};
ghost use Rattle.nb_check.specs.Declarations as declarations;
ghost use Rattle.nb_check.specs.Declarations.{saga_type, sagas, state_fields, revision_of};
ghost use Rattle.nb_check.specs.Fits.{fits, saga_named};
ghost use Rattle.nb_eval.specs.Blocks as spec;
ghost use Rattle.nb_eval.specs.Blocks.{first_fields, instance_write, ended};
ghost use Rattle.nb_eval.specs.Worlds.{world_of};
ghost use Rattle.nb_script.specs.Tree as tree;
ghost use Rattle.nb_script.specs.Tree.{script};

use crate::scene::{Instance, Scene, State};
use nb_base::{
    Copied, Field, Fields, Items, NoMemory, SagaRef, SagaRow, Text, Value, Write, Writes,
};
use nb_check::{Checked, first_value};
use nb_script::item::{Revision, Saga, SagaField};
use sqlite_items::Items as Rows;
use std::alloc::Global;

/// The fields of a new saga.
fn first_fields(alloc: Global, fields: &[SagaField]) -> Result<Rows<Field>, NoMemory>
    ensures { IfOk result (λ fs. fs ≡ first_fields (state_fields fields.now)) }
{
    let mut firsts = Rows::new(alloc);
    for f in fields {
        let name = f.field.name.copy()?;
        let value = first_value(alloc, f.field.kind, &f.since)?;
        firsts.push(Field { name, value })?;
    }
    Ok(firsts)
}

fn revision_of(revision: &Option<Revision>) -> Result<u32, NoMemory>
    ensures { IfOk result (λ n. n ≡ nat_abs (revision_of revision.now)) }
{
    match revision {
        None => Ok(1),
        // A declared revision is at most 1000.
        Some(revision) => u32::try_from(revision.number.unsigned_abs()).map_err(|_| NoMemory),
    }
}

/// A saga that was found, in its lifted form.
pub(crate) fn stored_instance(
    alloc: Global,
    c: &Checked,
    saga: &Saga,
    row: &SagaRow,
) -> Result<Instance, NoMemory>
    requires declared { saga_named saga.now.name (sagas (script c.now))
        ≡ Some (saga_type (tree.saga saga.now)) }
    requires fits { fits (sagas (script c.now)) saga.now.name row.now ≡ true }
    ensures { IfOk result (λ i. i ≡ spec.stored_instance (saga_type (tree.saga saga.now)) row.now) }
{
    let name = saga.name.copy()?;
    let property = saga.correlation.name.copy()?;
    let SagaRow {
        corr,
        id,
        version: _,
        revision,
        originator,
        original,
        fields,
    } = c.lift(alloc, &saga.name, row)?;
    Ok(Instance {
        saga: name,
        property,
        revision,
        which: SagaRef::Stored(id),
        corr,
        originator,
        original,
        fields: Rows::from_vec(fields.into_vec()),
        completed: false,
    })
}

impl Scene {
    /// A new saga with this value, of the block at this place among the blocks met.
    pub(crate) fn new_instance(
        &self,
        alloc: Global,
        saga: &Saga,
        value: &Value,
        block: u32,
    ) -> Result<Instance, NoMemory>
        ensures { IfOk result (λ i. i
            ≡ spec.new_instance (saga_type (tree.saga saga.now)) value.now block
            (world_of self.now)) }
    {
        let name = saga.name.copy()?;
        let property = saga.correlation.name.copy()?;
        let revision = revision_of(&saga.revision)?;
        let corr = value.copy()?;
        let originator = self.reply_to.copy()?;
        let original = self.id.copy()?;
        let fields = first_fields(alloc, saga.fields.as_slice())?;
        Ok(Instance {
            saga: name,
            property,
            revision,
            which: SagaRef::New(block),
            corr,
            originator,
            original,
            fields,
            completed: false,
        })
    }
}

fn fields_of(alloc: Global, rows: &[Field]) -> Result<Fields, NoMemory>
    ensures { IfOk result (λ fs. fs ≡ rows.now) }
{
    let mut fields = Items::new(alloc);
    for f in rows {
        fields.push(f.copy()?)?;
    }
    Ok(fields)
}

/// Adds the change of a saga at the end of its block.
fn add_write(alloc: Global, writes: &mut Writes, i: Instance) -> Result<(), NoMemory>
    ensures { OnOk result (writes.new ≡ writes.old ++ instance_write i) }
{
    let Instance {
        saga,
        property: _,
        revision,
        which,
        corr,
        originator,
        original,
        fields,
        completed,
    } = i;
    if !completed {
        let fields = fields_of(alloc, fields.as_slice())?;
        return writes.push(Write::SagaPut {
            saga,
            corr,
            revision,
            which,
            originator,
            original,
            fields,
        });
    }
    match which {
        SagaRef::New(_) => Ok(()),
        SagaRef::Stored(_) => writes.push(Write::SagaErase { saga, corr }),
    }
}

impl State {
    /// Ends a block: its saga is written, or erased where it completed.
    pub(crate) fn end(&mut self, alloc: Global) -> Result<(), NoMemory>
        ensures { OnOk result (self.new ≡ ended self.old) }
    {
        match self.saga.take() {
            None => Ok(()),
            Some(i) => add_write(alloc, &mut self.writes, i),
        }
    }
}
