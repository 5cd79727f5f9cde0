//! The messages that a script sends to the queues of their routes.
ghost use Rattle.std.specs.Prelude.{◌≡◌, ◌++◌, IfOk, OnOk};
ghost use Rattle.nb_script.specs.Tree as tree;
ghost use Rattle.nb_script.specs.Tree.{phrase, block, otherwise, script};
ghost use Rattle.nb_check.specs.Blocks.{item_blocks};
ghost use Rattle.nb_check.specs.Declarations.{type_text};
ghost use Rattle.nb_check.specs.Sends as spec;
ghost use Rattle.nb_check.specs.Sends.{routed, phrase_sends, braces_sends, otherwise_sends, blocks_sends};

use crate::types::type_text;
use nb_base::{Items, Names, NoMemory};
use nb_script::expr::TypeName;
use nb_script::item::{Item, Part, Saga};
use nb_script::stmt::{Block, Destination, Else, Stmt};
use std::alloc::Global;

fn add_routed(
    alloc: Global,
    to: Destination,
    name: &TypeName,
    names: &mut Names,
) -> Result<(), NoMemory>
    ensures { OnOk result (names.new ≡ names.old ++ routed to (type_text name.now)) }
{
    match to {
        Destination::Route => {
            names.push(type_text(alloc, name)?)?;
            Ok(())
        }
        Destination::Local => Ok(()),
    }
}

/// Adds the messages that a statement sends.
#[cycle(statements)]
fn add_sent(alloc: Global, d: &Stmt, names: &mut Names) -> Result<(), NoMemory>
    ensures { OnOk result (names.new ≡ names.old ++ phrase_sends (phrase d.now)) }
{
    match d {
        Stmt::Send { to, make, .. } => add_routed(alloc, *to, &make.name, names),
        Stmt::If {
            block,
            otherwise,
            ..
        } => {
            add_block(alloc, block, names)?;
            add_else(alloc, otherwise, names)?;
            Ok(())
        }
        _ => Ok(()),
    }
}

/// Adds the messages that are sent in a block's text.
#[cycle(statements)]
fn add_block(alloc: Global, b: &Block, names: &mut Names) -> Result<(), NoMemory>
    ensures { OnOk result (names.new ≡ names.old ++ braces_sends (block b.now)) }
{
    for d in b.body.as_slice() {
        add_sent(alloc, d, names)?;
    }
    Ok(())
}

#[cycle(statements)]
fn add_else(alloc: Global, o: &Else, names: &mut Names) -> Result<(), NoMemory>
    ensures { OnOk result (names.new ≡ names.old ++ otherwise_sends (otherwise o.now)) }
{
    match o {
        Else::Nothing => Ok(()),
        Else::Last { block, .. } => add_block(alloc, block, names),
        Else::Chain {
            block,
            otherwise,
            ..
        } => {
            add_block(alloc, block, names)?;
            add_else(alloc, otherwise.get(), names)?;
            Ok(())
        }
    }
}

fn add_parts(alloc: Global, saga: &Saga, names: &mut Names) -> Result<(), NoMemory>
    ensures { OnOk result (names.new
        ≡ names.old ++ blocks_sends (item_blocks (tree.item (Item.Saga saga.now)))) }
{
    for p in saga.parts.as_slice() {
        match p {
            Part::ByField { block, .. } | Part::ById { block, .. } => {
                add_block(alloc, block, names)?;
            }
        }
    }
    Ok(())
}

fn add_item(alloc: Global, i: &Item, names: &mut Names) -> Result<(), NoMemory>
    ensures { OnOk result (names.new ≡ names.old ++ blocks_sends (item_blocks (tree.item i.now))) }
{
    match i {
        Item::Message { .. } => Ok(()),
        Item::Handler { block, .. } => add_block(alloc, block, names),
        Item::Saga(saga) => add_parts(alloc, saga, names),
    }
}

/// The messages that are sent, one for each `send` in the text, in order.
pub(crate) fn sends(alloc: Global, items: &[Item]) -> Result<Names, NoMemory>
    ensures { IfOk result (λ ns. ns ≡ spec.sends (script items.now)) }
{
    let mut names = Items::new(alloc);
    for i in items {
        add_item(alloc, i, &mut names)?;
    }
    Ok(names)
}
