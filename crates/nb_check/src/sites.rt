//! Where the blocks of a script stand, and the numbers of those that are of a type.
ghost use Rattle.std.specs.Prelude.{◌≡◌, ◌+◌, ◌++◌, ℕ, List, map, bytes_eq, IfOk, OnOk};
ghost use Rattle.std.specs.FinMap as names;
ghost use Rattle.nb_check.specs.Declarations.{type_text};
ghost use Rattle.nb_check.specs.Meets.{number_if};
ghost use Rattle.nb_check.specs.Sites as spec;
ghost use Rattle.nb_check.specs.Sites.{part_type, part_sites, item_sites, sites_from, numbers_of, AreNumbers};
ghost use Rattle.nb_script.specs.Tree as tree;
ghost use Rattle.nb_script.specs.Tree.{script};

use crate::types::type_text;
use nb_base::{ByName, Copied, Items, NoMemory, Text};
use nb_script::expr::TypeName;
use nb_script::item::{Item, Part};
use std::alloc::Global;

/// Numbers of blocks, rising. A block's number counts the handlers and the parts of sagas that stand before it in the
/// text of the script.
pub type Blocks = Items<u32>;

/// Where a block stands in a script.
#[derive(Debug, Drop)]
pub struct Site {
    /// The position of its item.
    pub item: u32,
    /// The position of the part in its saga, and 0 of a handler.
    pub part: u32,
    /// The type of the messages that may meet it.
    pub name: Text,
}

impl Copied for Site {
    fn copy(&self) -> Result<Site, NoMemory> {
        let name = self.name.copy()?;
        Ok(Site {
            item: self.item,
            part: self.part,
            name,
        })
    }
}

/// The number after this one.
fn next(number: u32) -> Result<u32, NoMemory>
    ensures { IfOk result (λ n. n ≡ number + 1) }
{
    number.checked_add(1).ok_or(NoMemory)
}

fn new_site(alloc: Global, item: u32, part: u32, name: &TypeName) -> Result<Site, NoMemory>
    ensures { IfOk result (λ s. s ≡ spec.site item part (type_text name.now)) }
{
    let name = type_text(alloc, name)?;
    Ok(Site { item, part, name })
}

fn part_type(part: &Part) -> &TypeName
    ensures { type_text result.now ≡ part_type (tree.part part.now) }
{
    match part {
        Part::ByField { name, .. } => name,
        Part::ById { name, .. } => name,
    }
}

/// Adds where the parts of the saga at this position stand.
fn add_parts(
    alloc: Global,
    item: u32,
    parts: &[Part],
    sites: &mut Items<Site>,
) -> Result<(), NoMemory>
    ensures { OnOk result (sites.new ≡ sites.old ++ part_sites item 0 (map tree.part parts.now)) }
{
    let mut part = 0;
    for p in parts {
        sites.push(new_site(alloc, item, part, part_type(p))?)?;
        part = next(part)?;
    }
    Ok(())
}

/// Adds where the blocks of the item at this position stand.
fn add_item(alloc: Global, item: u32, i: &Item, sites: &mut Items<Site>) -> Result<(), NoMemory>
    ensures { OnOk result (sites.new ≡ sites.old ++ item_sites item (tree.item i.now)) }
{
    match i {
        Item::Message { .. } => Ok(()),
        Item::Handler { name, .. } => sites.push(new_site(alloc, item, 0, name)?),
        Item::Saga(saga) => add_parts(alloc, item, saga.parts.as_slice(), sites),
    }
}

/// Where the blocks of a script stand, in its order.
pub(crate) fn sites(alloc: Global, items: &[Item]) -> Result<Items<Site>, NoMemory>
    ensures { IfOk result (λ ss. ss ≡ sites_from 0 (script items.now)) }
{
    let mut sites = Items::new(alloc);
    let mut item = 0;
    for i in items {
        add_item(alloc, item, i, &mut sites)?;
        item = next(item)?;
    }
    Ok(sites)
}

/// Takes the numbers of this type out.
fn take_numbers(alloc: Global, name: &Text, named: &mut ByName<Blocks>) -> Blocks
    ensures value { result ≡ numbers_of (names.get named.old name.now) }
    ensures rest { named.new ≡ names.remove named.old name.now }
{
    match named.take(name) {
        Some(numbers) => numbers,
        None => Items::new(alloc),
    }
}

/// Adds the number of a block of this type.
fn add_number(
    alloc: Global,
    name: &Text,
    number: u32,
    named: &mut ByName<Blocks>,
) -> Result<(), NoMemory>
    ensures { OnOk result ((q : List ℕ)
        → numbers_of (names.get named.new q)
        ≡ numbers_of (names.get named.old q) ++ number_if (bytes_eq q name.now) number) }
{
    let key = name.copy()?;
    let mut numbers = take_numbers(alloc, name, named);
    numbers.push(number)?;
    named.insert(key, numbers)?;
    Ok(())
}

/// The numbers of the blocks of each type.
pub(crate) fn numbers_by_name(alloc: Global, sites: &[Site]) -> Result<ByName<Blocks>, NoMemory>
    ensures { IfOk result (λ named. AreNumbers named sites.now) }
{
    let mut named = ByName::new(alloc);
    let mut number = 0;
    for s in sites {
        add_number(alloc, &s.name, number, &mut named)?;
        number = next(number)?;
    }
    Ok(named)
}
