//! Keys that mean nothing.
ghost use Rattle.std.specs.Prelude.{◌≡◌, IfOk, Some, codes, option_map};
ghost use Rattle.toml.specs.Data.{get};
ghost use Rattle.toml.specs.View.{view, table_view};
ghost use Rattle.nb_settings.specs.Unknown.{least, least_with, lesser, others_in, others_of};
ghost use Rattle.nb_settings.specs.Values.{members_of};

use crate::group::Group;
use crate::refusal::joined;
use nb_base::{NoMemory, Text};
use std::alloc::Global;
use toml::{Table, Value};

/// The lesser of two keys, by their bytes.
fn lesser(best: Option<Text>, key: Text) -> Text
    ensures { result ≡ lesser best key }
{
    match best {
        None => key,
        Some(best) => { if key < best { key } else { best } }
    }
}

/// The least of one key, where there is one, and of the keys of a table that mean nothing.
fn least_within(
    alloc: Global,
    best: Option<Text>,
    group: Group,
    table: &Table,
) -> Result<Option<Text>, NoMemory>
    ensures { IfOk result (λ o. o ≡ least_with best (others_in group (table_view table.now))) }
{
    let mut best = best;
    for (key, _) in table.iter() {
        if !group.knows(key.as_str()) {
            let key = joined(alloc, group.prefix(), key.as_str())?;
            best = Some(lesser(best, key));
        }
    }
    Ok(best)
}

/// The same of a group of keys, where it is there.
fn least_in(
    alloc: Global,
    best: Option<Text>,
    group: Group,
    value: Option<&Value>,
) -> Result<Option<Text>, NoMemory>
    ensures { IfOk result (λ o. o
        ≡ least_with best
        (others_in group (members_of (option_map (λ v. view v.now) value.entry)))) }
{
    match value {
        Some(Value::Table(table)) => least_within(alloc, best, group, table),
        _ => Ok(best),
    }
}

/// The least key that means nothing, written whole.
#[tactic(auto, using(crate::proofs::Least::least_in_both))]
pub(crate) fn unknown_in(alloc: Global, root: &Value) -> Result<Option<Text>, NoMemory>
    ensures { IfOk result (λ o. o ≡ least (others_of (view root.now))) }
{
    let best = least_in(alloc, None, Group::Top, Some(root))?;
    let best = least_in(
        alloc,
        best,
        Group::Recoverability,
        root.get("recoverability"),
    )?;
    let best = least_in(alloc, best, Group::Outbox, root.get("outbox"))?;
    Ok(best)
}
