//! `dump`: a line for each row of each node that is up.

ghost use Rattle.std.specs.Prelude.{◌≡◌, false, [], ◌∷◌, ◌++◌, codes, map, OnOk};
ghost use Rattle.std.specs.Option.{option_map_or};
ghost use Rattle.object_store.specs.Store.{rows_of};
ghost use Rattle.sheep_world.specs.World.{host_at};
ghost use Rattle.dog_report.specs.Words.{spaced_words, following_words};
ghost use Rattle.dog_report.specs.Lists.{to_word, dump};
ghost use Rattle.dog_report.specs.ListParts.{lines_text, summary_details, summary_words, object_rows, stored_rows, rows_if_up};

use crate::places::next_place;
use crate::row_order::rows_in_order;
use crate::words::{
    HASH_DIGITS, OID_DIGITS, end_line, push_decimal_word, push_hex_word, push_word,
};
use object_id::{Epoch, NoMemory, NodeId, Oid};
use object_store::{ObjStore, RowSummary};
use sheep_world::World;
use std::alloc::Global;

/// Adds the last epoch of a row behind another word: a dash for an open one.
fn push_last(text: &mut Vec<u8>, last: Option<Epoch>) -> Result<(), NoMemory>
    ensures { OnOk result (text.new.items ≡ text.old.items ++ following_words (to_word last ∷ [])) }
{
    match last {
        None => push_word(text, b"-"),
        Some(epoch) => push_decimal_word(text, u64::from(epoch.0)),
    }
}

/// Adds what a row is, behind the line's first word.
fn push_details(
    text: &mut Vec<u8>,
    node: NodeId,
    oid: Oid,
    row: &RowSummary,
) -> Result<(), NoMemory>
    ensures { OnOk result (text.new.items ≡ text.old.items ++ following_words (summary_details node.0 oid row.now)) }
{
    push_decimal_word(text, u64::from(node.0))?;
    push_hex_word(text, OID_DIGITS, oid.as_u64())?;
    push_decimal_word(text, u64::from(row.index))?;
    push_decimal_word(text, u64::from(row.from.0))?;
    push_last(text, row.to)?;
    push_hex_word(text, HASH_DIGITS, row.hash)
}

/// Adds the line of a row.
fn push_row(text: &mut Vec<u8>, node: NodeId, oid: Oid, row: &RowSummary) -> Result<(), NoMemory>
    ensures { OnOk result (text.new.items ≡ text.old.items ++ spaced_words (summary_words node.0 oid row.now) ++ codes "\n") }
{
    text.extend_from_slice(b"row")?;
    push_details(text, node, oid, row)?;
    end_line(text)?;
    Ok(())
}

/// Adds a line for each of these rows of an object.
fn push_rows(
    text: &mut Vec<u8>,
    node: NodeId,
    oid: Oid,
    rows: &[RowSummary],
) -> Result<(), NoMemory>
    ensures { OnOk result (text.new.items ≡ text.old.items ++ lines_text (map (summary_words node.0 oid) rows.now)) }
{
    for row in rows {
        push_row(text, node, oid, row)?;
    }
    Ok(())
}

/// Adds a line for each row of an object, in order.
fn push_object<O: ObjStore>(
    alloc: Global,
    text: &mut Vec<u8>,
    node: NodeId,
    store: &O,
    oid: Oid,
) -> Result<(), NoMemory>
    ensures { OnOk result (text.new.items ≡ text.old.items ++ lines_text (object_rows node.0 oid (rows_of (O.rows store.now) oid))) }
{
    let rows = rows_in_order(alloc, store, oid)?;
    push_rows(text, node, oid, rows.as_slice())?;
    Ok(())
}

/// Adds a line for each row of a node, by object. Takes memory for the ids of the objects and for one object's rows besides the text;
/// costs the logarithm of the objects for each row, and a look at its bytes.
pub fn push_stored<O: ObjStore>(
    alloc: Global,
    text: &mut Vec<u8>,
    node: NodeId,
    store: &O,
) -> Result<(), NoMemory>
    ensures { OnOk result (text.new.items ≡ text.old.items ++ lines_text (stored_rows node.0 (O.rows store.now))) }
{
    let objects = store.list()?;
    let oids = objects.as_slice();
    for oid in oids {
        push_object(alloc, text, node, store, *oid)?;
    }
    Ok(())
}

/// Adds a line for each row of a node, if it is up.
fn push_host(
    alloc: Global,
    text: &mut Vec<u8>,
    world: &World,
    number: NodeId,
) -> Result<(), NoMemory>
    requires { world.now.spent ≡ false }
    ensures { OnOk result (text.new.items ≡ text.old.items
        ++ lines_text (option_map_or (rows_if_up number.0) (host_at number.0 world.now.world) [])) }
{
    let Some(node) = world.node(number) else {
        return Ok(());
    };
    if !world.up(number) {
        return Ok(());
    }
    push_stored(alloc, text, number, node.peer().store())?;
    Ok(())
}

/// Adds a line for each row of each node that is up. Takes memory for the ids of a node's objects and for one object's rows besides the
/// text; costs the logarithm of the objects for each row, and a look at its bytes.
pub fn push_dump(alloc: Global, text: &mut Vec<u8>, world: &World) -> Result<(), NoMemory>
    requires { world.now.spent ≡ false }
    ensures { OnOk result (text.new.items ≡ text.old.items ++ lines_text (dump world.now.world)) }
{
    let mut place = 0_usize;
    while let Some(number) = world.node_at(place) {
        push_host(alloc, text, world, number)?;
        place = next_place(place)?;
    }
    Ok(())
}
