//! The text of a barrier's list, from the world in which its phase ends.

ghost use Rattle.std.specs.Prelude.{◌≡◌, false, ◌++◌, IfOk, OnOk};
ghost use Rattle.dog_report.specs.Report.{list_text};

use crate::cluster_info::push_cluster;
use crate::dump::push_dump;
use crate::node_list::push_members;
use crate::vdi_list::push_vdis;
use cluster_script::{Script, Statement};
use object_id::{Bytes, NoMemory};
use sheep_world::World;
use std::alloc::Global;

/// Adds the list of a barrier.
#[tactic(auto, unfolding(crate::specs::Lists::list_of))]
pub fn push_list(
    alloc: Global,
    text: &mut Vec<u8>,
    world: &World,
    statement: &Statement,
) -> Result<(), NoMemory>
    requires { world.now.spent ≡ false }
    ensures { OnOk result (text.new.items ≡ text.old.items ++ list_text statement.now world.now.world) }
{
    match statement {
        Statement::ListNodes => push_members(text, world),
        Statement::ListVdis => push_vdis(text, world.directory(), world.locks()),
        Statement::ClusterInfo => push_cluster(
            text,
            world.newest_epoch(),
            world.settled_epoch(),
            world.newest_members(),
        ),
        Statement::Dump => push_dump(alloc, text, world),
        _ => Ok(()),
    }
}

/// The text of a barrier's list, from the world in which its phase ends; nothing for `settle`, and for what is no barrier. The script
/// isn't looked at. Costs what is listed: for `cluster info` and `node list` the members, and for these a look at each of their objects;
/// for `vdi list` the logarithm of the known ids and of the locks for each live id; for `dump` the logarithm of a node's objects for each
/// row, and a look at its bytes.
pub fn list_text(
    alloc: Global,
    _script: &Script,
    world: &World,
    statement: &Statement,
) -> Result<Bytes, NoMemory>
    requires { world.now.spent ≡ false }
    ensures { IfOk result (λ text. text ≡ list_text statement.now world.now.world) }
{
    let mut text = Vec::new(alloc);
    push_list(alloc, &mut text, world, statement)?;
    Ok(Bytes::from_vec(text))
}
