ghost use Rattle.std.specs.Prelude.{◌≡◌, ℕ, ◌<◌, slice_index_or, unwrap_or};
ghost use Rattle.cluster_script.specs.Settings.{zone_set, zone_of};
ghost use Rattle.cluster_script.specs.Marks.{MayBeMarked};
ghost use Rattle.cluster_script.specs.Language.{IsScript};

use crate::statement::Statement;
use object_id::NODES_MAX;

/// The zones of nodes 0 up.
pub fn zones_in(statements: &[Statement]) -> [u32; NODES_MAX as usize]
    requires { IsScript statements.now }
    ensures { (node : ℕ) → node < NODES_MAX → slice_index_or result node 0 ≡ zone_of statements.now node }
{
    let mut zones = own_zones();
    // The first statement that sets a zone decides, so it is taken in last.
    for count in 0..statements.len() {
        note_zone(&mut zones, &statements[statements.len() - 1 - count]);
    }
    zones
}

/// Each node stands in the zone of its own number.
fn own_zones() -> [u32; NODES_MAX as usize]
    ensures { (node : ℕ) → node < NODES_MAX → slice_index_or result node 0 ≡ node }
{
    let mut zones = [0; NODES_MAX as usize];
    for node in 0..NODES_MAX {
        zones[node as usize] = node;
    }
    zones
}

/// Takes in the zone that a statement sets.
fn note_zone(zones: &mut [u32; NODES_MAX as usize], s: &Statement)
    requires { MayBeMarked s.now }
    ensures { (node : ℕ) → slice_index_or zones.new node 0 ≡ unwrap_or (zone_set node s.now) (slice_index_or zones.old node 0) }
{
    if let Statement::Zone { node, zone } = s {
        zones[*node as usize] = *zone;
    }
}
