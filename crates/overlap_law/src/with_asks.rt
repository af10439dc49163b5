//! Laws of a client's reads between the events of a run.
ghost use Rattle.std.specs.Prelude.{◌≡◌, ◌≢◌, ◌≤◌, ℕ, true, List, [], ◌∷◌, ◌++◌, length, map, Some};
ghost use Rattle.std.specs.Option.{option_map};
ghost use Rattle.object_id.specs.declared.node.NodeId.{NodeId};
ghost use Rattle.cluster_script.specs.declared.statement.Statement.{Statement};
ghost use Rattle.gateway.specs.State.{is_touched};
ghost use Rattle.sheep_node.specs.declared.ask.Ask.{Ask};
ghost use Rattle.sheep_node.specs.declared.event.Event.{Event};
ghost use Rattle.sheep_node.specs.OneWork.{NumbersAreBelow};
ghost use Rattle.sheep_world.specs.World.{Host, World, host_at};
ghost use Rattle.sheep_world.specs.Began.{Began};
ghost use Rattle.sheep_world.specs.ClientAsks.{is_read_ask, may_be_asked, may_client_ask};
ghost use Rattle.sheep_world.specs.ClientSteps.{ask_effect, world_driven};
ghost use Rattle.sheep_world.specs.Run.{run};
ghost use Rattle.sheep_world.specs.RunsWithAsks.{Move, Happens, Asks};
ghost use Rattle.overlap_law.specs.BegunAttempts.{attempts_begun};
ghost use Rattle.overlap_law.specs.DrivenEvents.{driven_events};
ghost use Rattle.overlap_law.specs.MomentChanges.{RunsAreInRange};
ghost use Rattle.overlap_law.specs.Past.{MomentWithPast, next_moment, run_with_past, without_past};

/// A run of events is one in which a client asks for nothing. A run with asks goes on with each move that may be made; and in a run in
/// range a client's read leaves the past as it is.
pub fn a_run_with_asks_has_its_past()
    ensures events { (script : List Statement) (events : List Event)
        → option_map without_past (run_with_past script (map Happens events)) ≡ run script events }
    ensures longer { (script : List Statement) (next : Move) (moves : List Move) (before after : MomentWithPast)
        → run_with_past script moves ≡ Some before → next_moment script next before ≡ Some after
        → run_with_past script (moves ++ next ∷ []) ≡ Some after }
    ensures past { (script : List Statement) (moves : List Move) (node : NodeId) (ask : Ask) (before after : MomentWithPast)
        → RunsAreInRange script → run_with_past script moves ≡ Some before → next_moment script (Asks node ask) before ≡ Some after
        → after.past ≡ before.past }
    // So a run in range goes on with each read for which a client may ask.
    ensures asked { (script : List Statement) (moves : List Move) (node : NodeId) (ask : Ask) (before : MomentWithPast)
        → RunsAreInRange script → run_with_past script moves ≡ Some before → may_client_ask node.0 before.world ≡ true
        → may_be_asked ask node.0 before.world ≡ true → is_read_ask ask ≡ true
        → run_with_past script (moves ++ Asks node ask ∷ [])
        ≡ Some (record { world = ask_effect node.0 ask before.world; past = before.past }) }
{}

/// Why it leaves the past so: what a client reads begins no attempt to create or write at its node, where that gave the numbers that
/// it waits for; the node's rows, epochs and recovery stay, so no list is finished; no request is touched by it; the other nodes and the
/// log stay, and no node is lost or comes back by it, so what is available stays so.
pub fn a_clients_read_makes_nothing()
    ensures attempts { (node : ℕ) (ask : Ask) (world : World) (host : Host) → is_read_ask ask ≡ true → host_at node world ≡ Some host
        → NumbersAreBelow host.node.sends host.node.gateway.works → attempts_begun node world (ask_effect node ask world) ≡ [] }
    ensures stays { (node : ℕ) (ask : Ask) (world : World) (host after : Host) → is_read_ask ask ≡ true → host_at node world ≡ Some host
        → host_at node (ask_effect node ask world) ≡ Some after
        → (after.node.peer ≡ host.node.peer) × (after.node.epochs ≡ host.node.epochs) × (after.node.recovery ≡ host.node.recovery) }
    ensures touched { (node : ℕ) (ask : Ask) (world : World) (host after : Host) (req : ℕ) → is_read_ask ask ≡ true
        → host_at node world ≡ Some host → host_at node (ask_effect node ask world) ≡ Some after
        → is_touched req after.node.gateway ≡ true → is_touched req host.node.gateway ≡ true }
    ensures lives { (node : ℕ) (ask : Ask) (world : World) (n : ℕ) (host after : Host) → host_at n world ≡ Some host
        → host_at n (ask_effect node ask world) ≡ Some after
        → (after.is_lost ≡ host.is_lost) × (after.incarnation ≡ host.incarnation) }
    ensures others { (node : ℕ) (ask : Ask) (world : World) (other : ℕ) → other ≢ node
        → host_at other (ask_effect node ask world) ≡ host_at other world }
    ensures log { (node : ℕ) (ask : Ask) (world : World) → (ask_effect node ask world).log ≡ world.log }
{}

/// A world of a run, driven on to a client's answer, is one of a run again: that of the same moves, and behind them the events by which it
/// was driven, one for each turn at most. So the past goes on with them.
pub fn a_driven_world_is_reached()
    ensures reached { (statements : List Statement) (world : World) → Began statements world → (turns : ℕ)
        → Began statements (world_driven statements turns world) }
    ensures behind { (script : List Statement) (moves : List Move) (before : MomentWithPast) (turns : ℕ)
        → run_with_past script moves ≡ Some before
        → option_map (λ (after : MomentWithPast). after.world)
        (run_with_past script (moves ++ map Happens (driven_events script turns before.world)))
        ≡ Some (world_driven script turns before.world) }
    ensures few { (script : List Statement) (turns : ℕ) (world : World) → length (driven_events script turns world) ≤ turns }
{}
