ghost use Rattle.std.specs.Prelude.{◌≡◌, []};
ghost use Rattle.std.specs.FinMap as tree;
ghost use Rattle.peer_service.specs.State.{initial_peer};
ghost use Rattle.sheep_node.specs.State.{initial_node};

use crate::node_rows::NodeRows;
use crate::requests::Requests;
use crate::sessions::Sessions;
use disk_lock::Locks;
use gateway::Gateway;
use object_id::{Entry, Epoch, NodeId};
use page_store::PageStore;
use peer_service::PeerState;
use recovery::Recovery;
use std::alloc::Global;
use std::collections::VecDeque;
use std::marker::Model;
use vnode_table::Placement;

/// The store in which a node keeps its rows: the pages that were written.
pub type NodeStore = PageStore;

/// What a node is as long as it isn't spent. Contracts see the record `Node` of `specs/State.antt`.
pub(crate) struct NodeState {
    pub alloc: Global,
    pub me: NodeId,
    /// Its peer, the epochs that it entered, and what is kept of the entries that it has read.
    pub rows: NodeRows<NodeStore>,
    pub gateway: Gateway,
    pub recovery: Recovery,
    /// Whether `Recovered` of the recovery was put.
    pub recovered: bool,
    pub sessions: Sessions,
    pub requests: Requests,
    /// The entries that are still to be put into the log.
    pub outbox: VecDeque<Entry>,
    /// How many requests were sent.
    pub sends: u32,
}

/// Written out, so that letting one go is one call wherever it is done, and no cases there.
impl Drop for NodeState {
    fn drop(self) {
        let NodeState {
            alloc: _,
            me: _,
            rows,
            gateway,
            recovery,
            recovered: _,
            sessions,
            requests,
            outbox,
            sends: _,
        } = self;
        drop(rows);
        drop(gateway);
        drop(recovery);
        drop(sessions);
        drop(requests);
        drop(outbox);
    }
}

impl Model for NodeState {
    ghost use Rattle.std.specs.Prelude.{List};
    ghost use Rattle.std.specs.Coded.{codes, coded_ℕ};
    ghost use Rattle.std.specs.FinMap as tree;
    ghost use Rattle.std.specs.FinSet as set;
    ghost use Rattle.std.specs.Ordering.{nat_cmp};
    ghost use Rattle.object_store.specs.Store.{SeenRow};
    ghost use Rattle.gateway.specs.State.{Work};
    ghost use Rattle.sheep_node.specs.declared.course.Request.{Request};
    ghost use Rattle.sheep_node.specs.declared.session.Session.{Session};
    ghost use Rattle.sheep_node.specs.State.{Node};

    ghost Value = { Node };

    ghost coded = { Prim.hlevel (
      codes,
      tree.code {X = List SeenRow} {R = nat_cmp} coded_ℕ (Prim.hlevel codes),
      tree.code {X = Work} {R = nat_cmp} coded_ℕ (Prim.hlevel codes),
      set.code {R = nat_cmp} coded_ℕ,
      tree.code {X = Session} {R = nat_cmp} coded_ℕ (Prim.hlevel codes),
      tree.code {X = Request} {R = nat_cmp} coded_ℕ (Prim.hlevel codes),
    ) };

    ghost view = { λ state. record {
      me = state.me;
      peer = state.rows.peer;
      epochs = state.rows.epochs;
      gateway = state.gateway;
      recovery = state.recovery;
      recovered = state.recovered;
      sessions = state.sessions;
      requests = state.requests;
      outbox = state.outbox.items;
      sends = state.sends;
    } };
}

impl NodeRows<NodeStore> {
    /// Those of a node that has read nothing. Takes no memory.
    pub fn new(alloc: Global) -> NodeRows<NodeStore>
        ensures { result ≡ record { peer = initial_peer tree.empty 1; epochs = [] } }
    {
        let store = NodeStore::new(alloc);
        NodeRows {
            peer: PeerState::new(alloc, store, Epoch(1)),
            place: Placement::new(alloc),
            tally: None,
            locks: Locks::new(alloc),
        }
    }
}

impl NodeState {
    /// A node that has read nothing.
    pub fn new(alloc: Global, me: NodeId, tries: u32) -> NodeState
        ensures { result ≡ initial_node me tries }
    {
        NodeState {
            alloc,
            me,
            rows: NodeRows::new(alloc),
            gateway: Gateway::new(alloc, me, tries),
            recovery: Recovery::new(alloc, me),
            recovered: true,
            sessions: Sessions::new(alloc),
            requests: Requests::new(alloc),
            outbox: VecDeque::new(alloc),
            sends: 0,
        }
    }
}
