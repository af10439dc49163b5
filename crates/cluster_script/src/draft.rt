ghost use Rattle.std.specs.Prelude.{◌≡◌, ◌+◌, [], ◌∷◌, ◌++◌, count_by, nat_le, nat_lt, OnOk, OnErr};
ghost use Rattle.std.specs.List.{list_all};
ghost use Rattle.cluster_script.specs.Statements.{is_setting, is_cluster, is_session_declared, is_check, has};
ghost use Rattle.cluster_script.specs.Settings.{is_set, nodes_set, vnodes_set, tries_set, limit_set, zone_set};
ghost use Rattle.cluster_script.specs.Phases.{losses_from};
ghost use Rattle.cluster_script.specs.Nodes.{is_node_used, is_failed, is_node_there};
ghost use Rattle.cluster_script.specs.Language.{MayStand, IsScript};
ghost use Rattle.cluster_script.specs.Requests.{has_room};

use crate::marks::MarkedNumbers;
use crate::statement::Statement;
use crate::totals::Totals;
use object_id::{
    CHECKS_MAX, Items, LOSSES_MAX, NoMemory, READ_BYTES_MAX, REQUESTS_MAX, WRITE_BYTES_MAX,
};
use std::alloc::Global;
use std::marker::Model;

/// The statements of the lines so far. What a line has to know of them is kept beside them, so that no answer goes through them.
#[derive(Debug, Drop)]
pub struct Draft {
    statements: Items<Statement>,
    totals: Totals,
    numbers: MarkedNumbers,
}

impl Model for Draft {
    ghost use Rattle.std.specs.Prelude.{List};
    ghost use Rattle.cluster_script.specs.declared.statement.Statement.{Statement as Line};
    ghost use Rattle.cluster_script.specs.Language.{IsScript};
    ghost use Rattle.cluster_script.specs.Totals.{IsTotal};
    ghost use Rattle.cluster_script.specs.Marks.{HaveMarks};

    ghost Value = { List Line };

    ghost view = { λ draft. draft.statements };

    ghost invariant = { λ draft. IsScript draft.statements × IsTotal draft.statements draft.totals
        × HaveMarks draft.statements draft.numbers };
}

impl Draft {
    /// No statement. Takes no memory.
    pub fn new(alloc: Global) -> Self
        ensures { result ≡ [] }
    {
        Draft {
            statements: Items::new(alloc),
            totals: Totals::new(),
            numbers: MarkedNumbers::new(),
        }
    }

    /// Whether only settings stand in it, so that one more may stand.
    pub fn is_settings_only(&self) -> bool
        ensures { result ≡ list_all is_setting self.now }
    {
        self.totals.settings_only
    }

    /// Whether `cluster` stands in it, so that a statement may stand that is no setting.
    #[tactic(auto, using(crate::proofs::Noted::cluster_is_set))]
    pub fn has_cluster(&self) -> bool
        ensures cluster { result ≡ has is_cluster self.now }
        ensures set { result ≡ is_set nodes_set self.now }
    {
        self.totals.has_cluster
    }

    pub fn has_vnodes(&self) -> bool
        ensures { result ≡ is_set vnodes_set self.now }
    {
        self.totals.has_vnodes
    }

    pub fn has_tries(&self) -> bool
        ensures { result ≡ is_set tries_set self.now }
    {
        self.totals.has_tries
    }

    pub fn has_limit(&self) -> bool
        ensures { result ≡ is_set limit_set self.now }
    {
        self.totals.has_limit
    }

    /// Whether the zone of a node is set.
    pub fn has_zone(&self, node: u64) -> bool
        ensures { result ≡ is_set (zone_set node) self.now }
    {
        self.numbers.zoned.has(node)
    }

    /// Whether a session of this number is declared.
    pub fn declares(&self, session: u64) -> bool
        ensures { result ≡ is_session_declared session self.now }
    {
        self.numbers.declared.has(session)
    }

    /// Whether the number of a node is used.
    pub fn has_used(&self, node: u64) -> bool
        ensures { result ≡ is_node_used node self.now }
    {
        self.numbers.used.has(node)
    }

    /// Whether a node is failed.
    pub fn has_failed(&self, node: u64) -> bool
        ensures { result ≡ is_failed node self.now }
    {
        self.numbers.failed.has(node)
    }

    /// Whether a node is there: used, and not failed.
    pub fn has_node(&self, node: u64) -> bool
        ensures { result ≡ is_node_there node self.now }
    {
        self.has_used(node) && !self.has_failed(node)
    }

    /// Whether so many messages more may be lost in the present phase.
    pub fn may_lose(&self, count: u64) -> bool
        ensures { result ≡ nat_le (losses_from 0 self.now + count) LOSSES_MAX }
    {
        count <= u64::from(LOSSES_MAX - self.totals.losses)
    }

    /// Whether one request more, which reads and writes so many bytes, stays within a script's limits.
    pub fn has_room(&self, read: u64, written: u64) -> bool
        ensures { result ≡ has_room read written self.now }
    {
        self.totals.requests < REQUESTS_MAX
            && read <= READ_BYTES_MAX - self.totals.read_bytes
            && written <= WRITE_BYTES_MAX - self.totals.write_bytes
    }

    /// Whether one check more stays within a script's limits, as far as these count checks alone.
    pub fn may_check(&self) -> bool
        ensures { result ≡ nat_lt (count_by is_check self.now) CHECKS_MAX }
    {
        self.totals.checks < CHECKS_MAX
    }

    /// Adds the next statement. Without memory the draft stays, and the statement is dropped.
    pub fn push(&mut self, s: Statement) -> Result<(), NoMemory>
        requires { MayStand self.old s }
        ensures ok { OnOk result (self.new ≡ self.old ++ s ∷ []) }
        ensures err { OnErr result (self.new ≡ self.old) }
    {
        let totals = self.totals.counted(&s);
        let numbers = self.numbers.marked(&s);
        self.statements.push(s)?;
        self.totals = totals;
        self.numbers = numbers;
        Ok(())
    }

    pub fn into_statements(self) -> Items<Statement>
        ensures statements { result ≡ self }
        ensures script { IsScript result }
    {
        self.statements
    }
}
