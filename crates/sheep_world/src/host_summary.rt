//! A host in short: what the conditions of events ask of it.

ghost use Rattle.std.specs.Prelude.{◌≡◌, ◌==◌, ◌&&◌, nat_lt, Some};
ghost use Rattle.sheep_world.specs.HostSummaries.{summary_of, no_summary};

use crate::host::Host;
use cluster_script::SessionOfScript;
use sheep_node::Input;

/// What a host is and may do, worked out once, so that nobody looks into its node again as long as it stays as it is.
#[derive(Clone, Copy)]
pub(crate) struct HostSummary {
    pub is_up: bool,
    pub is_lost: bool,
    /// Whether the node is a member by what it has read.
    pub is_member: bool,
    pub incarnation: u32,
    /// Whether it is up, and has an entry to put.
    pub may_put: bool,
    /// Whether it is up, and its recovery has work for a tick.
    pub may_recover: bool,
    /// Whether it is up, and a work may be tried again.
    pub may_retry: bool,
    /// How many entries of the log the node has read.
    pub read_len: usize,
}

impl HostSummary {
    /// The summary of a number that has no host.
    pub fn none() -> HostSummary
        ensures { result ≡ no_summary }
    {
        HostSummary {
            is_up: false,
            is_lost: false,
            is_member: false,
            incarnation: 0,
            may_put: false,
            may_recover: false,
            may_retry: false,
            read_len: 0,
        }
    }

    /// Whether the node is up, and has read fewer entries than there are.
    pub fn is_behind(self, entries: usize) -> bool
        ensures { result ≡ (self.is_up && nat_lt self.read_len entries) }
    {
        self.is_up && self.read_len < entries
    }

    /// Whether the node is up in the incarnation that a session belongs to, and a member by what it has read.
    pub fn serves(self, session: SessionOfScript) -> bool
        ensures { result ≡ (self.is_up && self.incarnation == session.incarnation && self.is_member) }
    {
        self.is_up && self.incarnation == session.incarnation && self.is_member
    }
}

impl Host {
    /// The host in short. Takes no memory. Looks at the members of the node's epoch, and at the works of its gateway up to the first that
    /// may be tried again.
    pub fn summary(&self) -> HostSummary
        ensures { result ≡ summary_of (Some self.now) }
    {
        HostSummary {
            is_up: self.is_up(),
            is_lost: self.is_lost(),
            is_member: self.node().is_member(),
            incarnation: self.incarnation(),
            may_put: self.may(&Input::Put),
            may_recover: self.may(&Input::RecoverTick),
            may_retry: self.may(&Input::RetryTick),
            read_len: self.node().read_len(),
        }
    }
}
