ghost use Rattle.std.specs.Prelude.{◌≡◌, ◌+◌, ◌<◌, ◌^◌, false, []};
ghost use Rattle.cluster_script.specs.Statements.{read_bytes, write_bytes};
ghost use Rattle.cluster_script.specs.Phases.{losses_in};
ghost use Rattle.cluster_script.specs.Totals.{IsTotal, totals_after};

use crate::statement::Statement;

/// What statements come to, so that no line has to look at all those before it.
#[derive(Clone, Copy, Debug)]
pub struct Totals {
    pub settings_only: bool,
    pub has_cluster: bool,
    pub has_vnodes: bool,
    pub has_tries: bool,
    pub has_limit: bool,
    /// How many messages may be lost in the present phase.
    pub losses: u32,
    pub requests: u32,
    pub checks: u32,
    pub read_bytes: u64,
    pub write_bytes: u64,
}

impl Totals {
    /// Those of no statements.
    pub fn new() -> Self
        ensures { IsTotal [] result }
    {
        Totals {
            settings_only: true,
            has_cluster: false,
            has_vnodes: false,
            has_tries: false,
            has_limit: false,
            losses: 0,
            requests: 0,
            checks: 0,
            read_bytes: 0,
            write_bytes: 0,
        }
    }

    /// With one statement more.
    pub fn counted(self, s: &Statement) -> Self
        requires losses { self.losses + losses_in s.now < 2 ^ 32 }
        requires requests { self.requests + 1 < 2 ^ 32 }
        requires checks { self.checks + 1 < 2 ^ 32 }
        requires reads { self.read_bytes + read_bytes s.now < 2 ^ 64 }
        requires writes { self.write_bytes + write_bytes s.now < 2 ^ 64 }
        ensures { result ≡ totals_after self s.now }
    {
        match s {
            Statement::Cluster { .. } => Totals {
                has_cluster: true,
                ..self
            },
            Statement::Vnodes { .. } => Totals {
                has_vnodes: true,
                ..self
            },
            Statement::Tries { .. } => Totals {
                has_tries: true,
                ..self
            },
            Statement::Limit { .. } => Totals {
                has_limit: true,
                ..self
            },
            Statement::Session { .. }
            | Statement::Fail { .. }
            | Statement::Join { .. }
            | Statement::Reweight { .. }
            | Statement::Back { .. } => self.behind_settings(),
            Statement::Create { .. }
            | Statement::OpenDisk { .. }
            | Statement::Close { .. }
            | Statement::Snapshot { .. }
            | Statement::Clone { .. }
            | Statement::Delete { .. } => self.with_request(),
            Statement::Read { length, .. } => Totals {
                read_bytes: self.read_bytes + *length as u64,
                ..self.with_request()
            },
            Statement::Write { length, .. } => Totals {
                write_bytes: self.write_bytes + *length as u64,
                ..self.with_request()
            },
            Statement::Lose { count } => Totals {
                losses: self.losses + *count,
                ..self.behind_settings()
            },
            Statement::Settle
            | Statement::ListNodes
            | Statement::ListVdis
            | Statement::ClusterInfo
            | Statement::Dump => Totals {
                losses: 0,
                ..self.behind_settings()
            },
            Statement::Zone { .. } => self,
            Statement::Check { .. } => Totals {
                checks: self.checks + 1,
                ..self.with_request()
            },
        }
    }

    fn behind_settings(self) -> Self
        ensures { result ≡ record self { settings_only = false } }
    {
        Totals {
            settings_only: false,
            ..self
        }
    }

    fn with_request(self) -> Self
        requires { self.requests + 1 < 2 ^ 32 }
        ensures { result ≡ record self { settings_only = false; requests = self.requests + 1 } }
    {
        Totals {
            settings_only: false,
            requests: self.requests + 1,
            ..self
        }
    }
}
