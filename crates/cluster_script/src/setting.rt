ghost use Rattle.cluster_script.specs.declared.statement.Statement.TheVariants as lines;
ghost use Rattle.cluster_script.specs.Settings.{nodes_set, vnodes_set, tries_set, limit_set};
ghost use Rattle.cluster_script.specs.ReadResults.{GivesLine};
ghost use Rattle.cluster_script.specs.Words.{words_of};
ghost use Rattle.cluster_script.specs.ClusterLines.{setting_at, zone_at};

use crate::draft::Draft;
use crate::fault::LineCause;
use crate::number::number;
use crate::statement::Statement;
use crate::words::end;
use object_id::{LIMIT_MAX, NODES_MAX, TRIES_MAX, VNODES_MAX, ZONES_MAX};

/// `cluster N`.
#[tactic(auto, unfolding(crate::specs::ClusterLines::setting_at))]
pub fn cluster(before: &Draft, line: &[u8]) -> Result<Statement, LineCause>
    ensures { GivesLine (λ s. s) result (setting_at (λ nodes. lines.Cluster nodes) nodes_set NODES_MAX before.now (words_of line.now)) }
{
    if !before.is_settings_only() || before.has_cluster() {
        return Err(LineCause::Word);
    }
    let (nodes, rest) = number(1, u64::from(NODES_MAX), line)?;
    end(rest)?;
    Ok(Statement::Cluster {
        nodes: nodes as u32,
    })
}

/// `vnodes V`.
#[tactic(auto, unfolding(crate::specs::ClusterLines::setting_at))]
pub fn vnodes(before: &Draft, line: &[u8]) -> Result<Statement, LineCause>
    ensures { GivesLine (λ s. s) result (setting_at (λ vnodes. lines.Vnodes vnodes) vnodes_set VNODES_MAX before.now (words_of line.now)) }
{
    if !before.is_settings_only() || before.has_vnodes() {
        return Err(LineCause::Word);
    }
    let (vnodes, rest) = number(1, u64::from(VNODES_MAX), line)?;
    end(rest)?;
    Ok(Statement::Vnodes {
        vnodes: vnodes as u16,
    })
}

/// `tries T`.
#[tactic(auto, unfolding(crate::specs::ClusterLines::setting_at))]
pub fn tries(before: &Draft, line: &[u8]) -> Result<Statement, LineCause>
    ensures { GivesLine (λ s. s) result (setting_at (λ tries. lines.Tries tries) tries_set TRIES_MAX before.now (words_of line.now)) }
{
    if !before.is_settings_only() || before.has_tries() {
        return Err(LineCause::Word);
    }
    let (tries, rest) = number(1, u64::from(TRIES_MAX), line)?;
    end(rest)?;
    Ok(Statement::Tries {
        tries: tries as u32,
    })
}

/// `limit L`.
#[tactic(auto, unfolding(crate::specs::ClusterLines::setting_at))]
pub fn limit(before: &Draft, line: &[u8]) -> Result<Statement, LineCause>
    ensures { GivesLine (λ s. s) result (setting_at (λ limit. lines.Limit limit) limit_set LIMIT_MAX before.now (words_of line.now)) }
{
    if !before.is_settings_only() || before.has_limit() {
        return Err(LineCause::Word);
    }
    let (limit, rest) = number(1, u64::from(LIMIT_MAX), line)?;
    end(rest)?;
    Ok(Statement::Limit {
        limit: limit as u32,
    })
}

/// `zone N Z`.
#[tactic(auto, unfolding(crate::specs::ClusterLines::zone_at))]
pub fn zone(before: &Draft, line: &[u8]) -> Result<Statement, LineCause>
    ensures { GivesLine (λ s. s) result (zone_at before.now (words_of line.now)) }
{
    if !before.is_settings_only() {
        return Err(LineCause::Word);
    }
    let (node, rest) = number(0, u64::from(NODES_MAX - 1), line)?;
    if before.has_zone(node) {
        return Err(LineCause::Twice);
    }
    let (zone, rest) = number(0, u64::from(ZONES_MAX - 1), rest)?;
    end(rest)?;
    Ok(Statement::Zone {
        node: node as u32,
        zone: zone as u32,
    })
}
