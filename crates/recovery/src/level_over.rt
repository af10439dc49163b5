//! What a level that is over leaves of the recovery and its node.

ghost use Rattle.std.specs.Prelude.{◌≡◌, ◌<◌, ◌^◌, ◌-◌, length, OnOk, OnErr, Some};
ghost use Rattle.recovery.specs.Level.{with_part_found, with_object_missing};
ghost use Rattle.recovery.specs.Kept.{recovery_state, state_after_level, IsSmallEnd};

use crate::level_end::LevelEnd;
use crate::recovery::Recovery;
use crate::rows::Rows;
use crate::search::Search;
use object_id::{NoMemory, Oid};
use object_store::Key;

impl Recovery {
    /// A level has come to its end. Without memory nothing changes.
    pub(crate) fn end_level<R: Rows>(
        &mut self,
        oid: Oid,
        end: LevelEnd,
        rows: &mut R,
    ) -> Result<(), NoMemory>
        requires { IsSmallEnd end }
        ensures ok { OnOk result (recovery_state self.new (R.shown rows.new)
            ≡ state_after_level oid end (recovery_state self.old (R.shown rows.old))) }
        ensures err { OnErr result (recovery_state self.new (R.shown rows.new) ≡ recovery_state self.old (R.shown rows.old)) }
        ensures rest { R.rest rows.new ≡ R.rest rows.old }
    {
        match end {
            LevelEnd::Found { index, bytes } => self.put_part(
                Key { oid, index },
                bytes.as_slice(),
                rows,
            ),
            LevelEnd::Missing => self.give_up(oid, rows),
            LevelEnd::Asks(level) => {
                self.search = Some(Search::at(self.alloc, oid, level));
                Ok(())
            }
            LevelEnd::Nothing => Ok(()),
        }
    }

    /// The node has its part, and the search ends.
    fn put_part<R: Rows>(&mut self, key: Key, bytes: &[u8], rows: &mut R) -> Result<(), NoMemory>
        requires { length bytes.now < 2 ^ 32 }
        ensures ok { OnOk result (recovery_state self.new (R.shown rows.new)
            ≡ with_part_found key.oid key.index bytes.now (recovery_state self.old (R.shown rows.old))) }
        ensures err { OnErr result (recovery_state self.new (R.shown rows.new) ≡ recovery_state self.old (R.shown rows.old)) }
        ensures rest { R.rest rows.new ≡ R.rest rows.old }
    {
        rows.put_row(key, bytes.len() as u32, bytes)?;
        self.search = None;
        Ok(())
    }

    /// The object is missing, and the search ends.
    fn give_up<R: Rows>(&mut self, oid: Oid, rows: &mut R) -> Result<(), NoMemory>
        ensures ok { OnOk result (recovery_state self.new (R.shown rows.new)
            ≡ with_object_missing oid (recovery_state self.old (R.shown rows.old))) }
        ensures err { OnErr result (recovery_state self.new (R.shown rows.new) ≡ recovery_state self.old (R.shown rows.old)) }
        ensures rest { R.rest rows.new ≡ R.rest rows.old }
    {
        self.missing.push(oid)?;
        rows.give_up(oid);
        self.search = None;
        Ok(())
    }
}
