use crate::roster::Roster;
use object_id::Epoch;

/// An epoch: its members, and those of them that have not recovered in it.
#[derive(Debug)]
pub struct EpochRecord {
    pub members: Roster,
    pub missing: Roster,
}

/// Written out, so that letting one go is one call wherever it is done, and no cases there.
impl Drop for EpochRecord {
    fn drop(self) {
        let EpochRecord { members, missing } = self;
        drop(members);
        drop(missing);
    }
}

/// What holds after an entry of the log: the newest epoch, and the settled one.
#[derive(Clone, Copy, Debug)]
pub struct Mark {
    pub epoch: Epoch,
    pub settled: Epoch,
}
