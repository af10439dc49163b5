//! Law of what checks read: that it may be read.
ghost use Rattle.std.specs.Prelude.{List};
ghost use Rattle.cluster_script.specs.declared.statement.Statement.{Statement};
ghost use Rattle.overlap_law.specs.MomentChanges.{RunsAreInRange};
ghost use Rattle.overlap_law.specs.ReadsToldApart.{ChecksReadWhatMayBeRead};

/// In each run in range what a check reads of an object, as it comes to the write of its value by a reply, may be read of each block that
/// the disk has, of the disks that were available as the event began. For the value is that of what all targets gave, which has what they
/// owed in the epoch of the read: of copies the first target gave what the blocks may come to be read as, and the first strips together
/// are those of one attempt, since nobody writes the object. Who writes on the disk is of the session that holds it, in which the check is
/// alone; and the check has begun no write of the object yet.
pub fn what_checks_read_may_be_read()
    ensures { (script : List Statement) → RunsAreInRange script → ChecksReadWhatMayBeRead script }
{}
