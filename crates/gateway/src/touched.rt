ghost use Rattle.std.specs.Prelude.{◌≡◌, false, IsOk, OnOk, OnErr, if◌then◌else◌};
ghost use Rattle.std.specs.FinSet as set;

use object_id::NoMemory;
use std::alloc::Global;
use std::collections::BTreeSet;
use std::marker::Model;

/// The requests of which something may have been made. Contracts see the finite set.
pub(crate) struct Touched {
    requests: BTreeSet<u32>,
}

/// Written out, so that letting one go is one call wherever it is done, and no cases there.
impl Drop for Touched {
    fn drop(self) {
        let Touched { requests } = self;
        drop(requests);
    }
}

impl Model for Touched {
    ghost use Rattle.std.specs.Coded.{coded_ℕ};
    ghost use Rattle.std.specs.FinSet as set;
    ghost use Rattle.std.specs.Ordering.{nat_cmp};

    ghost Value = { set.FinSet nat_cmp };

    ghost coded = { set.code coded_ℕ };

    ghost view = { λ touched. set.from_list touched.requests.keys };
}

impl Touched {
    pub fn new(alloc: Global) -> Touched
        ensures { result ≡ set.empty }
    {
        Touched {
            requests: BTreeSet::new(alloc),
        }
    }

    pub fn has(&self, req: u32) -> bool
        ensures { result ≡ set.contains self.now req }
    {
        self.requests.contains(&req)
    }

    /// Touches a request, if something of it may have been made; else it takes no memory.
    pub fn touch(&mut self, req: u32, made: bool) -> Result<(), NoMemory>
        ensures ok { OnOk result (self.new ≡ (if made then set.insert self.old req else self.old)) }
        ensures err { OnErr result (self.new ≡ self.old) }
        ensures memory { made ≡ false → IsOk result }
    {
        if made {
            self.requests.insert(req)?;
        }
        Ok(())
    }

    pub fn forget(&mut self, req: u32)
        ensures { self.new ≡ set.remove self.old req }
    {
        self.requests.remove(&req);
    }
}
