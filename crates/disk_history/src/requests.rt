//! Write requests: which blocks each began to write, and what became of it.
ghost use Rattle.std.specs.Prelude.{◌≡◌, ◌||◌, true, [], Some, OnOk};
ghost use Rattle.std.specs.Ordering.{nat_cmp};
ghost use Rattle.std.specs.BTreeMap.{get, Updates};
ghost use Rattle.std.specs.BTreeSet.{contains, Updates as Gains};
ghost use Rattle.disk_history.specs.CheckerState.{fate_of, is_answer, may_end_in, stray_of, place_cmp};
ghost use Rattle.disk_history.specs.declared.requests.Fate.TheVariants.{Unanswered};

use object_id::NoMemory;
use std::alloc::Global;
use std::collections::{BTreeMap, BTreeSet};

/// What became of a write request.
#[derive(Clone, Copy)]
pub enum Fate {
    Unanswered,
    Done,
    Refused,
    Abandoned,
}

impl Fate {
    /// Whether a request with this fate has ended.
    pub fn is_answer(self) -> bool
        ensures { result ≡ is_answer self }
    {
        match self {
            Fate::Unanswered => false,
            Fate::Done => true,
            Fate::Refused => true,
            Fate::Abandoned => true,
        }
    }
}

/// A write request that began: whether one of its blocks wasn't there, and what became of it.
#[derive(Clone, Copy)]
pub struct RequestState {
    pub stray: bool,
    pub fate: Fate,
}

/// A block that a request began to write.
#[derive(Clone, Copy, PartialEq, Eq, PartialOrd, Ord)]
pub struct Place {
    pub req: u32,
    pub disk: u32,
    pub block: u64,
}

/// All write requests that began.
#[derive(Drop)]
pub struct Requests {
    pub states: BTreeMap<u32, RequestState>,
    pub places: BTreeSet<Place>,
}

impl Requests {
    pub fn new(alloc: Global) -> Self
        ensures states { result.states.entries ≡ [] }
        ensures places { result.places.keys ≡ [] }
    {
        Requests {
            states: BTreeMap::new(alloc),
            places: BTreeSet::new(alloc),
        }
    }

    /// What became of the request; one that hasn't begun is unanswered.
    pub fn fate(&self, req: u32) -> Fate
        ensures { result ≡ fate_of self.now req }
    {
        match self.states.get(&req) {
            Some(state) => state.fate,
            None => Fate::Unanswered,
        }
    }

    /// Whether one of the request's blocks wasn't there.
    pub fn is_stray(&self, req: u32) -> bool
        ensures { result ≡ stray_of self.now req }
    {
        match self.states.get(&req) {
            Some(state) => state.stray,
            None => false,
        }
    }

    pub fn has(&self, place: Place) -> bool
        ensures { result ≡ contains place_cmp self.now.places place }
    {
        self.places.contains(&place)
    }

    /// One more block of an unanswered request.
    pub fn begin(&mut self, place: Place, stray: bool) -> Result<(), NoMemory>
        ensures states { OnOk result (Updates nat_cmp self.old.states self.new.states place.req (Some (record {
          stray = stray_of self.old place.req || stray;
          fate = Unanswered;
        }))) }
        ensures places { OnOk result (Gains place_cmp self.old.places self.new.places place true) }
    {
        let state = RequestState {
            stray: self.is_stray(place.req) || stray,
            fate: Fate::Unanswered,
        };
        self.states.insert(place.req, state)?;
        self.places.insert(place)?;
        Ok(())
    }

    /// Whether the request began and hasn't ended.
    pub fn may_end(&self, req: u32) -> bool
        ensures { result ≡ may_end_in (get nat_cmp self.now.states req) }
    {
        match self.states.get(&req) {
            Some(state) => !state.fate.is_answer(),
            None => false,
        }
    }

    /// The request's end.
    pub fn end(&mut self, req: u32, fate: Fate) -> Result<(), NoMemory>
        ensures states { OnOk result (Updates nat_cmp self.old.states self.new.states req (Some (record {
          stray = stray_of self.old req;
          fate = fate;
        }))) }
        ensures places { OnOk result (self.new.places ≡ self.old.places) }
    {
        let state = RequestState {
            stray: self.is_stray(req),
            fate,
        };
        self.states.insert(req, state)?;
        Ok(())
    }
}
