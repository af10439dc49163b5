//! A round: all workers run at once, until each finds nothing to do.

use crate::gate::Gate;
use crate::pause::Pause;
use crate::workers::{RoundEnd, work_on};
use live_workers::{FIRST_SESSION_WORKER, MEMBERS_WORKER, Place, Shared};
use object_id::{NoMemory, NodeId};
use stamp_clock::ClockName;
use std::sync::Wait;
use std::thread::{self, Threads};

/// Whether a worker may have something to do in a round.
fn is_active<'a, N: ClockName, R: Wait>(rt: &R, shared: &Shared<'a, N>, worker: u32) -> bool {
    if worker >= MEMBERS_WORKER {
        return true;
    }
    if worker >= FIRST_SESSION_WORKER {
        return shared
            .script
            .session(worker - FIRST_SESSION_WORKER)
            .is_some();
    }
    shared.has_node(rt, NodeId(worker / 2))
}

/// The places of the workers that may have something to do, and the others.
fn parted<'a, N: ClockName, R: Wait>(
    rt: &R,
    shared: &Shared<'a, N>,
    places: Vec<Place<N>>,
) -> Result<(Vec<Place<N>>, Vec<Place<N>>), NoMemory> {
    let mut active = Vec::with_capacity(shared.alloc, places.len())?;
    let mut others = Vec::with_capacity(shared.alloc, places.len())?;
    for place in places {
        if is_active(rt, shared, place.worker) {
            active.push(place)?;
        } else {
            others.push(place)?;
        }
    }
    Ok((active, others))
}

/// Runs the workers of these places at once, and gives the places back. Where a thread can't be started the caller does its work.
fn run_workers<'a, N: ClockName + Send + Sync, G: Gate + Sync, R: Threads + Wait + Sync>(
    rt: &R,
    gate: &G,
    shared: &Shared<'a, N>,
    phase: usize,
    places: Vec<Place<N>>,
) -> Result<Vec<(Place<N>, RoundEnd)>, NoMemory> {
    let alloc = shared.alloc;
    let pause = &Pause::new(places.len() as u64);
    let done = thread::scope(
        thread::scope_env(),
        rt,
        |scope| -> Result<Vec<(Place<N>, RoundEnd)>, NoMemory> {
            let mut handles = Vec::with_capacity(alloc, places.len())?;
            let mut done = Vec::with_capacity(alloc, places.len())?;
            for place in places {
                let run = move || -> (Place<N>, RoundEnd) {
                    let mut place = place;
                    let end = work_on(rt, gate, shared, pause, &mut place, phase);
                    (place, end)
                };
                match scope.spawn(run) {
                    Ok(handle) => handles.push(handle)?,
                    Err(refused) => {
                        pause.end(rt);
                        done.push((refused.value)())?;
                    }
                }
            }
            for handle in handles {
                done.push(handle.join(rt))?;
            }
            Ok(done)
        },
    )?;
    Ok(done)
}

/// One round, in a phase of the script: the workers' places behind it.
pub(crate) fn round<'a, N: ClockName + Send + Sync, G: Gate + Sync, R: Threads + Wait + Sync>(
    rt: &R,
    gate: &G,
    shared: &Shared<'a, N>,
    phase: usize,
    places: Vec<Place<N>>,
) -> Result<Vec<Place<N>>, NoMemory> {
    let (active, others) = parted(rt, shared, places)?;
    let mut back = others;
    for (place, end) in run_workers(rt, gate, shared, phase, active)? {
        match end {
            RoundEnd::Idle => back.push(place)?,
            RoundEnd::NoMemory => return Err(NoMemory),
        }
    }
    Ok(back)
}
