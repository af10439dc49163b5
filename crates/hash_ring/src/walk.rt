ghost use Rattle.std.specs.Prelude.{◌≡◌, ℕ, ◌+◌, ◌-◌, ◌^◌, ◌<◌, ◌≤◌, ◌==◌, ◌||◌, ◌++◌, false, [], ◌∷◌, length, take, drop, not, All};
ghost use Rattle.std.specs.Prelude.{slice_index_or, if◌then◌else◌};
ghost use Rattle.object_id.specs.declared.node.NodeId.{NodeId};
ghost use Rattle.object_id.specs.Node.{IsZone};
ghost use Rattle.hash_ring.specs.Placement.{is_among};
ghost use Rattle.hash_ring.specs.Points.{IsRing};
ghost use Rattle.hash_ring.specs.Walk.{walk, zones_before, AreMarked, first_nodes, zones_met};

use crate::point::Point;
use object_id::{NodeId, ZONES_MAX, is_zone};

/// The place of the first point that isn't before a hash; past the end where there is none.
pub fn first_from(points: &[Point], hash: u64) -> usize
    requires { IsRing points.now }
    ensures within { result ≤ length points.now }
    ensures before { All (λ (p : Point). p.hash < hash) (take result points.now) }
    ensures behind { All (λ (p : Point). hash ≤ p.hash) (drop result points.now) }
    ensures fits { All (λ (p : Point). p.hash < 2 ^ 64) points.now }
{
    if points.is_empty() {
        return 0;
    }
    // Contracts know that a hash fits its type once it is read; of the last it says so of all.
    let _greatest = points[points.len() - 1].hash;
    points.partition_point(|point| point.hash < hash)
}

/// The point at a turn of the walk: past the end it goes on at the front.
fn at(points: &[Point], start: usize, turn: usize) -> Point
    requires start { start ≤ length points.now }
    requires turn { turn < length points.now }
    ensures { result ≡ slice_index_or (walk start points.now) turn result }
{
    let ahead = points.len() - start;
    if turn < ahead {
        points[start + turn]
    } else {
        points[turn - ahead]
    }
}

/// Whether no point before this turn of the walk has the zone.
fn none_before(points: &[Point], start: usize, turn: usize, zone: u32) -> bool
    requires start { start ≤ length points.now }
    requires turn { turn < length points.now }
    ensures { result ≡ not (is_among zone (zones_before turn start points.now)) }
{
    for earlier in 0..turn {
        if at(points, start, earlier).zone == zone {
            return false;
        }
    }
    true
}

/// Whether no point before this turn has the zone, where the zones that were met are marked: only one that no node
/// may have is looked for.
fn is_new(
    points: &[Point],
    start: usize,
    turn: usize,
    zone: u32,
    met: &[bool; ZONES_MAX as usize],
) -> bool
    requires start { start ≤ length points.now }
    requires turn { turn < length points.now }
    requires met { AreMarked met.now (zones_before turn start points.now) }
    ensures { result ≡ not (is_among zone (zones_before turn start points.now)) }
{
    if is_zone(zone) {
        !met[zone as usize]
    } else {
        none_before(points, start, turn, zone)
    }
}

/// Marks a zone if a node may have it.
fn mark(met: &mut [bool; ZONES_MAX as usize], zone: u32)
    ensures { (z : ℕ) → IsZone z
        → slice_index_or met.new z false ≡ (slice_index_or met.old z false || zone == z) }
{
    if is_zone(zone) {
        met[zone as usize] = true;
    }
}

/// Writes a node behind the first `count` if it is wanted, and answers how many there are then.
fn keep(out: &mut [NodeId], count: usize, node: NodeId, is_wanted: bool) -> usize
    requires { count < length out.old }
    ensures filled { take result out.new ≡ take count out.old ++ (if is_wanted then node ∷ [] else []) }
    ensures rest { drop result out.new ≡ drop result out.old }
    ensures count { result ≡ count + (if is_wanted then 1 else 0) }
{
    if !is_wanted {
        return count;
    }
    out[count] = node;
    count + 1
}

/// Fills in the nodes of the walk from a place on, one a zone, at most `n`, and answers how many they are.
pub fn fill(points: &[Point], start: usize, n: usize, out: &mut [NodeId]) -> usize
    requires start { start ≤ length points.now }
    requires room { n ≤ length out.old }
    ensures count { result ≡ length (take n (first_nodes [] (walk start points.now))) }
    ensures filled { take result out.new ≡ take n (first_nodes [] (walk start points.now)) }
    ensures rest { drop result out.new ≡ drop result out.old }
{
    let mut count = 0;
    let mut met = [false; ZONES_MAX as usize];
    for turn in 0..points.len() {
        if count == n {
            return count;
        }
        let point = at(points, start, turn);
        let is_wanted = is_new(points, start, turn, point.zone, &met);
        count = keep(out, count, point.node, is_wanted);
        mark(&mut met, point.zone);
    }
    count
}

/// One more if it counts.
fn count_with(count: usize, counts: bool) -> usize
    requires { count < 2 ^ 64 - 1 }
    ensures { result ≡ count + (if counts then 1 else 0) }
{
    if !counts {
        return count;
    }
    count + 1
}

/// In how many zones the points' nodes stand. Costs a look at each point, and at a point of a zone that no node may have one at
/// each point before it.
pub fn count_zones(points: &[Point]) -> usize
    ensures { result ≡ zones_met points.now }
{
    let mut count = 0;
    let mut met = [false; ZONES_MAX as usize];
    let turns = points.len();
    for turn in 0..turns {
        let point = at(points, 0, turn);
        let counts = is_new(points, 0, turn, point.zone, &met);
        count = count_with(count, counts);
        mark(&mut met, point.zone);
    }
    count
}
