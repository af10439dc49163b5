ghost use Rattle.std.specs.Prelude.{◌≡◌, ℕ, ◌≤◌, length, take, drop, IfOk, IsPermutation};
ghost use Rattle.hash_ring.specs.Placement.{AreWeighted, targets_of};
ghost use Rattle.hash_ring.specs.Points.{NodesHaveOneZone, points_of, targets_among};

use crate::point::{Point, add_points};
use crate::walk::{count_zones, fill, first_from};
use object_id::{Member, NoMemory, NodeId};
use std::alloc::Global;
use std::marker::Model;

/// The points of an epoch's virtual nodes in the order of the circle, and next to them in how many zones their nodes stand.
/// Contracts see it as the list of its points.
#[derive(Debug)]
pub struct Ring {
    points: Vec<Point>,
    zones: usize,
}

/// Written out, so that letting one go is one call wherever it is done, and no cases there.
impl Drop for Ring {
    fn drop(self) {
        let Ring { points, zones: _ } = self;
        drop(points);
    }
}

impl Model for Ring {
    ghost use Rattle.std.specs.Prelude.{◌≡◌, List};
    ghost use Rattle.hash_ring.specs.declared.point.Point.{Point};
    ghost use Rattle.hash_ring.specs.Points.{IsRing};
    ghost use Rattle.hash_ring.specs.Walk.{zones_met};

    ghost Value = { List Point };

    ghost view = { λ ring. ring.points.items };

    ghost invariant = { λ ring. IsRing ring.points.items × (ring.zones ≡ zones_met ring.points.items) };
}

impl Ring {
    /// The ring of the points of the members' virtual nodes, as many for each member as its weight. Costs the sorting of these points.
    pub fn build(alloc: Global, members: &[Member]) -> Result<Ring, NoMemory>
        requires { AreWeighted members.now }
        ensures points { IfOk result (λ ring. IsPermutation (points_of members.now) ring) }
        // Its targets are those of the members.
        ensures placement { IfOk result (λ ring. (object wanted : ℕ)
            → targets_among ring object wanted ≡ targets_of members.now object wanted) }
    {
        let mut points = Vec::new(alloc);
        for member in members {
            add_points(&mut points, member)?;
        }
        Ok(Ring::from_points(points))
    }

    /// The ring of these points, which may have equal hashes. Takes no memory. Costs their sorting, and for each point of a
    /// zone that no node may have a look at those before it.
    pub fn from_points(points: Vec<Point>) -> Ring
        requires { NodesHaveOneZone points.items }
        ensures points { IsPermutation points.items result }
        // Its targets are those of the points.
        ensures placement { (object wanted : ℕ)
            → targets_among result object wanted ≡ targets_among points.items object wanted }
    {
        let mut points = points;
        points.sort_unstable();
        let zones = count_zones(points.as_slice());
        Ring { points, zones }
    }

    /// Fills in the first `n` targets of an object of this hash, and answers how many they are: `n`, or fewer
    /// where there are fewer zones. The rest of `out` stays. Takes no memory. Costs the logarithm of the points, and a look at each
    /// from the hash on up to the last target, also where there are fewer zones than `n`.
    pub fn targets(&self, hash: u64, n: usize, out: &mut [NodeId]) -> usize
        requires { n ≤ length out.old }
        ensures count { result ≡ length (targets_among self.now hash n) }
        ensures filled { take result out.new ≡ targets_among self.now hash n }
        ensures rest { drop result out.new ≡ drop result out.old }
    {
        let points = self.points.as_slice();
        // With a target in each zone no other point can be one.
        let most = n.min(self.zones);
        fill(points, first_from(points, hash), most, out)
    }
}
