//! Laws of the definitions, for the proofs of the layers above: each is the contract of a function that does nothing.
ghost use Rattle.std.specs.Prelude.{◌≡◌, ◌≢◌, ◌↔◌, ℕ, ◌<◌, ◌≤◌, ◌^◌, min, List, [], length, take, Any, AllPairs, Contains, IsPermutation};
ghost use Rattle.object_id.specs.declared.node.NodeId.{NodeId};
ghost use Rattle.object_id.specs.declared.entry.Member.{Member};
ghost use Rattle.hash_ring.specs.declared.point.Point.{Point};
ghost use Rattle.hash_ring.specs.Placement.{Place, ComesFirst, places_in_order, one_a_zone, AreWeighted, targets_of, zone_count};
ghost use Rattle.hash_ring.specs.Points.{points_of, targets_among};

/// Places in order are the same places, by distance, then by number.
pub fn order_of_places()
    ensures same { (places : List Place) → IsPermutation places (places_in_order places) }
    ensures ascends { (places : List Place) → AllPairs ComesFirst (places_in_order places) }
{}

/// Of places in order the first of each zone are kept, in that order, and no others.
pub fn first_of_each_zone()
    ensures kept { (places : List Place) (place : Place) → Contains (one_a_zone [] (places_in_order places)) place
        ↔ (Contains places place × ((other : Place) → Contains places other → other.zone ≡ place.zone → ComesFirst place other)) }
    ensures ascends { (places : List Place) → AllPairs ComesFirst (one_a_zone [] (places_in_order places)) }
    ensures zones { (places : List Place) → AllPairs (λ (p q : Place). p.zone ≢ q.zone) (one_a_zone [] (places_in_order places)) }
{}

/// Targets are different members, no two of one zone.
pub fn targets_stand_apart()
    ensures members { (members : List Member) (object wanted : ℕ) (node : NodeId) → Contains (targets_of members object wanted) node
        → Any (λ (m : Member). m.node ≡ node) members }
    ensures different { (members : List Member) (object wanted : ℕ) → AreWeighted members
        → AllPairs (λ (a b : NodeId). a ≢ b) (targets_of members object wanted) }
    ensures zones { (members : List Member) (object wanted : ℕ) → AreWeighted members
        → AllPairs (λ (a b : NodeId). (m n : Member) → Contains members m → Contains members n → m.node ≡ a → n.node ≡ b → m.zone ≢ n.zone)
        (targets_of members object wanted) }
{}

/// There are as many targets as are wanted, or one for each zone where there are fewer zones; the targets for
/// fewer wanted are the first of those for more.
pub fn fewer_targets()
    ensures count { (members : List Member) (object wanted : ℕ)
        → length (targets_of members object wanted) ≡ min wanted (zone_count members) }
    ensures prefix { (members : List Member) (object fewer wanted : ℕ) → fewer ≤ wanted
        → targets_of members object fewer ≡ take fewer (targets_of members object wanted) }
    ensures prefix_of_ring { (points : List Point) (object fewer wanted : ℕ) → fewer ≤ wanted
        → targets_among points object fewer ≡ take fewer (targets_among points object wanted) }
{}

/// The points of members stand for them, in whatever order.
pub fn points_of_members()
    ensures { (members : List Member) (points : List Point) (object wanted : ℕ) → AreWeighted members
        → IsPermutation (points_of members) points
        → targets_among points object wanted ≡ targets_of members object wanted }
{}
