//! Laws of the definitions, for the proofs of the layers above: each is the contract of a function that does nothing.
ghost use Rattle.std.specs.Prelude.{◌≡◌, ◌↔◌, ◌⊎◌, ℕ, Bool, not, ◌&&◌, ◌||◌, List, [], filter, Contains, Any, IsTrue};
ghost use Rattle.std.specs.List.{list_all};
ghost use Rattle.std.specs.List.Sorted.{IsStrictlyIncreasing};
ghost use Rattle.object_id.specs.declared.node.NodeId.{NodeId};
ghost use Rattle.object_list.specs.Union.{union};
ghost use Rattle.object_list.specs.Gathered.{ListAnswer, gathered_after, is_same_node, has_node, has_answered};

/// The union is the one ascending list of the ids that stand in one of the two lists or in both.
pub fn union_is_the_ascending_list()
    ensures ascending { (oids others : List ℕ) → IsStrictlyIncreasing oids → IsStrictlyIncreasing (union oids others) }
    ensures has { (oids others : List ℕ) (oid : ℕ) → Contains (union oids others) oid ↔ (Contains oids oid ⊎ Contains others oid) }
    ensures only { (oids others all : List ℕ) → IsStrictlyIncreasing oids → IsStrictlyIncreasing all
        → ((oid : ℕ) → Contains all oid ↔ (Contains oids oid ⊎ Contains others oid)) → all ≡ union oids others }
{}

/// What was gathered, whichever nodes answered, in whatever order, and however often.
pub fn gathered_from_all_answers()
    // Waited for is each other member of which no answer came.
    ensures waiting { (me : NodeId) (members : List NodeId) (answers : List ListAnswer)
        → (gathered_after me members answers).waiting
        ≡ filter (λ node. not (is_same_node me node) && not (has_answered node answers)) members }
    ensures waits_for { (me : NodeId) (members : List NodeId) (answers : List ListAnswer) (node : NodeId)
        → has_node node (gathered_after me members answers).waiting
        ≡ (has_node node members && (not (is_same_node me node) && not (has_answered node answers))) }
    // Who asks the members one after another whether they are waited for, finds them all, in this order.
    ensures in_order { (me : NodeId) (members : List NodeId) (answers : List ListAnswer)
        → filter (λ node. has_node node (gathered_after me members answers).waiting) members
        ≡ (gathered_after me members answers).waiting }
    ensures finished { (me : NodeId) (members : List NodeId) (answers : List ListAnswer)
        → ((gathered_after me members answers).waiting ≡ [])
        ↔ IsTrue (list_all (λ node. is_same_node me node || has_answered node answers) members) }

    ensures ascending { (me : NodeId) (members : List NodeId) (answers : List ListAnswer)
        → IsStrictlyIncreasing (gathered_after me members answers).objects }
    ensures objects { (me : NodeId) (members : List NodeId) (answers : List ListAnswer) (oid : ℕ)
        → Contains (gathered_after me members answers).objects oid ↔ Any (λ (answer : ListAnswer). Contains answer.list oid) answers }
{}
