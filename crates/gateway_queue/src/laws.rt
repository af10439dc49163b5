//! Laws of the definitions, for the proofs of the layers above: each is the contract of a function that does nothing.
ghost use Rattle.std.specs.Prelude.{◌≡◌, ◌≢◌, ℕ, nat_lt, List, [], ◌∷◌, ◌++◌, map, filter, IsTrue, Contains};
ghost use Rattle.std.specs.List.Sorted.{IsStrictlyIncreasing};
ghost use Rattle.gateway_queue.specs.declared.queue.Queued.{Queued};
ghost use Rattle.gateway_queue.specs.Queue.{is_queued, is_queue, queue_without, earlier, may_run, AreApart};

/// Two requests that may both run have no index in common.
pub fn running_requests_are_apart()
    ensures { (queue : List Queued) (one other : Queued) → IsTrue (is_queue queue)
        → Contains queue one → Contains queue other → one.req ≢ other.req
        → IsTrue (may_run one.req queue) → IsTrue (may_run other.req queue) → AreApart one other }
{}

/// A request that may run may still run when others were pushed, and when another one is done.
pub fn what_may_run_stays_so()
    // What is pushed later changes nothing for a request, whether it may run or not.
    ensures pushed { (queue later : List Queued) (req : ℕ) → IsTrue (is_queued req queue)
        → may_run req (queue ++ later) ≡ may_run req queue }
    ensures done { (queue : List Queued) (req other : ℕ) → other ≢ req → IsTrue (may_run req queue)
        → IsTrue (may_run req (queue_without other queue)) }
{}

/// The request at the front may run, so of requests that wait for each other one always can.
pub fn the_oldest_may_run()
    ensures { (oldest : Queued) (queue : List Queued) → IsTrue (may_run oldest.req (oldest ∷ queue)) }
{}

/// Where requests are pushed in ascending number, the earlier ones are those of a lower number.
pub fn earlier_has_the_lower_number()
    ensures { (queue : List Queued) (req : ℕ) → IsStrictlyIncreasing (map (λ (queued : Queued). queued.req) queue)
        → IsTrue (is_queued req queue)
        → earlier req queue ≡ filter (λ (queued : Queued). nat_lt queued.req req) queue }
{}
