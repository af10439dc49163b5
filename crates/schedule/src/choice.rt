//! Which of the enabled events comes next: its place in their list, by a generator's word.
ghost use Rattle.std.specs.Prelude.{◌≡◌, ◌<◌, List, length, IfSome};
ghost use Rattle.sheep_node.specs.declared.event.Event.{Event};
ghost use Rattle.schedule.specs.Schedule.{Draft, next_choice, choice_at};

use crate::generator::next_word;
use rand_xoshiro::SplitMix64;

/// The place of the next event among so many that are enabled, drawn by the generator's next word. There is none where Phase
/// stands: where nothing is enabled, or as many events were taken as the limit allows. Then no word is drawn.
pub(crate) fn next_place(
    rng: &mut SplitMix64,
    count: usize,
    taken: u32,
    limit: u32,
) -> Option<usize>
    ensures within { IfSome result (λ place. place < count) }
    ensures room { IfSome result (λ _. taken < limit) }
    ensures choice { (draft : Draft) (events : List Event) → draft.rng ≡ rng.old → draft.taken ≡ taken → length events ≡ count
        → next_choice limit draft events ≡ choice_at draft events result rng.new }
{
    if count == 0 || limit <= taken {
        return None;
    }
    Some((next_word(rng) % count as u64) as usize)
}
