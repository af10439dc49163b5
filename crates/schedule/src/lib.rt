//! The order of events: the schedule that a seed gives, how far given events can be made, and the run into which the kept
//! steps of a live cluster are merged.
//!
//! The crate stands on `sheep_world` and what is below it, and takes its random words from `rand_xoshiro`. As code stand the
//! script that a number generates, as its text (`generated.rt`, whose lines are in `generated_lines.rt`), how the next of so
//! many enabled events is drawn (`choice.rt`), the run that a seed gives, event by event or as a whole (`seeded.rt`), and the run of given
//! events (`stops.rt`). As definitions stand the schedule (`specs/Schedule.antt`), the place at which events stop being enabled
//! (`specs/Stops.antt`), in which order kept steps stand and which events they merge to (`specs/Merged.antt`), and the generated script, by
//! its lines (`specs/Generated.antt`) and as a text and statements (`specs/GeneratedScript.antt`). The laws of `laws.rt` say what these
//! mean: a schedule is a whole run, in which Phase stands where nothing is enabled or the limit is reached; events stop at the
//! first that isn't enabled; what was kept has one order, in which its steps merge to one run at most; and each number
//! generates a script of 208 requests.
#![tactic(auto)]

mod choice;
mod fault;
mod generated;
mod generated_lines;
mod generator;
mod laws;
mod seeded;
mod stops;

pub use fault::RunFault;
pub use generated::generated_text;
pub use laws::{
    a_schedule_is_a_whole_run, a_script_generated, a_stop_is_the_first,
    each_number_generates_a_script, phase_stands_last, steps_merge_to_one_run, the_first_words,
    what_is_kept_has_one_order,
};
pub use seeded::{Schedule, run_seeded, step_seeded};
pub use sheep_world::enabled;
pub use stops::run_to;
