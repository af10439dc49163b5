//! The cluster as a whole: nodes, log, wire, sessions and the phases of a script, and each event that may happen.
//!
//! [`World`] is opened by a script, makes events one after another ([`World::apply`]), and says which may happen ([`World::enabled_count`],
//! [`enabled`]); [`Run`] keeps the events that were made, with their history. The crate stands on `sheep_node`, `message_wire`,
//! `cluster_script` and `disk_history`.
//!
//! All that may happen to a cluster stands as definitions: what a world is (`specs/World.antt`) and which
//! one a script opens with (`specs/Opening.antt`); when each event may happen
//! (`specs/Conditions.antt`); what it makes of the world (`specs/NodeSteps.antt`, `specs/Effects.antt`,
//! `specs/Messages.antt`, `specs/MembershipChanges.antt`) and adds to the history (`specs/HistoryAdditions.antt`,
//! `specs/Granted.antt`); both together, one clause an event (`specs/Step.antt`); runs of events (`specs/Run.antt`), the worlds
//! that runs reach (`specs/Began.antt`), the list of what may happen (`specs/Enabled.antt`), and the incarnations of nodes
//! (`specs/Incarnations.antt`).
//!
//! The code is in parts, each exactly the definition of its name, or out of memory: what a world keeps (`world_state.rt`, with `host.rt`
//! and `hosts.rt` over `host_table.rt` and `host_summary.rt`, `cluster_log.rt`, `guests.rt`, `control.rt`), how it opens (`opening.rt`),
//! what is looked up in a script
//! (`script_requests.rt`), when each event may happen (`conditions.rt`, with `request_conditions.rt`) and the list of these
//! (`enabled_list.rt`), and what each makes (`made_worlds.rt`, over `node_steps.rt`, `guest_event.rt`, `message_events.rt` with
//! `delivery.rt`, `log_events.rt`, `membership_events.rt`) and adds to the history (`granted.rt`, `history_blocks.rt`, `reply_history.rt`,
//! `check_history.rt`, `lost_writers.rt`). A client without a script asks a node ([`World::ask`]; `client_asks.rt`, over
//! `specs/ClientAsks.antt` and `specs/ClientSteps.antt`), and events are made until it has its answer ([`World::drive`]; `drive.rt`).
//!
//! A run, as the laws take it, is a list of moves (`specs/RunsWithAsks.antt`): events, and reads that a client without a script asks for
//! between them, of any node that is up and may be asked, of an object by its id, one at a time. Such a read is no event, and adds nothing
//! to the history. [`Run`] and the calls above it make events alone; a run of events is a run without such reads.
//!
//! The laws of `laws.rt` say what these mean. An event is made exactly if it may happen, and is of one of nine kinds
//! (`specs/EventKinds.antt`), of which the step of a node has eight causes; a client's read is a ninth (`specs/NodeCauses.antt`). So a
//! proof goes by kinds, and what holds of each node follows from its five changes (`specs/HostChanges.antt`). In each world that a run
//! reaches (`specs/Began.antt`) the script's requests at nodes were begun (`specs/BegunRequests.antt`), those of session 0 are a client's
//! reads (`specs/AsksOfClients.antt`), what nodes have read is a front of the log (`specs/LogFronts.antt`), the controls to come fit
//! (`specs/ControlsToCome.antt`), and what is in the wire was spelled (`specs/SpelledWire.antt`). As long as there is room for an epoch,
//! the log is a log of the nodes that are there (`specs/LogHolds.antt`), and what recoveries know of is in range (`specs/Ranges.antt`); and
//! as long as messages are in range too, nodes and wire go together (`specs/WireMatch.antt`, `specs/HoldsTogether.antt`), and works go with
//! their requests (`specs/OneWork.antt`).
#![tactic(auto)]

mod check_history;
mod client_asks;
mod cluster_log;
mod conditions;
mod control;
mod delivery;
mod drive;
mod enabled_list;
mod fault;
mod granted;
mod guest_event;
mod guests;
mod history_blocks;
mod host;
mod host_summary;
mod host_table;
mod hosts;
mod laws;
mod log_events;
mod lost_writers;
mod made_worlds;
mod membership_events;
mod message_events;
mod node_steps;
mod opening;
mod progress;
mod reply_history;
mod request_conditions;
mod run;
mod script_requests;
mod world;
mod world_readers;
mod world_state;
mod written_checks;

pub use fault::ApplyFault;
pub use laws::{
    a_check_reads_what_it_writes, a_clients_read_is_made_as_asked, a_history_only_grows,
    a_lost_node_gets_no_reply, a_node_may_step_on_an_ask, a_phase_brings_its_losses,
    a_run_is_cut_anywhere, a_small_world_worked_out, a_write_begins_each_block_once,
    an_answer_is_brought_by_events, an_ask_is_told_to_no_session,
    asks_stand_between_the_events_of_a_run, clients_ask_one_at_a_time, each_event_is_of_a_kind,
    lives_worked_out, members_make_no_disk, nodes_and_wire_stay_together,
    nodes_have_read_fronts_of_the_log, nodes_step_on_what_they_may, recoveries_stay_in_range,
    requests_have_inputs, requests_were_begun, the_controls_to_come_fit,
    the_enabled_list_has_what_may_happen, the_enabled_list_is_in_parts, the_log_holds,
    what_is_asked_can_be_spelled, what_is_in_the_wire_was_spelled, what_may_happen_is_made,
};
pub use progress::{ClientAsk, SessionProgress, StartedRequest};
pub use run::Run;
pub use script_requests::input_of;
pub use world::World;
pub use world_readers::enabled;
