//! What the overlap of epochs keeps: while nodes are lost, leave, join and come back, and recoveries run, the replies of
//! every run stay one legal history.
//!
//! The crate stands on `sheep_world` and on the crates below it. It has definitions, laws of them, and one call, [`keeps_overlap`],
//! which makes an event as `sheep_world` does and says what holds behind it. Beside the world stands the past of a run
//! (`specs/Past.antt`): all attempts to create or write, with the fate of each message (`specs/Attempts.antt`), and what else later words
//! need. Over it stand the words made, mute, doomed, covered and quiet (`specs/Words.antt`), live holders (`specs/Holders.antt`), the six
//! facts on which the overlap rests (`specs/Contents.antt`, `specs/Facts.antt`), the headline (`specs/Headline.antt`), beside it that no
//! object is missing (`specs/NoObjects.antt`), and the invariant that carries them (`specs/Overlap.antt`).
//!
//! All of this is proved of every run in range: the headline and the whole invariant (`headline.rt`), in the headline that refused
//! commands change nothing (`refused_commands.rt`), the facts (`facts.rt`), that no object is missing (`objects.rt`), and that each block
//! which a check has gone over has one value (`checked.rt`). What else holds of the parts of a moment, and what the words mean, is said
//! by the laws of the other files of `src/`; docs/overlap.md names the law behind each conjunct of the invariant. A run is a list of
//! moves, of events and of a client's reads: what a law says of the end of every event, or of the way of one, it says of such a read too.
//! What the client is told is no part of the history, and that what a read is told has what is owed is said of the reads of sessions
//! alone.
//!
//! An event is taken apart into small changes of a moment (`specs/StepMoments.antt`, `specs/MomentChanges.antt`), each of one kind by what
//! it makes of the wire and the attempts (`specs/Traffic.antt`). What each of them keeps holds of every run in range: that the wire and
//! the attempts stay tied (`specs/TiedAttempts.antt`), that what is asked is of the past, that attempts are of their shape
//! (`specs/ShapedAttempts.antt`), that the wire is linked with what nodes wait for, that gateways know the fates of their attempts, what
//! the group of epochs and nodes says (`specs/NodeEpochs.antt`), the group of writers (`specs/Writers.antt`), over what the works of
//! sessions rest on (`specs/AwaitedEntries.antt`, `specs/CommandDisks.antt`, `specs/WriterClaims.antt`), the groups of rows
//! (`specs/Rows.antt`), of recoveries (`specs/Lists.antt`, `specs/Searches.antt`) and of inodes and tables (`specs/Tables.antt`, over
//! `specs/ToCome.antt`). Of the history one induction carries what blocks may come to be read as, what open works would make of them, and
//! what open reads were told (`specs/HistoryStands.antt`). The runs of a script that a text may spell are in range: each node has rows of
//! few objects (`specs/RowsInRange.antt`), since each object was set apart for a request of the script, or is an inode.
//!
//! Between the events a client without a script may read objects; a run is made of both (`specs/Past.antt`, over `sheep_world`'s
//! `specs/RunsWithAsks.antt`). Such reads leave the past as it is; the laws of `with_asks.rt` say why.
#![tactic(auto)]

mod alone;
mod alone_checks;
mod apart;
mod births;
mod bytes;
mod checked;
mod checks_read;
mod copies;
mod drafts;
mod facts;
mod good_inodes;
mod headline;
mod heart;
mod history;
mod inodes;
mod items;
mod kept_event;
mod kept_rows;
mod laws;
mod legal;
mod lists;
mod losses;
mod objects;
mod overlap;
mod reads;
mod reads_told;
mod refused_commands;
mod rows;
mod searches;
mod since;
mod sound;
mod tables;
mod told;
mod unwritten;
mod whole;
mod with_asks;
mod works;
mod writers;

pub use alone::a_piece_that_is_done_is_alone;
pub use alone::items_of_requests_are_on_their_disk;
pub use alone::items_of_writes_are_of_their_pieces;
pub use alone::items_of_writes_are_their_own;
pub use alone::no_attempt_begins_behind_a_write;
pub use alone::only_a_check_writes_its_disk;
pub use alone::outcomes_of_what_is_written_are_its_bytes;
pub use alone::own_objects_are_behind_writes;
pub use alone::what_a_write_is_replied_to_is_alone;
pub use alone::what_is_checked_is_entered_alone;
pub use alone::what_is_replied_to_is_alone;
pub use alone::what_is_written_alone_is_all_that_comes;
pub use alone::what_is_written_comes_out_as_its_items;
pub use alone::what_is_written_is_alone;
pub use alone::what_is_written_is_entered_alone;
pub use alone::what_is_written_stays_alone;
pub use alone_checks::checks_have_their_works;
pub use alone_checks::what_checks_have_written_stays_alone;
pub use apart::what_an_event_told_is_apart_from_done_writes;
pub use births::a_made_create_always_comes_first;
pub use births::attempts_are_of_the_born;
pub use births::attempts_stay_carried_to_the_end;
pub use births::creates_come_first;
pub use births::none_is_before_birth;
pub use births::what_is_good_at_the_end_has_targets;
pub use bytes::copies_are_of_attempts;
pub use bytes::copies_stay_of_attempts;
pub use bytes::rows_have_what_they_owe_as_attempts_begin;
pub use bytes::rows_have_what_they_owe_as_entries_are_read;
pub use bytes::served_rows_have_what_they_owe;
pub use bytes::what_a_node_passed_by_is_doomed;
pub use bytes::what_reads_are_told_is_of_attempts;
pub use checked::each_check_leaves_one_value;
pub use checked::what_is_checked_is_one_value;
pub use checked::what_is_checked_stays_one_value;
pub use checked::what_is_checked_was_under_way;
pub use checks_read::what_checks_read_may_be_read;
pub use copies::nothing_is_written_beside_pieces;
pub use copies::what_is_copied_of_strips_was_read;
pub use drafts::data_is_of_published_disks;
pub use drafts::drafts_are_drawn;
pub use drafts::each_entry_keeps_blocks;
pub use drafts::places_are_drawn;
pub use drafts::publishers_may_write;
pub use drafts::requests_and_commands_are_kept;
pub use drafts::what_is_to_be_published_is_created;
pub use drafts::works_create_what_is_drawn;
pub use facts::attempts_stand;
pub use facts::bases_have_holders;
pub use facts::lists_have_all_bases;
pub use facts::lost_gateways_are_fenced;
pub use facts::rows_have_their_bases;
pub use facts::the_facts_hold;
pub use facts::the_overlap_gives_the_facts;
pub use good_inodes::available_inodes_are_as_the_tables_say;
pub use good_inodes::what_any_disk_names_is_made;
pub use headline::scripts_of_an_input_are_in_range;
pub use headline::the_headline_holds;
pub use headline::the_overlap_holds_in_every_run;
pub use heart::attempts_stay_carried;
pub use heart::no_row_is_of_an_earlier_level;
pub use heart::no_search_has_passed_what_is_made;
pub use heart::recovered_rows_stay_kept;
pub use heart::what_is_good_has_targets;
pub use heart::what_is_made_is_held;
pub use heart::what_was_passed_lacks_rows;
pub use history::attempts_enter_what_may_come;
pub use history::attempts_of_the_refused_come_to_nothing;
pub use history::commands_write_what_may_come;
pub use history::creates_are_of_their_pieces;
pub use history::disks_are_there_by_the_log;
pub use history::each_change_adds_to_the_history;
pub use history::items_are_open_until_their_request_ends;
pub use history::what_ends_keeps_blocks;
pub use history::what_was_served_stays_to_come;
pub use inodes::inodes_are_as_the_tables_say;
pub use inodes::published_inodes_have_their_tables;
pub use inodes::tables_are_the_inodes;
pub use items::a_check_that_counts_has_begun_a_write;
pub use items::checks_begin_no_write_ahead;
pub use items::checks_have_items_behind_them;
pub use items::checks_have_no_items_ahead;
pub use items::checks_have_their_items;
pub use items::disks_of_the_history_have_their_blocks;
pub use items::each_block_under_way_is_open;
pub use items::only_the_holder_begins_writes_of_its_disk;
pub use items::pieces_left_to_write_are_open;
pub use items::values_of_checks_have_their_items;
pub use items::what_checks_begin_may_follow;
pub use items::what_checks_write_stands;
pub use items::what_is_left_to_write_has_its_items;
pub use items::what_is_left_to_write_keeps_its_items;
pub use items::what_is_under_way_is_open;
pub use kept_event::keeps_overlap;
pub use kept_rows::rows_and_recoveries_are_kept;
pub use laws::a_base_is_made;
pub use laws::an_attempt_begins_where_one_opens;
pub use laws::an_event_is_a_trail_of_changes;
pub use laws::attempts_of_the_refused_are_mute;
pub use laws::each_change_is_of_a_kind_of_traffic;
pub use laws::each_target_has_its_fate;
pub use laws::epochs_and_nodes_are_kept;
pub use laws::gateways_know_the_fates;
pub use laws::members_stay_until_they_are_lost;
pub use laws::messages_touch_their_requests;
pub use laws::no_read_of_what_was_available_is_left_out;
pub use laws::nodes_have_rows_of_few_objects;
pub use laws::nodes_step_on_what_they_may;
pub use laws::open_works_have_messages;
pub use laws::other_attempts_hear_nothing;
pub use laws::packets_are_of_open_works;
pub use laws::peers_of_another_epoch_change_nothing;
pub use laws::recoveries_are_of_members_that_came;
pub use laws::refused_requests_have_no_items;
pub use laws::refused_requests_make_nothing;
pub use laws::runs_of_few_controls_are_in_range;
pub use laws::the_attempts_are_shaped;
pub use laws::the_attempts_stay_in_order;
pub use laws::the_past_follows_the_run;
pub use laws::the_recovered_have_all;
pub use laws::the_wire_and_the_attempts_stay_tied;
pub use laws::the_wire_is_kept;
pub use laws::the_wire_is_linked;
pub use laws::units_follow_each_other;
pub use laws::what_becomes_of_an_attempt;
pub use laws::what_is_asked_is_of_the_past;
pub use laws::what_is_doomed_stays_doomed;
pub use laws::what_is_made_stays_made;
pub use laws::what_is_replied_fits;
pub use laws::what_nodes_have_read_is_of_the_log;
pub use laws::what_works_ask_can_be_spelled;
pub use laws::who_joins_is_new;
pub use legal::all_else_may_follow;
pub use legal::open_snapshots_are_of_the_history;
pub use legal::what_entries_add_may_follow;
pub use legal::what_reads_come_to_is_to_come;
pub use legal::what_requests_did_is_told_by_events;
pub use legal::what_was_read_stays_so;
pub use legal::working_disks_are_of_the_history;
pub use lists::finished_lists_are_noted_once;
pub use lists::lists_stay_complete;
pub use lists::what_is_recovered_stays_kept;
pub use losses::few_losses_leave_enough_live_holders;
pub use losses::few_losses_leave_the_whole_history_legal;
pub use losses::unchanged_members_leave_the_whole_history_legal;
pub use objects::no_object_is_lacked;
pub use objects::no_object_is_missing;
pub use objects::nothing_comes_to_be_lacked;
pub use objects::rows_are_asked_of_targets;
pub use objects::the_overlap_gives_objects;
pub use overlap::a_script_opens_with_the_overlap;
pub use overlap::the_messages_of_the_gone_are_fenced;
pub use overlap::the_overlap_gives_complete_lists;
pub use overlap::the_overlap_gives_holders;
pub use overlap::the_overlap_gives_legal_replies;
pub use overlap::the_overlap_holds_by_the_tests_of_an_events_end;
pub use overlap::the_overlap_holds_of_fewer;
pub use overlap::the_overlap_makes_attempts_stand;
pub use overlap::the_settled_have_recovered;
pub use reads::each_snapshot_is_taken;
pub use reads::reads_are_known;
pub use reads::the_writers_are_kept;
pub use reads_told::coded_writes_are_of_bytes;
pub use reads_told::each_change_keeps_what_reads_were_told;
pub use reads_told::what_is_checked_is_of_an_open_disk;
pub use reads_told::what_is_done_is_of_an_open_disk;
pub use reads_told::what_reads_were_given_has_what_was_owed;
pub use reads_told::what_strips_give_is_made;
pub use reads_told::what_strips_give_is_to_come;
pub use refused_commands::refused_commands_change_nothing;
pub use rows::requests_are_of_attempts;
pub use rows::rows_are_at_targets;
pub use rows::rows_are_begun;
pub use rows::rows_are_whole;
pub use rows::rows_stand_in_turn;
pub use rows::served_rows_stay;
pub use rows::what_nodes_have_was_born;
pub use searches::levels_are_asked;
pub use searches::searches_are_in_order;
pub use searches::the_made_stays_unmissed;
pub use searches::told_rows_are_true;
pub use searches::told_rows_keep_what_they_owe;
pub use searches::what_a_search_passes_lacks_rows;
pub use searches::what_is_pending_is_lacked;
pub use searches::what_isnt_pending_is_there;
pub use searches::what_was_there_stays_there;
pub use searches::what_was_told_stays;
pub use since::attempts_are_of_works;
pub use since::rows_have_what_they_owe_as_no_node_steps;
pub use since::rows_have_what_they_owe_as_requests_are_answered;
pub use since::rows_have_what_they_owe_over_each_change;
pub use sound::blocks_that_are_read_are_not_written;
pub use sound::items_of_strips_are_coded;
pub use sound::open_items_are_under_way;
pub use sound::requests_that_wait_made_none;
pub use sound::strips_are_sound_unless_written;
pub use sound::strips_that_are_read_come_alike;
pub use tables::candidates_are_of_what_may_come;
pub use tables::inodes_of_working_disks_are_made;
pub use tables::own_entries_of_tables_are_made;
pub use tables::published_inodes_are_made;
pub use tables::what_is_done_was_made;
pub use tables::what_is_named_is_made;
pub use tables::what_may_come_might_before;
pub use tables::what_was_created_stays_created;
pub use told::blocks_are_read_through_their_strips;
pub use told::what_a_read_is_told_is_to_come;
pub use told::what_a_read_is_told_of_strips_is_made;
pub use told::what_commands_read_is_to_come;
pub use told::what_good_reads_are_told_has_what_is_owed;
pub use told::what_is_read_of_copies_is_to_come;
pub use told::what_reads_are_told_has_what_is_owed;
pub use unwritten::writes_that_are_done_are_apart_from_open_reads;
pub use whole::each_event_of_a_run_tells_what_may_be_read;
pub use whole::the_history_stands;
pub use with_asks::a_clients_read_makes_nothing;
pub use with_asks::a_driven_world_is_reached;
pub use with_asks::a_run_with_asks_has_its_past;
pub use works::own_entries_of_tables_stay_made;
pub use works::requests_of_nodes_are_the_scripts;
pub use works::tables_are_of_one_spec;
pub use works::tables_are_of_the_chain;
pub use works::the_attempts_are_whole;
pub use works::what_is_written_back_names_what_is_made;
pub use works::works_are_waited_for;
pub use works::works_keep_naming_what_is_made;
pub use writers::a_session_has_one_inode_work;
pub use writers::attempts_are_in_order;
pub use writers::attempts_are_of_epochs_that_began;
pub use writers::attempts_are_of_the_past;
pub use writers::attempts_are_under_the_grant;
pub use writers::begun_requests_are_apart;
pub use writers::claims_of_sessions_are_kept;
pub use writers::commands_keep_their_grants;
pub use writers::each_attempt_is_for_a_request;
pub use writers::entries_of_commands_are_awaited;
pub use writers::few_effects_change_the_writer;
pub use writers::grants_are_of_epochs_that_began;
pub use writers::makers_are_apart;
pub use writers::only_the_writer_writes;
pub use writers::open_attempts_are_the_latest;
pub use writers::open_disks_are_held;
pub use writers::open_disks_fit_commands;
pub use writers::open_reads_are_the_last;
pub use writers::open_works_may_write;
pub use writers::requests_of_nodes_are_without_reply;
pub use writers::scripts_of_a_text_have_room;
pub use writers::scripts_of_few_controls_have_room;
pub use writers::snapshots_are_closed;
pub use writers::snapshots_stay;
pub use writers::the_refused_are_answered;
pub use writers::the_writer_begins_in_turn;
pub use writers::there_is_one_writer;
pub use writers::there_stays_one_writer;
pub use writers::works_are_apart;
pub use writers::works_of_sessions_are_apart;
