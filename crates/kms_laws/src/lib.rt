//! The laws of the machine: what holds of every history of every script, proved over the definitions alone. Each is the
//! contract of a function that does nothing, so no edit of a body says anything of it; rules beside which a law is false stand
//! in `proofs/FalseNeighbours.antt`, a history each.
#![tactic(auto)]

mod bounds;
mod ends;
mod headline;
mod locks;
mod longer;
mod once;
mod shown;

pub use bounds::{
    all_tails_get_shorter, counts_are_blankings, numbers_fit_their_types, tails_are_short,
    tails_get_shorter,
};
pub use ends::{
    finished_histories_are_over, generated_scripts_drain, generated_scripts_never_stall,
    histories_are_finished_once, histories_have_few_moves, one_is_over, rounds_are_still_at_ends,
    rounds_end,
};
pub use headline::{
    all_is_shown_once_cleaned, dead_histories_name_a_fence, events_come_once,
    framebuffers_are_freed_once, headline_holds, histories_go_on, pictures_are_whole,
    world_is_serial,
};
pub use locks::{
    busy_has_its_cause, contexts_stand, held_objects_are_framed, old_look_ups_ask_within_reach,
    tests_change_nothing, waits_have_no_cycle,
};
pub use longer::histories_stay;
pub use once::{labels_are_made_once, things_have_their_labels};
pub use shown::{
    answers_follow_commands, events_read_are_replies, shown_frames_stay,
    what_was_latched_can_be_composed,
};
