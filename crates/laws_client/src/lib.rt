//! Laws of what a mail client may conclude from the bytes that it is told. They are of the selected mailbox within one session, of a house over the
//! record of all that was printed, of flags, and of a server's sessions. No code lives here, but laws.
#![tactic(auto)]

mod flag_laws;
mod list_laws;
mod record_laws;
mod served_laws;

pub use flag_laws::{
    clients_are_right, clients_know_flags, clients_of_scripts_know_flags, flags_are_heard,
    flags_are_told, flags_become_current, flags_have_moments, houses_tell_flags, lives_tell_flags,
    one_life_knows_flags, turns_tell_flags,
};
pub use list_laws::{
    answers_are_followed, ends_tell_nothing, lines_are_followed, literals_are_passed_over,
    messages_are_told, talks_are_followed, turns_are_followed, uids_are_heard,
};
pub use record_laws::{
    answers_are_cut, appends_are_told, calls_are_seen, clients_keep_up, houses_can_be_printed,
    lists_are_current, lives_are_known, one_life_happens, turns_are_known, uids_stay,
};
pub use served_laws::{
    served_clients_keep_up, served_clients_know_flags, served_lists_are_current,
    served_sessions_stay, served_texts_stay, served_visitors_keep_up, served_visits_are_lives,
};
