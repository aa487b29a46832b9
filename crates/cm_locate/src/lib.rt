//! The ranked answer: which points and peers may serve a client, in the order in which it asks them.
#![tactic(auto)]

mod allowing;
mod ask;
mod client;
mod eligible;
mod in_groups;
mod laws;
mod locating;
mod looking;
mod near;
mod ranking;
mod rows;

pub use ask::Ask;
pub use laws::{
    each_source_stands_once, eligible_sources_have_ranks, installed_rows_in_any_order,
    kinds_share_no_rank, minutes_take_no_point_away, one_answer, sources_of_current_groups_stay,
};
pub use locating::locate;
