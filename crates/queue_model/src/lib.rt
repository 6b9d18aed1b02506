//! The queues that a worker keeps, as plain definitions: ticks, the run list, the wait list, the
//! sweep, and the class lists with their quotas.
#![tactic(auto)]

mod laws;

pub use laws::{
    settled_lists, sweeps_go_on, walks_begin_by_look_ups, walks_go_by_distance,
    walks_stay_in_the_window, walks_take_insertions,
};
