//! What the threads of a running house find when they begin: the shared state that all of them share, what is
//! dealt to each, and room for what they will leave. All of it is made here, before the first thread;
//! no thread is started here, and nothing is closed.
#![tactic(auto)]

mod bells;
mod dealing;
mod fittings;
mod joining;
mod left;
mod opening;
mod seating;
mod shared;
mod stock;
mod users;

pub use left::{Ran, Started, most_of};
pub use opening::{Baskets, MOST_PRODUCERS, Opened, Sizes, open};
pub use shared::{Crew, Guest, HouseShared, Post, Stand};
pub use stock::Spares;
pub use users::{inbox_numbered, is_nobody};
