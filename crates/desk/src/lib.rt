// The desk: what a command does to the sheet of two people, and what is replied.
#![tactic(auto)]

mod commands;
mod laws;
mod replies;

pub use commands::obey;
pub use laws::every_list_keeps_the_promise;
pub use replies::reply_to;
