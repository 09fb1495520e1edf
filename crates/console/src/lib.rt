// The line console: what a line that is read asks for, and every line that is printed.
#![tactic(auto)]

mod command;
mod printing;
mod reading;
mod reply;
mod role;

pub use command::Command;
pub use printing::line;
pub use reading::parse;
pub use reply::Reply;
