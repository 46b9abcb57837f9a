// Sessions: what a state is, and the sources that tell the states of a session.
#![tactic(auto)]

mod fault;
mod log;
mod memory;
mod print;
mod session;
mod sheet;
mod state;

pub use fault::SessionFault;
pub use log::SwitchLog;
pub use memory::LogMemory;
pub use session::{Session, state_at};
pub use sheet::Sheet;
pub use state::State;
