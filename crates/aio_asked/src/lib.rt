//! A hub: what it keeps from call to call, over what polls sockets and what starts children.
#![tactic(auto)]

mod asking;
mod calls;
mod closing;
mod hub;
mod selecting;
mod wire;

pub use aio_live::State as HubState;
pub use closing::Finished;
pub use hub::Hub;
