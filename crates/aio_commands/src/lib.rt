//! What the calls of a hub give to the lanes of its children, and what the children's records keep of it.
#![tactic(auto)]

mod closing;
mod feeding;
mod serving;

pub use closing::end;
pub use feeding::feed;
pub use serving::serve;
