//! What the kernel keeps of a run that goes on, and how that stands for a state of the machine.
#![tactic(auto)]

mod arguments;
mod delay;
mod held;
pub mod laws;
mod reply;
mod resume_point;
mod run_state;
mod slots;

pub use aio_transports::Transports;
pub use arguments::{as_failure, as_group, as_int, as_task, as_timeout, is_list, is_program};
pub use delay::{Delay, as_delay};
pub use held::HeldSlot;
pub use reply::{
    MOST_IDS, RequestReply, bad_argument, cancelled_error, input_of, or_stop, out_of_range, raises,
    replied, reply_of,
};
pub use resume_point::{Near, ResumePoint, Slot};
pub use run_state::RunState;
