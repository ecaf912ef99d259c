/// What a lane answers to a command. A full one is tried again in the next call, a spent one never.
#[derive(Clone, Copy, PartialEq, Eq)]
pub enum Giving {
    Given,
    Full,
    Spent,
}
