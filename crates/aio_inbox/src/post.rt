//! What a poster posts, and what it is answered.
use aio_base::Blob;

/// What a post says.
pub type PostKind = model_pump::PostKind<Blob>;

/// A post with its seat, and its number among the posts of this seat, counted from 0.
pub type Post = model_pump::Post<Blob>;

/// What `Inbox::post` answers. What was not posted comes back.
#[derive(Drop)]
pub enum Posting {
    /// The post stands last in the inbox.
    Posted,
    /// The inbox held 1,024 posts at a step of the call.
    Full(PostKind),
    /// The poster made 2^51 posts, and makes no more.
    Spent(PostKind),
}
