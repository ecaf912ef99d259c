//! What the pumps of children post.
use aio_base::Blob;
use aio_hub::Launch;
use aio_inbox::PostKind;
use model_pump::Stream;
use std::alloc::Global;
use try_row::blob_of;

/// A post. A piece, an end and a break are of the stream of the pump that posts it.
#[derive(Clone, Copy)]
pub enum Says {
    Piece(&'static [u8]),
    /// A piece of so many bytes.
    Long(usize),
    End,
    Room,
    Broken,
    Exit(i32),
    Fault,
    Starved,
}

/// What each pump of a child posts, in order.
#[derive(Clone, Copy)]
pub struct Posts {
    pub stdin: &'static [Says],
    pub out: &'static [Says],
    pub errs: &'static [Says],
    pub exit: &'static [Says],
}

/// A child of which all is over as soon as it runs.
pub const OVER: Posts = Posts {
    stdin: &[Says::Broken],
    out: &[Says::End],
    errs: &[Says::End],
    exit: &[Says::Exit(0)],
};

fn long_blob(alloc: Global, length: usize) -> Blob {
    match vec![in alloc; b'x'; length] {
        Ok(held) => Blob::of(held),
        Err(_) => Blob::of(Vec::new(alloc)),
    }
}

fn piece(stream: Stream, bytes: Blob) -> PostKind {
    PostKind::Piece {
        stream,
        offset: 0,
        bytes,
    }
}

fn post_of(alloc: Global, stream: Stream, says: Says) -> PostKind {
    match says {
        Says::Piece(bytes) => piece(stream, blob_of(alloc, bytes)),
        Says::Long(length) => piece(stream, long_blob(alloc, length)),
        Says::End => PostKind::End(stream),
        Says::Room => PostKind::Room,
        Says::Broken => PostKind::Broken,
        Says::Exit(code) => PostKind::Exit(code),
        Says::Fault => PostKind::Fault,
        Says::Starved => PostKind::Starved,
    }
}

// Where memory is refused the last of them are missing.
fn posts_of(alloc: Global, stream: Stream, says: &[Says]) -> Vec<PostKind> {
    let mut posts = Vec::new(alloc);
    for one in says {
        let _pushed = posts.push(post_of(alloc, stream, *one));
    }
    posts
}

fn launch_of(alloc: Global, posts: &Posts) -> Launch {
    Launch {
        stdin: posts_of(alloc, Stream::Out, posts.stdin),
        out: posts_of(alloc, Stream::Out, posts.out),
        errs: posts_of(alloc, Stream::Errs, posts.errs),
        exit: posts_of(alloc, Stream::Out, posts.exit),
    }
}

/// What a launcher in memory is told of so many children of each kind. Where memory is refused the last of them are missing,
/// and say nothing.
pub fn launches_of(alloc: Global, children: &[(u32, Posts)]) -> Vec<Launch> {
    let mut launches = Vec::new(alloc);
    for (times, posts) in children {
        for _ in 0..*times {
            let _pushed = launches.push(launch_of(alloc, posts));
        }
    }
    launches
}
