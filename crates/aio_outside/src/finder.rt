//! The look for a program before it is launched.
use std::alloc::{AllocError, Global};
use std::fs::Metadata;
use std::io::ErrorKind;
use std::os::unix::fs::PermissionsExt;
use std::{fs, io, rt};

/// What looks for programs.
pub trait Finder {
    /// False only where a launch of a program of this name would find none. Want of memory is no reason to say so.
    fn is_there(&self, alloc: Global, program: &str) -> bool;
}

/// Looks for the system's programs as a launch does: along PATH, unless the name has a slash.
/// Source: `subprocess.py`, `_execute_child`; posix_spawnp(3).
#[derive(Drop)]
pub struct PathFinder<R> {
    rt: R,
}

impl<R: rt::Files> PathFinder<R> {
    pub fn new(rt: R) -> PathFinder<R> {
        PathFinder { rt }
    }

    // Whether this file may be one that can be run. What can't be known may be one.
    fn may_run(&self, path: &str) -> bool {
        match fs::metadata(&self.rt, path) {
            Ok(found) => is_program(&found),
            Err(error) => !is_missing(&error),
        }
    }

    // The same of the file of this name in this directory. An empty one is where this program runs.
    fn may_run_in(&self, alloc: Global, directory: &str, program: &str) -> bool {
        if directory.is_empty() {
            return self.may_run(program);
        }
        match joined(alloc, directory, program) {
            Ok(path) => self.may_run(path.as_str()),
            Err(AllocError) => true,
        }
    }
}

impl<R: rt::Files> Finder for PathFinder<R> {
    fn is_there(&self, alloc: Global, program: &str) -> bool {
        if program.is_empty() || program.contains('/') {
            return self.may_run(program);
        }
        let mut buffer = Vec::new(alloc);
        match search_path(&mut buffer) {
            Some(path) => path
                .split(':')
                .any(|directory| self.may_run_in(alloc, directory, program)),
            None => true,
        }
    }
}

/// A file that somebody may run. Source: path_resolution(7), "Permissions".
fn is_program(found: &Metadata) -> bool {
    found.is_file() && found.permissions().mode() & 0o111 != 0
}

/// There is no such file, or no way to it.
fn is_missing(error: &io::Error) -> bool {
    matches!(
        error.kind(),
        ErrorKind::NotFound | ErrorKind::NotADirectory | ErrorKind::PermissionDenied
    )
}

fn joined(alloc: Global, directory: &str, program: &str) -> Result<String, AllocError> {
    let mut path = String::from_str(alloc, directory)?;
    path.push('/')?;
    path.push_str(program)?;
    Ok(path)
}

/// What is searched where no PATH is set. Source: posix_spawnp(3).
const DEFAULT_PATH: &str = "/bin:/usr/bin";

/// The longest PATH that is looked along.
const LONGEST_PATH: usize = 65_536;

/// The number of the system for what isn't there. Source: errno(3), EINVAL.
const UNSET: i32 = 22;

/// The directories of PATH, between colons, which stand in the buffer. None where they can't be told: PATH is too long or no
/// text, or memory is refused.
fn search_path(buffer: &mut Vec<u8>) -> Option<&str> {
    if buffer.resize(LONGEST_PATH, 0).is_err() {
        return None;
    }
    let length = os::env(b"PATH", buffer.as_mut_slice());
    match os::errno() {
        0 => std::str::from_utf8(&buffer.as_slice()[..length]).ok(),
        UNSET => Some(DEFAULT_PATH),
        _ => None,
    }
}
