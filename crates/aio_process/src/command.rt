//! The words of a launch, and the command that they are to the system.
ghost use Rattle.std.specs.Prelude.{◌≡◌, [], IfOk};
ghost use Rattle.std.specs.Process.{command_program, command_args, SameProgramAndArgs};
ghost use Rattle.aio_process.specs.Commands.{texts, Starts};

use aio_base::Memory;
use aio_wire::WordList;
use std::alloc::Global;
use std::io;
use std::io::ErrorKind;
use std::process::{Command, Stdio};

/// The words of a launch, each a text of its own, so that they may go to another thread.
pub fn copied(alloc: Global, words: &WordList) -> Result<Vec<String>, Memory>
    ensures { IfOk result (λ all. texts all.items ≡ words.now) }
{
    let mut all = Vec::with_capacity(alloc, words.items().len())?;
    match copy_all(alloc, words, &mut all) {
        Ok(()) => Ok(all),
        Err(error) => {
            drop(all);
            Err(error)
        }
    }
}

fn copy_all(alloc: Global, words: &WordList, all: &mut Vec<String>) -> Result<(), Memory>
    requires { all.old.items ≡ [] }
    ensures { IfOk result (λ _. texts all.new.items ≡ words.now) }
{
    for word in words.items() {
        all.push(String::from_str(alloc, word.as_str())?)?;
    }
    Ok(())
}

/// The command that starts the program of the first word with the others for its arguments, all of them and in order. It
/// gets the directory and the environment of this program, and of its descriptors three pipes alone. Without a word it is an
/// error.
/// Source: the library reference, `subprocess.Popen`.
pub fn command_of(alloc: Global, words: &[String]) -> io::Result<Command>
    ensures { IfOk result (Starts words.now) }
{
    let Some((program, rest)) = words.split_first() else {
        return Err(io::Error::from(ErrorKind::InvalidInput));
    };
    let mut command = Command::new(alloc, program.as_str())?;
    match add_all(&mut command, rest) {
        Ok(()) => {
            pipe_all(&mut command);
            Ok(command)
        }
        Err(error) => {
            drop(command);
            Err(error)
        }
    }
}

fn add_all(command: &mut Command, rest: &[String]) -> io::Result<()>
    requires { command_args command.old ≡ [] }
    ensures program { IfOk result (λ _. command_program command.new ≡ command_program command.old) }
    ensures args { IfOk result (λ _. command_args command.new ≡ texts rest.now) }
{
    for word in rest {
        command.arg(word.as_str())?;
    }
    Ok(())
}

fn pipe_all(command: &mut Command)
    ensures { SameProgramAndArgs command.old command.new }
{
    command
        .stdin(Stdio::piped())
        .stdout(Stdio::piped())
        .stderr(Stdio::piped());
}
