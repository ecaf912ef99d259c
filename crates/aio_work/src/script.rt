//! The script of a seed. Each call appends, and on `Memory` leaves a front of its text.
ghost use Rattle.std.specs.Prelude.{◌≡◌, ◌++◌, OnOk};
ghost use Rattle.model_work.specs.Work.{script, creating_text, create_text};

use crate::numbers::{first_draw, next_draw};
use aio_base::Memory;
use std::alloc::Global;

/// A task of the group prints which comes first, the end of its sleep or its timeout.
const SLEEPER: &[u8] = b"def w(i, d)
  try
    with timeout(500) as o
      yield from sleep(d)
    end
    print i, \"slept\"
  except TimeoutError
    print i, \"late\"
  end
end
";

/// What main does before it makes the tasks.
const OPENING: &[u8] = b"def main()
  c = yield from connect(9)
  n = 0
  with group as g
";

/// What it does after that, while they sleep.
const READING: &[u8] = b"    while n < 300
      b = yield from readline(c)
      n = n + 1
    end
  end
  print n
end
";

/// Appends the script.
pub fn push_script(alloc: Global, seed: u64, out: &mut Vec<u8>) -> Result<(), Memory>
    ensures { OnOk result (out.new.items ≡ out.old.items ++ script seed) }
{
    out.extend_from_slice(SLEEPER)?;
    out.extend_from_slice(OPENING)?;
    push_creating(alloc, seed, out)?;
    out.extend_from_slice(READING)?;
    Ok(())
}

/// Appends the lines that make the tasks of the group.
fn push_creating(alloc: Global, seed: u64, out: &mut Vec<u8>) -> Result<(), Memory>
    ensures { OnOk result (out.new.items ≡ out.old.items ++ creating_text seed) }
{
    let mut number = first_draw(seed);
    let size = 100 + number % 100;
    for made in 0..size {
        number = next_draw(number);
        push_create(alloc, made + 1, number % 1000, out)?;
    }
    Ok(())
}

/// Appends the line that makes this task, which sleeps so long.
fn push_create(alloc: Global, task: u64, delay: u64, out: &mut Vec<u8>) -> Result<(), Memory>
    ensures { OnOk result (out.new.items ≡ out.old.items ++ create_text task delay) }
{
    out.extend_from_slice(b"    yield from create(g, w, ")?;
    out.extend_from_slice(task.to_string(alloc)?.as_bytes())?;
    out.extend_from_slice(b", ")?;
    out.extend_from_slice(delay.to_string(alloc)?.as_bytes())?;
    out.extend_from_slice(b")\n")?;
    Ok(())
}
