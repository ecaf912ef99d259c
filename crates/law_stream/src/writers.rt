//! Writers.
ghost use Rattle.std.specs.Prelude.{◌≡◌, ◌≤◌, ◌++◌, length, take, List, ℕ};
ghost use Rattle.model_stream.specs.Sending.{Writer, offer};
ghost use Rattle.law_stream.specs.WriterSteps.{WriterStep, after_all, written, handed, dropped};

/// What was unsent and what was written since is what was handed on, what was dropped at a loss and
/// what is unsent now, in this order. So what was handed is a front of what was written, and all of
/// it where nothing was dropped and nothing is unsent.
pub fn writers_keep_order()
    ensures { (steps : List WriterStep) (w : Writer)
        → w.unsent ++ written steps w
        ≡ handed steps w ++ (dropped steps w ++ (after_all steps w).unsent) }
{}

/// What is taken of an offer is a front of what is unsent. So what the outside was handed, which
/// events tell by the pieces that it was offered, is what left the writer.
pub fn offers_are_fronts()
    ensures { (count : ℕ) (w : Writer) → count ≤ length (offer w) → take count (offer w)
        ≡ take count w.unsent }
{}
