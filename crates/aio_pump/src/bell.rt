//! What wakes whoever takes the posts.
ghost use Rattle.std.specs.Prelude.{◌≡◌, ℕ, Option};
ghost use Rattle.aio_pump.specs.Bells.{rung};

/// A bell. A pump rings it once after each of its posts. No clause says that anybody is woken.
pub trait Bell {
    /// How often it was rung, where that is told.
    ghost rings: { Self → Option ℕ };

    /// Rings it: where it tells its rings, their number rises by one, or stands at its type's last value.
    fn ring(&mut self)
        ensures { rings self.new ≡ rung (rings self.old) };
}
