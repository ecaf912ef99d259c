//! Which answers fit. Each function has no body: its clause is the equation of a table's two columns.
ghost use Rattle.std.specs.Prelude.{◌≡◌, map};
ghost use Rattle.row_wire.specs.Rows.{is_fitting, expected_fitting};
ghost use Rattle.row_wire.specs.Answers.{turns, answers};

/// Turns: what is watched, what stands once, in any order.
pub fn turns_fit()
    ensures { map is_fitting turns ≡ map expected_fitting turns }
{}

/// Answers to every other call.
pub fn answers_fit()
    ensures { map is_fitting answers ≡ map expected_fitting answers }
{}
