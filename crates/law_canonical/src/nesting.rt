//! Laws of nested lines. Each function has no body: its clause is the law.
ghost use Rattle.std.specs.Prelude.{◌≡◌, ℕ, List, Ok};
ghost use Rattle.std.specs.List.{AllByRecursion};
ghost use Rattle.model_text.specs.FirstPass.{Numbered, first_pass};
ghost use Rattle.model_text.specs.Forms.{Spelled};
ghost use Rattle.model_text.specs.SecondPass.{Line, Part, parts_of, second_pass};
ghost use Rattle.law_canonical.specs.SpelledBodies.{SpellsBody};

/// The lines of each coroutine that both passes accept are those that spell its
/// body, and its `end`.
pub fn accepted_lines_spell_their_statements()
    ensures { (lines : List (List ℕ)) (forms : List (Numbered Spelled)) (last : ℕ)
        (parts : List (Part Line)) →
        first_pass lines ≡ Ok forms → second_pass last (parts_of forms).coroutines ≡ Ok parts →
        AllByRecursion (λ part. SpellsBody part.lines) parts }
{}
