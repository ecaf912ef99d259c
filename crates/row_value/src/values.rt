//! What the definitions give on worked values. Each function has no body: its
//! clauses are the equations.
ghost use Rattle.std.specs.Prelude.{◌≡◌, [], ◌∷◌, true, false, pos, negsuc};
ghost use lib.Chars.{codes};
ghost use Rattle.model_value.specs.declared.kind.Kind.TheVariants.{BaseException, Exception as AnyException, CancelledError, OSError, EOFError, RuntimeError, ValueError, TimeoutError, ConnectionError, RecursionError, BrokenPipeError, IncompleteReadError, ExceptionGroup};
ghost use Rattle.model_value.specs.Value.{Nothing, Truth, Int, Text, Bytes, Items, Fut, Task, Exception, no_values, values, exc, no_excs, excs, exception_of};
ghost use Rattle.model_value.specs.Kinds.{matches};
ghost use Rattle.model_value.specs.Shown.{shown, shown_exc};
ghost use Rattle.model_value.specs.Weight.{weight_of};
ghost use Rattle.model_value.specs.Depth.{depth_of};
ghost use Rattle.model_value.specs.Equality.{equal};

/// A text has quotes inside a list and none by itself; bytes have them always.
pub fn texts_of_values()
    ensures nothing { shown Nothing ≡ codes "None" }
    ensures bare { shown (Text (codes "a\"\n\\")) ≡ codes "a\"\\n\\\\" }
    ensures list { shown (Items (values (Nothing ∷ Text (codes "a\"") ∷ Truth true ∷ [])))
        ≡ codes "[None, \"a\\\"\", True]" }
    ensures nested { shown (Items (values
        (Items no_values ∷ Items (values (Truth false ∷ [])) ∷ [])))
        ≡ codes "[[], [False]]" }
    ensures bytes { shown (Bytes (97 ∷ 10 ∷ 34 ∷ 127 ∷ 255 ∷ []))
        ≡ codes "b\"a\\n\\\"\\x7f\\xff\"" }
    ensures high { shown (Items (values (Text (195 ∷ 169 ∷ []) ∷ [])))
        ≡ 91 ∷ 34 ∷ 195 ∷ 169 ∷ 34 ∷ 93 ∷ [] }
{}

/// An exception shows its kind and its text; a group its members too, and nothing shows an
/// exception's bytes.
pub fn texts_of_exceptions()
    ensures plain { shown (Exception (exception_of ValueError (codes "a\tb")))
        ≡ codes "ValueError(\"a\\tb\")" }
    ensures bytes { shown_exc (exc IncompleteReadError (codes "x") (1 ∷ []) no_excs)
        ≡ codes "IncompleteReadError(\"x\")" }
    ensures empty { shown_exc (exception_of ExceptionGroup []) ≡ codes "ExceptionGroup(\"\", [])" }
    ensures group { shown_exc (exc ExceptionGroup (codes "g") [] (excs
        (exception_of ExceptionGroup [] ∷ exception_of ValueError (codes "a") ∷ [])))
        ≡ codes "ExceptionGroup(\"g\", [ExceptionGroup(\"\", []), ValueError(\"a\")])" }
{}

/// One for the value itself and what it holds; a list or an exception is one deeper than the
/// deepest thing in it.
pub fn weights_and_depths()
    ensures number_weighs { weight_of (Int (negsuc 41)) ≡ 1 }
    ensures text_weighs { weight_of (Text (codes "abc")) ≡ 4 }
    ensures list_weighs { weight_of (Items
        (values (Nothing ∷ Text (codes "a") ∷ Items no_values ∷ []))) ≡ 5 }
    ensures exception_weighs { weight_of (Exception
        (exc IncompleteReadError (codes "x") (1 ∷ 2 ∷ [])
        (excs (exception_of ValueError (codes "a") ∷ [])))) ≡ 6 }
    ensures number_deep { depth_of (Int (pos 5)) ≡ 0 }
    ensures empty_deep { depth_of (Items no_values) ≡ 1 }
    ensures list_deep { depth_of (Items (values (Items (values (Nothing ∷ [])) ∷ Nothing ∷ [])))
        ≡ 2 }
    ensures exception_deep { depth_of (Items (values (Exception (exception_of ValueError []) ∷ [])))
        ≡ 2 }
{}

/// Values of different kinds are never equal, whatever they hold.
pub fn equal_values()
    ensures numbers { equal (Int (pos 1)) (Int (pos 1)) ≡ true }
    ensures other_number { equal (Int (pos 1)) (Int (negsuc 1)) ≡ false }
    ensures number_and_truth { equal (Int (pos 1)) (Truth true) ≡ false }
    ensures text_and_bytes { equal (Text (codes "a")) (Bytes (codes "a")) ≡ false }
    ensures ids { equal (Fut 3) (Task 3) ≡ false }
    ensures lists { equal (Items (values (Nothing ∷ Text (codes "a") ∷ [])))
        (Items (values (Nothing ∷ Text (codes "a") ∷ []))) ≡ true }
    ensures longer { equal (Items (values (Nothing ∷ []))) (Items (values (Nothing ∷ Nothing ∷ [])))
        ≡ false }
    ensures kinds { equal (Exception (exception_of ValueError []))
        (Exception (exception_of OSError [])) ≡ false }
{}

/// A cancel is no `Exception`, so `except Exception` lets it pass.
pub fn kinds_match()
    ensures itself { matches OSError OSError ≡ true }
    ensures child { matches ConnectionError BrokenPipeError ≡ true }
    ensures grandchild { matches OSError BrokenPipeError ≡ true }
    ensures root { matches BaseException CancelledError ≡ true }
    ensures cancel { matches AnyException CancelledError ≡ false }
    ensures sibling { matches ConnectionError TimeoutError ≡ false }
    ensures downwards { matches BrokenPipeError OSError ≡ false }
    ensures timeout { matches OSError TimeoutError ≡ true }
    ensures recursion { matches RuntimeError RecursionError ≡ true }
    ensures incomplete { matches EOFError IncompleteReadError ≡ true }
{}
