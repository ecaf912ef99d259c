ghost use Rattle.std.specs.Prelude.{◌≡◌, [], ◌∷◌, codes, pos, Ok, Err};
ghost use Rattle.model_text.specs.declared.symbol.Symbol.TheVariants.{Assign, LessOrEqual, DoubleSlash};
ghost use Rattle.model_text.specs.Faults.{BadByte, BadNumber, OpenText};
ghost use Rattle.model_text.specs.Tokens.{tokens_of, Name, Int, Text, Bytes, Symbol as Sign};

/// The tokens of some lines, as the definition computes them.
pub fn tokens_computed()
    ensures assignment { tokens_of (codes "x = 1")
        ≡ Ok (record { class = Name (codes "x"); start = 1; end = 2 }
        ∷ record { class = Sign Assign; start = 3; end = 4 }
        ∷ record { class = Int (pos 1); start = 5; end = 6 }
        ∷ []) }
    ensures no_token { tokens_of (codes "  # all of it \\ \" is ignored") ≡ Ok [] }
    ensures empty { tokens_of [] ≡ Ok [] }
    ensures longest { tokens_of (codes "<==//=")
        ≡ Ok (record { class = Sign LessOrEqual; start = 1; end = 3 }
        ∷ record { class = Sign Assign; start = 3; end = 4 }
        ∷ record { class = Sign DoubleSlash; start = 4; end = 6 }
        ∷ record { class = Sign Assign; start = 6; end = 7 }
        ∷ []) }
    ensures text { tokens_of (codes "\"a\\n\\x7f\\\"#\"")
        ≡ Ok (record { class = Text (97 ∷ 10 ∷ 127 ∷ 34 ∷ 35 ∷ []); start = 1; end = 13 } ∷ []) }
    ensures bytes { tokens_of (codes "b\"\\xFf\" b \"\"")
        ≡ Ok (record { class = Bytes (255 ∷ []); start = 1; end = 8 }
        ∷ record { class = Name (codes "b"); start = 9; end = 10 }
        ∷ record { class = Text []; start = 11; end = 13 }
        ∷ []) }
    ensures leading_zeros { tokens_of (codes "009223372036854775807")
        ≡ Ok (record { class = Int (pos 9223372036854775807); start = 1; end = 22 } ∷ []) }
    ensures number_too_great { tokens_of (codes "-9223372036854775808 !") ≡ Err (BadNumber 2) }
    ensures number_in_a_word { tokens_of (codes "x2 2x") ≡ Err (BadNumber 4) }
    ensures lone_mark { tokens_of (codes "a != ! b") ≡ Err (BadByte 6) }
    ensures lone_slash { tokens_of (codes "///") ≡ Err (BadByte 3) }
    ensures tab { tokens_of (codes "x\t") ≡ Err (BadByte 2) }
    ensures tab_in_a_comment { tokens_of (codes "x # \t") ≡ Err (BadByte 5) }
    ensures open { tokens_of (codes "x = b\"\\q\\\"") ≡ Err (OpenText 5) }
    ensures wrong_escape { tokens_of (codes "\"a\\q\t\"") ≡ Err (BadByte 3) }
    ensures too_great_in_a_text { tokens_of (codes "b\"\\x80\" \"\\x80\"") ≡ Err (BadByte 10) }
    ensures short_escape { tokens_of (codes "\"\\x4\" # \t") ≡ Err (BadByte 2) }
{}
