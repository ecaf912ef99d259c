//! What words ask for. Each function has no body: its clause is the equation of a table's two
//! columns.
ghost use Rattle.std.specs.Prelude.{◌≡◌, map};
ghost use Rattle.row_words.specs.Words.{expected, found};
ghost use Rattle.row_words.specs.Accepted.{accepted_checks, accepted_replays, accepted_runs, accepted_works};
ghost use Rattle.row_words.specs.Refused.{refused_words, other_verbs, refused_checks, refused_replays, refused_runs, refused_works};

/// Names and options in any order.
pub fn words_are_accepted()
    ensures checks { map found accepted_checks ≡ map expected accepted_checks }
    ensures replays { map found accepted_replays ≡ map expected accepted_replays }
    ensures runs { map found accepted_runs ≡ map expected accepted_runs }
    ensures works { map found accepted_works ≡ map expected accepted_works }
{}

/// Five lists of words that the program's first rows refuse.
pub fn refused_words()
    ensures { map found refused_words ≡ map expected refused_words }
{}

/// Too few and too many words, empty ones, options that stand twice or are none, numbers of turns,
/// and seeds.
pub fn words_are_refused()
    ensures verbs { map found other_verbs ≡ map expected other_verbs }
    ensures checks { map found refused_checks ≡ map expected refused_checks }
    ensures replays { map found refused_replays ≡ map expected refused_replays }
    ensures runs { map found refused_runs ≡ map expected refused_runs }
    ensures works { map found refused_works ≡ map expected refused_works }
{}
