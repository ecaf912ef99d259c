//! What the definitions give. Each function has no body: its clauses are the equations.
ghost use Rattle.std.specs.Prelude.{◌≡◌, [], ◌∷◌, ◌++◌, length, take, drop, slice_range, codes};
ghost use Rattle.model_work.specs.Work.{draw, group_size, delay, numbers_from, lines_text};
ghost use Rattle.model_work.specs.Work.{create_text, script, arrival_text, quiet_text, journal};

/// The numbers that seed 0 draws.
pub fn work_of_zero()
    ensures first { draw 0 1 ≡ 48271 }
    ensures size { group_size 0 ≡ 171 }
    ensures second { draw 0 2 ≡ 182605794 }
    ensures delay { delay 0 1 ≡ 794 }
{}

/// What the standard of C++ says of `minstd_rand`, which begins at 1: its number at place 10,000.
pub fn numbers_are_those_of_the_standard()
    ensures { draw 0 10000 ≡ 399268537 }
{}

/// Seeds at the modulus: the numbers of the first are 0 for ever, and those of the next are those
/// of 0.
pub fn seeds_at_the_modulus()
    ensures dead { draw 2147483646 1 ≡ 0 }
    ensures dead_size { group_size 2147483646 ≡ 100 }
    ensures dead_delay { delay 2147483646 7 ≡ 0 }
    ensures same { draw 2147483647 1 ≡ draw 0 1 }
    ensures greatest { draw 18446744073709551615 1 ≡ 193084 }
{}

/// Pieces of texts.
pub fn texts_of_work()
    ensures numbers { numbers_from 3 4 ≡ 3 ∷ 4 ∷ 5 ∷ 6 ∷ [] }
    ensures lines { lines_text ("a" ∷ "" ∷ []) ≡ codes "a\n\n" }
    ensures create { create_text 1 (delay 0 1) ≡ codes "    yield from create(g, w, 1, 794)\n" }
    ensures arrival { arrival_text 62 ≡ codes "turn 62 C0 r\ndata b\"x\\n\"\n" }
    ensures empty { arrival_text 61 ≡ codes "turn 61 C0 r\ndata b\"\\n\"\n" }
    ensures quiet { quiet_text 1500 ≡ codes "turn 1500\n" }
{}

/// The script of seed 0: the task, main's head with the first tasks, and the last task with main's
/// rest.
pub fn script_of_zero()
    ensures size { length (script 0) ≡ 6679 }
    ensures task { take 152 (script 0) ≡
        codes "def w(i, d)\n  try\n    with timeout(500) as o\n      yield from sleep(d)\n"
        ++ codes "    end\n    print i, \"slept\"\n  except TimeoutError\n    print i, \"late\"\n"
        ++ codes "  end\nend\n" }
    ensures head { slice_range (script 0) 152 289 ≡
        codes "def main()\n  c = yield from connect(9)\n  n = 0\n  with group as g\n"
        ++ codes "    yield from create(g, w, 1, 794)\n    yield from create(g, w, 2, 886)\n" }
    ensures rest { drop 6546 (script 0) ≡
        codes "    yield from create(g, w, 171, 443)\n    while n < 300\n"
        ++ codes "      b = yield from readline(c)\n      n = n + 1\n    end\n"
        ++ codes "  end\n  print n\nend\n" }
{}

/// The journal: the connection with the first lines, the last line with what follows, and the end.
pub fn journal_of_work()
    ensures size { length journal ≡ 27641 }
    ensures front { take 81 journal ≡
        codes "turn 0\nconn\nturn 0 C0 up\nturn 0\n"
        ++ codes "turn 1 C0 r\ndata b\"x\\n\"\nturn 2 C0 r\ndata b\"xx\\n\"\n" }
    ensures middle { slice_range journal 16259 16349 ≡
        codes "turn 300 C0 r\n"
        ++ codes "data b\"xxxxxxxxxxxxxxxxxxxxxxxxxxxxxxxxxxxxxxxxxxxxxxxxxxxxxxxx\\n\"\n"
        ++ codes "turn 301\n" }
    ensures end { drop 27611 journal ≡ codes "turn 1498\nturn 1499\nturn 1500\n" }
{}
