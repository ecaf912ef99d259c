//! Writers.
ghost use Rattle.std.specs.Prelude.{◌≡◌, [], true, false, Some, None, pos, negsuc, codes};
ghost use Rattle.model_stream.specs.declared.put.Put.TheVariants.{Offer, Kept, Empty, AfterEof, Dropped};
ghost use Rattle.model_stream.specs.declared.put.Limited.TheVariants.{Set, BadLimits};
ghost use Rattle.model_stream.specs.Sending.{new_writer, put, put_answer, took, set_eof, set_ended, limits, limits_answer, marks_of};
ghost use Rattle.row_stream.specs.Writers.{writer, child_writer};

/// A high mark of 8 and a low one of 2.
pub fn marks_of_a_writer()
    ensures first_is_offered { put_answer (codes "01234567") (writer [] false) ≡ Offer }
    ensures first { put (codes "01234567") (writer [] false) ≡ writer (codes "01234567") false }
    ensures all_is_kept { took 0 (writer (codes "01234567") false)
        ≡ writer (codes "01234567") false }
    ensures second_is_kept { put_answer (codes "8") (writer (codes "01234567") false) ≡ Kept }
    ensures second_pauses { put (codes "8") (writer (codes "01234567") false)
        ≡ writer (codes "012345678") true }
    ensures a_part_is_taken { took 6 (writer (codes "012345678") true) ≡ writer (codes "678") true }
    ensures at_the_low_mark { took 7 (writer (codes "012345678") true) ≡ writer (codes "78") false }
    ensures a_long_rest_pauses { took 1 (writer (codes "0123456789") false)
        ≡ writer (codes "123456789") true }
{}

/// A child's standard input resumes only where nothing is unsent.
pub fn marks_of_a_child()
    ensures a_part_is_taken { took 7 (child_writer (codes "012345678") true)
        ≡ child_writer (codes "78") true }
    ensures all_is_taken { took 9 (child_writer (codes "012345678") true) ≡ child_writer [] false }
{}

/// A write after `write_eof` is refused, and changes nothing.
pub fn write_after_eof()
    ensures refused { put_answer [] (set_eof (writer [] false)) ≡ AfterEof }
    ensures stays { put (codes "a") (set_eof (writer [] false)) ≡ set_eof (writer [] false) }
    ensures refused_when_lost { put_answer (codes "a") (set_ended (set_eof (writer [] false)))
        ≡ AfterEof }
    ensures nothing { put_answer [] (set_ended (writer [] false)) ≡ Empty }
    ensures dropped { put_answer (codes "a") (set_ended (writer (codes "b") true)) ≡ Dropped }
    ensures is_dropped { put (codes "a") (set_ended (writer (codes "b") true))
        ≡ set_ended (writer [] true) }
{}

/// The marks of `limits`, given or by default, and which are refused.
pub fn writer_limits()
    ensures by_low { marks_of None (Some (pos 100)) ≡ Some ((400, 100)) }
    ensures by_high { marks_of (Some (pos 8)) None ≡ Some ((8, 2)) }
    ensures by_default { marks_of None None ≡ Some ((65536, 16384)) }
    ensures equal { marks_of (Some (pos 3)) (Some (pos 3)) ≡ Some ((3, 3)) }
    ensures low_over_high { limits_answer (Some (pos 3)) (Some (pos 4)) ≡ BadLimits }
    ensures low_under_nothing { limits_answer None (Some (negsuc 0)) ≡ BadLimits }
    ensures high_under_nothing { limits_answer (Some (negsuc 0)) None ≡ BadLimits }
    ensures high_at_most { limits_answer (Some (pos 2147483647)) None ≡ Set }
    ensures high_too_high { limits_answer (Some (pos 2147483648)) None ≡ BadLimits }
    ensures four_times_too_high { limits_answer None (Some (pos 536870912)) ≡ BadLimits }
    ensures refused { limits (Some (pos 3)) (Some (pos 4)) (writer (codes "0123") false)
        ≡ writer (codes "0123") false }
    ensures pauses { (limits (Some (pos 3)) None (writer (codes "0123") false)).paused ≡ true }
    ensures at_the_mark { (limits (Some (pos 4)) None (writer (codes "0123") false)).paused
        ≡ false }
    ensures stays_paused { (limits (Some (pos 100)) None (writer (codes "0123") true)).paused
        ≡ true }
    ensures new { new_writer false
        ≡ record {
          unsent = [];
          high = 65536;
          low = 16384;
          paused = false;
          eof = false;
          ended = false;
          whole = false;
        } }
{}
