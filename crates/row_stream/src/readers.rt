//! Readers.
ghost use Rattle.std.specs.Prelude.{◌≡◌, ◌++◌, [], Some, true, pos, negsuc, codes};
ghost use Rattle.std.specs.Fmt.{decimal};
ghost use Rattle.model_value.specs.declared.kind.Kind.TheVariants.{ValueError, LimitOverrunError, IncompleteReadError, ConnectionResetError};
ghost use Rattle.model_value.specs.Value.{exc, exception_of, no_excs};
ghost use Rattle.model_stream.specs.declared.read_op.ReadOp.TheVariants.{UpTo, Exactly, Until, Line};
ghost use Rattle.model_stream.specs.declared.read_op.Taken.TheVariants.{Bytes, Raises};
ghost use Rattle.model_stream.specs.Reading.{fail, feed, take_read, after_take, raises, needs, resume};
ghost use Rattle.row_stream.specs.Readers.{reader, ended, paused, failed};

/// Lines about a limit of 4.
pub fn line_at_the_limit()
    ensures below { take_read Line (reader (codes "abc\nd"))
        ≡ record { answer = Bytes (codes "abc\n"); rest = codes "d"; resumes = true } }
    ensures at_the_limit { take_read Line (reader (codes "abcd\n"))
        ≡ record { answer = Bytes (codes "abcd\n"); rest = []; resumes = true } }
    ensures over { take_read Line (reader (codes "abcde\nz"))
        ≡ record {
          answer = Raises
              (exception_of ValueError
              (codes "Separator is found, but chunk is longer than limit"));
          rest = codes "z";
          resumes = true;
        } }
    ensures unended { take_read Line (reader (codes "abcde"))
        ≡ record {
          answer = Raises
              (exception_of ValueError
              (codes "Separator is not found, and chunk exceed the limit"));
          rest = [];
          resumes = true;
        } }
    ensures waits { take_read Line (reader (codes "abcd")) ≡ needs (codes "abcd") }
    ensures last { take_read Line (ended (codes "abcd"))
        ≡ record { answer = Bytes (codes "abcd"); rest = []; resumes = true } }
    ensures at_the_end { take_read Line (ended [])
        ≡ record { answer = Bytes []; rest = []; resumes = true } }
{}

/// `readexactly` at the end: what is left comes with the exception, once.
pub fn exactly_at_the_end()
    ensures some { take_read (Exactly (pos 10)) (ended (codes "abcd"))
        ≡ raises (exc IncompleteReadError
        (decimal 4
        ++ (codes " bytes read on a total of " ++ (decimal 10 ++ codes " expected bytes")))
        (codes "abcd") no_excs) [] }
    ensures none { take_read (Exactly (pos 10)) (ended [])
        ≡ raises (exc IncompleteReadError
        (decimal 0
        ++ (codes " bytes read on a total of "
        ++ (decimal 10 ++ codes " expected bytes"))) [] no_excs) [] }
    ensures enough { take_read (Exactly (pos 3)) (ended (codes "abcd"))
        ≡ record { answer = Bytes (codes "abc"); rest = codes "d"; resumes = true } }
    ensures waits { take_read (Exactly (pos 5)) (reader (codes "abcd")) ≡ needs (codes "abcd") }
    ensures nothing { take_read (Exactly (pos 0)) (reader [])
        ≡ record { answer = Bytes []; rest = []; resumes = true } }
    ensures negative { take_read (Exactly (negsuc 0))
        (failed [] (exception_of ConnectionResetError []))
        ≡ raises (exception_of ValueError (codes "readexactly size can not be less than zero")) [] }
{}

/// `read` gives what is held, at most so much, and waits for the first byte.
pub fn up_to()
    ensures all { take_read (UpTo 9) (reader (codes "ab"))
        ≡ record { answer = Bytes (codes "ab"); rest = []; resumes = true } }
    ensures some { take_read (UpTo 1) (reader (codes "ab"))
        ≡ record { answer = Bytes (codes "a"); rest = codes "b"; resumes = true } }
    ensures waits { take_read (UpTo 1) (reader []) ≡ needs [] }
    ensures nothing { take_read (UpTo 0) (reader [])
        ≡ record { answer = Bytes []; rest = []; resumes = true } }
    ensures at_the_end { take_read (UpTo 1) (ended [])
        ≡ record { answer = Bytes []; rest = []; resumes = true } }
    ensures failed { take_read (UpTo 0)
        (failed (codes "ab") (exception_of ConnectionResetError (codes "Connection lost")))
        ≡ raises (exception_of ConnectionResetError (codes "Connection lost")) (codes "ab") }
{}

/// A reader that fails lets go of what it holds, paused or not, whether the end came or not.
pub fn failing()
    ensures holds { fail (exception_of ConnectionResetError (codes "Connection lost"))
        (reader (codes "ab"))
        ≡ failed [] (exception_of ConnectionResetError (codes "Connection lost")) }
    ensures pauses { fail (exception_of ConnectionResetError (codes "Connection lost"))
        (paused (codes "123456789"))
        ≡ record (paused []) {
          failed = Some (exception_of ConnectionResetError (codes "Connection lost"));
        } }
    ensures ended { fail (exception_of ConnectionResetError (codes "Connection lost"))
        (ended (codes "ab"))
        ≡ record (ended []) {
          failed = Some (exception_of ConnectionResetError (codes "Connection lost"));
        } }
    ensures again { fail (exception_of ConnectionResetError (codes "Connection lost"))
        (failed (codes "ab") (exception_of ConnectionResetError []))
        ≡ failed [] (exception_of ConnectionResetError (codes "Connection lost")) }
{}

/// A separator of two bytes, with a limit of 4.
pub fn until()
    ensures found { take_read (Until (codes "--")) (reader (codes "a---b"))
        ≡ record { answer = Bytes (codes "a--"); rest = codes "-b"; resumes = true } }
    ensures at_the_limit { take_read (Until (codes "--")) (reader (codes "abcd--"))
        ≡ record { answer = Bytes (codes "abcd--"); rest = []; resumes = true } }
    ensures over { take_read (Until (codes "--")) (reader (codes "abcde--"))
        ≡ raises (exception_of LimitOverrunError
        (codes "Separator is found, but chunk is longer than limit")) (codes "abcde--") }
    ensures unfound { take_read (Until (codes "--")) (reader (codes "abcdef"))
        ≡ raises (exception_of LimitOverrunError
        (codes "Separator is not found, and chunk exceed the limit")) (codes "abcdef") }
    ensures waits { take_read (Until (codes "--")) (reader (codes "abcd-"))
        ≡ needs (codes "abcd-") }
    ensures ended { take_read (Until (codes "--")) (ended (codes "ab-"))
        ≡ raises (exc IncompleteReadError
        (decimal 3 ++ codes " bytes read on a total of undefined expected bytes")
        (codes "ab-") no_excs) [] }
    ensures empty { take_read (Until []) (reader (codes "ab"))
        ≡ raises (exception_of ValueError (codes "Separator should be at least one-byte string"))
        (codes "ab") }
{}

/// Reading is paused over twice the limit, and resumes at the limit.
pub fn pauses()
    ensures at_twice { feed (codes "5678") (reader (codes "1234")) ≡ reader (codes "12345678") }
    ensures over_twice { feed (codes "56789") (reader (codes "1234")) ≡ paused (codes "123456789") }
    ensures over_the_limit { after_take (take_read (UpTo 4) (paused (codes "123456789")))
        (paused (codes "123456789")) ≡ paused (codes "56789") }
    ensures at_the_limit { after_take (take_read (UpTo 5) (paused (codes "123456789")))
        (paused (codes "123456789")) ≡ reader (codes "6789") }
    ensures long_line { after_take (take_read Line (paused (codes "123456789")))
        (paused (codes "123456789")) ≡ reader [] }
    ensures separator_stays { after_take
        (take_read (Until (codes "x")) (paused (codes "123456789"))) (paused (codes "123456789"))
        ≡ paused (codes "123456789") }
    ensures a_wait { resume (paused (codes "123456789")) ≡ reader (codes "123456789") }
{}
