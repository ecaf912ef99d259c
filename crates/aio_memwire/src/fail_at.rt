//! The calls that fail.
ghost use Rattle.std.specs.Prelude.{◌≡◌, ◌==◌, ◌≤◌, true, false, if◌then◌else◌};
ghost use Rattle.std.specs.List.{list_any};
ghost use Rattle.model_wire.specs.Told.{Rose};
ghost use Rattle.aio_memwire.specs.Counts.{one_more};

/// A wire, a shelf, a source or a sink of which the calls with the listed numbers fail, counted
/// from 1 over all calls. A call that fails isn't passed on; its count of failures rises by one and
/// nothing else changes. It counts 2^64 - 1 calls and failures at most.
#[derive(Drop)]
pub struct FailAt<I> {
    pub inner: I,
    pub calls: Vec<u64>,
    pub made: u64,
    pub faults: u64,
}

impl<I> FailAt<I> {
    /// Wraps `inner`; the calls with these numbers, from 1, fail.
    pub fn new(inner: I, calls: Vec<u64>) -> FailAt<I>
        ensures inner { result.inner ≡ inner }
        ensures calls { result.calls ≡ calls }
        ensures made { result.made ≡ 0 }
        ensures faults { result.faults ≡ 0 }
    {
        FailAt {
            inner,
            calls,
            made: 0,
            faults: 0,
        }
    }
}

/// Counts a call, and a failure where it is a listed one.
pub(crate) fn fails(calls: &[u64], made: &mut u64, faults: &mut u64) -> bool
    ensures made { made.new ≡ one_more made.old }
    ensures listed { result ≡ list_any (λ call. call == one_more made.old) calls.now }
    ensures failures { faults.new ≡ (if result then one_more faults.old else faults.old) }
    ensures rose { result ≡ true → Rose faults.old faults.new }
    ensures monotone { faults.old ≤ faults.new }
    ensures same { result ≡ false → faults.new ≡ faults.old }
{
    *made = made.saturating_add(1);
    let fails = is_listed(calls, *made);
    if fails {
        *faults = faults.saturating_add(1);
    }
    fails
}

fn is_listed(calls: &[u64], made: u64) -> bool
    ensures { result ≡ list_any (λ call. call == made) calls.now }
{
    calls.iter().any(|call| *call == made)
}
