//! The search for the run of an operation.
ghost use Rattle.std.specs.Prelude.{◌≡◌, ◌<◌, ◌^◌, suc, length, IsTrue};
ghost use Rattle.std.specs.List.Sorted.{IsNonDecreasing};
ghost use Rattle.run_list.specs.Reading.{below};

/// How many of these places, which rise, are below another one. A search by halves.
pub(crate) fn count_below(places: &[u32], place: usize) -> usize
    requires { IsNonDecreasing places.now }
    ensures { result ≡ below place places.now }
{
    places.partition_point(|it| (*it as usize) < place)
}

/// Which of the runs that begin at these places, which rise, has what stands there: the last one
/// that doesn't begin behind it. It is looked for at the end, and where it is if each operation
/// before begins a run; then by halves.
pub(crate) fn run_of(starts: &[u32], place: usize) -> usize
    requires rising { IsNonDecreasing starts.now }
    requires some { 0 < below (suc place) starts.now }
    requires small { place < 2 ^ 32 }
    ensures { suc result ≡ below (suc place) starts.now }
{
    let last = starts.len() - 1;
    if is_run_of(starts, last, place) {
        return last;
    }
    if place < last && is_run_of(starts, place, place) {
        return place;
    }
    count_below(starts, place + 1) - 1
}

/// Whether a run has what stands there: it begins there or before, and the next one behind.
fn is_run_of(starts: &[u32], run: usize, place: usize) -> bool
    requires rising { IsNonDecreasing starts.now }
    requires within { run < length starts.now }
    ensures { IsTrue result → suc run ≡ below (suc place) starts.now }
{
    if starts[run] as usize > place {
        return false;
    }
    run + 1 == starts.len() || starts[run + 1] as usize > place
}
