// The head of a run, and the counts at the front of an image.
ghost use Rattle.std.specs.Prelude.{◌≡◌, ◌≤◌, ◌+◌, leb, length, drop};
ghost use Rattle.records.specs.Layouts.{up_to};
ghost use Rattle.records.specs.Spans.{run_head, RunFound, CountFound};

// A run's id, how many views it has, and the place of the first.
#[derive(Clone, Copy)]
pub enum RunRead {
    At { id: u64, views: usize, next: usize },
    Stop(u8),
}

// The head of the run at a place.
#[tactic(auto, using(crate::proofs::HeadExits::run_exits))]
pub fn run_span(s: &[u8], at: usize) -> RunRead
    requires { at ≤ length s.now }
    ensures { RunFound s.now (run_head.read (drop at s.now)) result }
{
    if s.len() - at < 6 {
        return RunRead::Stop(1);
    }
    let id = format::number_there(s, at, 4);
    let word = format::number_there(s, at + 4, 2);
    if 1024 < word / 16 {
        return RunRead::Stop(3);
    }
    if word % 16 != 0 {
        return RunRead::Stop(2);
    }
    RunRead::At {
        id,
        views: (word / 16) as usize,
        next: at + 6,
    }
}

// A count, and the place past it.
#[derive(Clone, Copy)]
pub enum CountRead {
    At(usize, usize),
    Stop(u8),
}

// A count of n bytes that is at most a ceiling.
#[tactic(auto, using(crate::proofs::HeadExits::count_exits))]
pub fn count_at(s: &[u8], at: usize, n: usize, most: usize) -> CountRead
    requires fact_1 { n ≤ 8 }
    requires fact_2 { at ≤ length s.now }
    ensures { CountFound s.now ((up_to n most).read (drop at s.now)) result }
{
    if s.len() - at < n {
        return CountRead::Stop(1);
    }
    let count = format::number_there(s, at, n);
    if (most as u64) < count {
        return CountRead::Stop(3);
    }
    CountRead::At(count as usize, at + n)
}

// How many runs the image at a place has.
pub fn count_span(s: &[u8], at: usize) -> CountRead
    requires { at ≤ length s.now }
    ensures { CountFound s.now ((up_to 1 64).read (drop at s.now)) result }
{
    count_at(s, at, 1, 64)
}

// Whether no byte stands at a place or after it.
pub fn none_left(s: &[u8], at: usize) -> bool
    requires { at ≤ length s.now }
    ensures { result ≡ leb (length s.now) at }
{
    s.len() <= at
}
