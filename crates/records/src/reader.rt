// The one reader of images: the caller's bytes and a position in them. Its methods are thin: each takes the reader apart and
// calls a function of the slice and the place. The functions after them have plain parameters; they
// are what all other code calls.
ghost use Rattle.std.specs.Prelude.{◌≡◌, ◌≤◌, T, leb, length, drop};
ghost use Rattle.format.specs.Got.{is_got};
ghost use Rattle.records.specs.Layouts.{up_to, view, image};
ghost use Rattle.records.specs.Spans.{CountFound, run_head, RunFound, ViewFound};
ghost use Rattle.records.specs.There.{RunsThere, RunThere, ViewKnown};

use crate::runs::{CountRead, RunRead, count_span, none_left, run_span};
use crate::there::{RunSpan, known_count, known_run, known_view};
use crate::views::{ViewRead, ViewSpan, view_span};

// The struct stays, thin as its methods are: that one reader reads an image is a promise of this library (docs/DECISIONS.md, 10).
#[derive(Clone, Copy)]
pub struct Reader<'a> {
    pub image: &'a [u8],
    pub at: usize,
}

impl<'a> Reader<'a> {
    pub fn new(image: &'a [u8], at: usize) -> Reader<'a>
        ensures { (result.image ≡ image.entry) × (result.at ≡ at) }
    {
        Reader { image, at }
    }

    // How many runs the image has.
    pub fn count(self) -> CountRead
        requires { self.at ≤ length self.image.now }
        ensures { CountFound self.entry.image.now ((up_to 1 64).read (drop self.entry.at self.entry.image.now)) result }
    {
        count_span(self.image, self.at)
    }

    // The head of the next run.
    pub fn next_run(self) -> RunRead
        requires { self.at ≤ length self.image.now }
        ensures { RunFound self.entry.image.now (run_head.read (drop self.entry.at self.entry.image.now)) result }
    {
        run_span(self.image, self.at)
    }

    pub fn next_view(self) -> ViewRead
        requires { self.at ≤ length self.image.now }
        ensures { ViewFound self.entry.image.now (view.read (drop self.entry.at self.entry.image.now)) result }
    {
        view_span(self.image, self.at)
    }

    pub fn at_end(self) -> bool
        requires { self.at ≤ length self.image.now }
        ensures { result ≡ leb (length self.entry.image.now) self.entry.at }
    {
        none_left(self.image, self.at)
    }

    // The same of an image that was read before: no test is left.
    pub fn count_there(self) -> usize
        requires { T (is_got (image.read (drop self.at self.image.now))) }
        ensures { RunsThere (drop self.entry.at self.entry.image.now) (image.read (drop self.entry.at self.entry.image.now)) result }
    {
        known_count(self.image, self.at)
    }

    pub fn run_there(self) -> RunSpan
        requires { T (is_got (run_head.read (drop self.at self.image.now))) }
        ensures { RunThere self.entry.image.now (run_head.read (drop self.entry.at self.entry.image.now)) result }
    {
        known_run(self.image, self.at)
    }

    pub fn view_there(self) -> ViewSpan
        requires { T (is_got (view.read (drop self.at self.image.now))) }
        ensures { ViewKnown self.entry.image.now self.entry.at result }
    {
        known_view(self.image, self.at)
    }
}

// How many runs the image at a place has.
pub fn runs_at(image: &[u8], at: usize) -> CountRead
    requires { at ≤ length image.now }
    ensures { CountFound image.now ((up_to 1 64).read (drop at image.now)) result }
{
    Reader::new(image, at).count()
}

// The head of the run at a place.
pub fn run_at(image: &[u8], at: usize) -> RunRead
    requires { at ≤ length image.now }
    ensures { RunFound image.now (run_head.read (drop at image.now)) result }
{
    Reader::new(image, at).next_run()
}

// The view at a place.
pub fn view_at(image: &[u8], at: usize) -> ViewRead
    requires { at ≤ length image.now }
    ensures { ViewFound image.now (view.read (drop at image.now)) result }
{
    Reader::new(image, at).next_view()
}

// Whether no byte stands at a place or after it.
pub fn at_end(image: &[u8], at: usize) -> bool
    requires { at ≤ length image.now }
    ensures { result ≡ leb (length image.now) at }
{
    Reader::new(image, at).at_end()
}

// The same of an image that was read before. The first run stands a byte after the count.
pub fn runs_there(given: &[u8], at: usize) -> usize
    requires { T (is_got (image.read (drop at given.now))) }
    ensures { RunsThere (drop at given.now) (image.read (drop at given.now)) result }
{
    Reader::new(given, at).count_there()
}

pub fn run_there(image: &[u8], at: usize) -> RunSpan
    requires { T (is_got (run_head.read (drop at image.now))) }
    ensures { RunThere image.now (run_head.read (drop at image.now)) result }
{
    Reader::new(image, at).run_there()
}

pub fn view_there(image: &[u8], at: usize) -> ViewSpan
    requires { T (is_got (view.read (drop at image.now))) }
    ensures { ViewKnown image.now at result }
{
    Reader::new(image, at).view_there()
}
