// How to read a listing, in one line for people. It stands before a listing and never in one.
#![tactic(auto)]

ghost use Rattle.std.specs.Prelude.{◌≡◌, true};
ghost use Rattle.legend.specs.Line.{is_line};

#[tactic(auto, unfolding(crate::specs::Line::is_line))]
fn line() -> &'static [u8]
    ensures { is_line result.now ≡ true }
{
    b"run, view's place in it, table id, start and end in hexadecimal (61 is a): [ ] with the key, ( ) without it, - no bound\n"
}

pub fn write(fd: i32) {
    io::write_all(fd, line());
}
