// The flag that several layouts have.
ghost use Rattle.std.specs.Prelude.{◌≡◌};
ghost use Rattle.records.specs.Layouts.{flag_of};
ghost use Rattle.records.specs.Spans.{flag_read};

// What a flag and its 7 bits of padding say.
#[derive(Clone, Copy)]
pub enum FlagRead {
    Is(bool),
    Stop(u8),
}

#[tactic(auto, using(crate::proofs::FieldExits::flag_exits))]
pub fn flag_of(b: u8) -> FlagRead
    ensures { flag_read result ≡ flag_of b }
{
    match b {
        0 => FlagRead::Is(false),
        128 => FlagRead::Is(true),
        _ => FlagRead::Stop(2),
    }
}
