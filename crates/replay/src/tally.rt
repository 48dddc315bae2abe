// Counts of records, and of those whose answers agree. They are printed by file number, and no write's failure ends a program:
// `println!` would retry a write that a signal interrupts, and stop at a line's first that fails.

ghost use Rattle.std.specs.Prelude.{◌≡◌, replicate};
ghost use Rattle.replay.specs.Counted.{counted, counted_at, call_place, stop_place, no_records};

// How many records there were, and how many of their answers agree.
#[derive(Clone, Copy)]
pub struct Tally {
    pub records: u64,
    pub agreed: u64,
}

impl Tally {
    pub fn new() -> Tally
        ensures { result ≡ no_records }
    {
        Tally {
            records: 0,
            agreed: 0,
        }
    }

    pub fn count(&mut self, agreed: bool)
        ensures { self.new ≡ counted self.old agreed }
    {
        self.records = self.records.saturating_add(1);
        self.agreed = self.agreed.saturating_add(u64::from(agreed));
    }

    pub fn print(&self, name: &[u8]) {
        io::write_all(1, name);
        io::write_all(1, b" ");
        io::print_decimal(1, self.agreed);
        print_number(b" of", self.records);
    }
}

pub fn print_number(name: &[u8], n: u64) {
    io::write_all(1, name);
    io::write_all(1, b" ");
    io::print_decimal(1, n);
    io::write_all(1, b"\n");
}

// The tallies of each call, the first for unknown ones, and of each recorded stop, 0 if none.
#[derive(Drop)]
pub struct Counts<const CALLS: usize> {
    pub calls: [Tally; CALLS],
    pub stops: [Tally; 18],
}

impl<const CALLS: usize> Counts<CALLS> {
    pub fn new() -> Counts<CALLS>
        ensures calls { result.calls ≡ replicate CALLS no_records }
        ensures stops { result.stops ≡ replicate 18 no_records }
    {
        Counts {
            calls: [Tally::new(); CALLS],
            stops: [Tally::new(); 18],
        }
    }

    // Calls that have no tally of their own are counted as 0, and stops from 17 on as one.
    pub fn count(&mut self, call: u8, stop: u8, agreed: bool)
        ensures calls { self.new.calls ≡ counted_at self.old.calls (call_place CALLS call) agreed }
        ensures stops { self.new.stops ≡ counted_at self.old.stops (stop_place stop) agreed }
    {
        let call = usize::from(call);
        let call = if call < CALLS { call } else { 0 };
        if call < CALLS {
            self.calls[call].count(agreed);
        }
        self.stops[usize::from(stop.min(17))].count(agreed);
    }

    pub fn print_stops(&self, stops: &[u8]) {
        self.stops[0].print(b"no stop");
        for &stop in stops {
            io::write_all(1, b"stop ");
            io::print_decimal(1, u64::from(stop));
            self.stops[usize::from(stop.min(17))].print(b":");
        }
    }
}
