ghost use Rattle.std.specs.Prelude.{◌≡◌, ◌≤◌};

/// The calls that were made of an object in memory, and those of them that fail.
#[derive(Drop)]
pub struct Calls {
    /// The numbers of the calls that fail, from 0.
    failing: Vec<u64>,
    /// The calls so far, which stay at the greatest number once they reach it.
    made: u64,
    /// The faults so far, likewise.
    faults: u64,
}

impl Calls {
    ghost use Rattle.wat_faults.specs.Faults.{counted};
    ghost use Rattle.wat_io.specs.Calls.{is_to_fail};

    /// No call was made yet.
    pub fn new(failing: Vec<u64>) -> Self
        ensures { result ≡ record { failing = failing; made = 0; faults = 0 } }
    {
        Calls {
            failing,
            made: 0,
            faults: 0,
        }
    }

    /// Counts a call, and answers whether it is one of those that fail.
    pub fn begin(&mut self) -> bool
        ensures fails { result ≡ is_to_fail self.old }
        ensures made { self.new ≡ record self.old { made = counted self.old.made } }
    {
        let fails = self.failing.contains(&self.made);
        self.made = self.made.saturating_add(1);
        fails
    }

    /// Counts a fault.
    pub fn fail(&mut self)
        ensures rest { self.new ≡ record self.old { faults = counted self.old.faults } }
        ensures later { self.old.faults ≤ self.new.faults }
    {
        self.faults = self.faults.saturating_add(1);
    }
}
