ghost use Rattle.std.specs.Prelude.{◌≡◌, ℕ, ◌≤◌, ◌<◌, ◌==◌, nat_lt, true, false, [], if◌then◌else◌};
ghost use Rattle.cluster_script.specs.Marks.{is_marked, HaveMarks, AreMarkedAfter, MayBeMarked};

use crate::statement::Statement;

/// One more than the greatest number that may be marked: nodes have the numbers below 64, and sessions those from 1 to 64.
const NUMBERS: usize = 65;

/// A set of numbers.
#[derive(Clone, Copy, Debug)]
pub struct Marks {
    marks: [bool; NUMBERS],
}

impl Marks {
    fn none() -> Self
        ensures { (k : ℕ) → is_marked k result ≡ false }
    {
        Marks {
            marks: [false; NUMBERS],
        }
    }

    /// Whether a number is marked.
    pub fn has(&self, number: u64) -> bool
        ensures { result ≡ is_marked number self.now }
    {
        if number >= NUMBERS as u64 {
            return false;
        }
        self.marks[number as usize]
    }

    /// With a number marked, or no longer marked.
    fn with(self, number: u32, mark: bool) -> Self
        requires { number < NUMBERS }
        ensures { (k : ℕ) → is_marked k result ≡ (if number == k then mark else is_marked k self) }
    {
        let mut marks = self.marks;
        marks[number as usize] = mark;
        Marks { marks }
    }

    /// With all numbers below this one marked.
    fn with_first(self, count: u32) -> Self
        requires { count < NUMBERS }
        ensures { (k : ℕ) → is_marked k result ≡ (if nat_lt k count then true else is_marked k self) }
    {
        let mut all = self;
        for number in 0..count {
            all = all.with(number, true);
        }
        all
    }
}

/// The numbers of nodes and of sessions of which statements say something.
#[derive(Clone, Copy, Debug)]
pub struct MarkedNumbers {
    /// The nodes whose zone is set.
    pub zoned: Marks,
    /// The sessions that are declared.
    pub declared: Marks,
    /// The nodes that are opening members or joined.
    pub used: Marks,
    /// Those of them that are failed.
    pub failed: Marks,
}

impl MarkedNumbers {
    /// Those of no statements.
    pub fn new() -> Self
        ensures { HaveMarks [] result }
    {
        MarkedNumbers {
            zoned: Marks::none(),
            declared: Marks::none(),
            used: Marks::none(),
            failed: Marks::none(),
        }
    }

    /// With one statement more.
    pub fn marked(self, s: &Statement) -> Self
        requires { MayBeMarked s.now }
        ensures { AreMarkedAfter self s.now result }
    {
        match s {
            Statement::Cluster { nodes } => MarkedNumbers {
                used: self.used.with_first(*nodes),
                ..self
            },
            Statement::Session { session, .. } => MarkedNumbers {
                declared: self.declared.with(*session, true),
                ..self
            },
            Statement::Fail { node } => MarkedNumbers {
                failed: self.failed.with(*node, true),
                ..self
            },
            Statement::Join { node } => MarkedNumbers {
                used: self.used.with(*node, true),
                ..self
            },
            Statement::Zone { node, .. } => MarkedNumbers {
                zoned: self.zoned.with(*node, true),
                ..self
            },
            Statement::Back { node } => MarkedNumbers {
                failed: self.failed.with(*node, false),
                ..self
            },
            _ => self,
        }
    }
}
