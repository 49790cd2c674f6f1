//! The first fault and the least missing key that were found so far.

ghost use Rattle.std.specs.Prelude.{◌≡◌, ◌∷◌, [], OnOk, None, string_bytes};
ghost use Rattle.plan_judging.specs.Candidates.{rank, precedes, adds, seen};

use std::alloc::{AllocError, Global};

/// Why a line is refused.
#[derive(Clone, Copy)]
pub enum FaultKind {
    UnknownType,
    UnknownName,
    BadNumber,
    BadPattern,
    Unsupported,
    Clash,
}

impl FaultKind {
    /// The order of two faults on one line.
    fn rank(self) -> u8
        ensures { result ≡ rank self }
    {
        match self {
            FaultKind::UnknownType => 0,
            FaultKind::UnknownName => 1,
            FaultKind::BadNumber => 2,
            FaultKind::BadPattern => 3,
            FaultKind::Unsupported => 4,
            FaultKind::Clash => 5,
        }
    }
}

/// A line that is refused, and why.
#[derive(Clone, Copy)]
pub struct Fault {
    pub line: u32,
    pub kind: FaultKind,
}

impl Fault {
    fn precedes(self, other: Fault) -> bool
        ensures { result ≡ precedes self other }
    {
        self.line < other.line || (self.line == other.line && self.kind.rank() < other.kind.rank())
    }
}

/// The first fault and the least missing key so far.
#[derive(Drop)]
pub struct Findings {
    pub fault: Option<Fault>,
    pub missing: Option<String>,
}

impl Findings {
    ghost use Rattle.plan_judging.specs.Candidates.{rank, precedes, adds, seen};

    /// Nothing found yet.
    pub fn new() -> Findings
        ensures { seen result ≡ record { fault = None; missing = None } }
    {
        Findings {
            fault: None,
            missing: None,
        }
    }

    /// A line is refused.
    #[tactic(auto, unfolding(crate::specs::Candidates::adds))]
    pub fn refuse(&mut self, line: u32, kind: FaultKind)
        ensures { seen self.new ≡ adds (seen self.old) (record {
          faults =
              record { line = line; kind = kind } ∷ [];
          missing = [];
        }) }
    {
        let fault = Fault { line, kind };
        match self.fault {
            Some(first) if !fault.precedes(first) => {}
            _ => self.fault = Some(fault),
        }
    }

    /// A required key is not there.
    #[tactic(auto, unfolding(crate::specs::Candidates::adds))]
    pub fn lacks(&mut self, key: String)
        ensures { seen self.new ≡ adds (seen self.old) (record {
          faults = [];
          missing = string_bytes
              key ∷ [];
        }) }
    {
        match &self.missing {
            Some(least) if key.as_str() >= least.as_str() => {}
            _ => self.missing = Some(key),
        }
    }
}
