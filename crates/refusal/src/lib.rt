// Why a call refuses: the papers' numbers as one enum, for `?`.
#![tactic(auto)]

ghost use Rattle.std.specs.Prelude.{◌≡◌, cond};
ghost use Rattle.refusal.specs.Refusal.{number, answer, returned};

use std::fmt;

// Document 01, "Who causes a refusal": the caller (1 to 3), the registry (4 to 7), the boards (8 to 13), the controller
// or a count (14 to 16); document 02: an image (17 to 19), a row from which no list leads to normal (20). A term is a
// leader epoch.
#[derive(Clone, Copy, Debug, PartialEq, Eq)]
pub enum Refusal {
    Invalid = 1,
    Sheet = 2,
    Room = 3,
    Status = 4,
    Membership = 5,
    Leader = 6,
    EpochsUsedUp = 7,
    NotLeader = 8,
    FollowsNone = 9,
    TermsDiffer = 10,
    Joining = 11,
    NothingDue = 12,
    LogFull = 13,
    NoMajority = 14,
    Stage = 15,
    EpochsDiffer = 16,
    ImageLength = 17,
    ImageNumber = 18,
    ImageLinks = 19,
    NoPlan = 20,
}

impl Refusal {
    // The papers' number.
    pub fn number(self) -> u8
        ensures { result ≡ number self }
    {
        self as u8
    }
}

// As the programs print it.
impl fmt::Display for Refusal {
    fn fmt<W: fmt::Write>(&self, f: &mut fmt::Formatter<W>) -> fmt::Result {
        write!(f, "refused {}", self.number())
    }
}

// A check: passed, or its refusal.
pub fn ensure(ok: bool, e: Refusal) -> Result<(), Refusal>
    ensures { result ≡ cond ok (Ok tt) (Err e) }
{
    if ok { Ok(()) } else { Err(e) }
}

// The answer to a step: 0 where it is accepted, else the refusal's number.
pub fn answer<T>(r: &Result<T, Refusal>) -> u8
    ensures { result ≡ answer r.now }
{
    match r {
        Ok(_) => 0,
        Err(e) => e.number(),
    }
}

// What an entry for C returns: a length, or the refusal's number.
pub fn returned(r: Result<usize, Refusal>) -> usize
    ensures { result ≡ returned r }
{
    match r {
        Ok(n) => n,
        Err(e) => e.number() as usize,
    }
}
