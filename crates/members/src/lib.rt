// Replicas, and a set of them as a mask, replica 1 the lowest bit. A set stays a `u8`: C gives it so to
// `look_up_majority`, an image and a mark have it as a byte, each byte is a set, and `bits` reads it.
#![tactic(auto)]

ghost use Rattle.std.specs.Prelude.{◌≡◌, Bool, true, false, cond, ◌+◌, ◌-◌, ◌<◌, ◌≤◌, IfOk, MatchResult};
ghost use Rattle.model.specs.Prelude.{upd};
ghost use Rattle.model.specs.Members as Q;
ghost use Rattle.model.specs.Members.{◌∩◌};
ghost use Rattle.members.specs.Mask.{bits, under};
ghost use Rattle.refusal.specs.Refusal.{answer};

use refusal::Refusal;

// A replica's number, 1 to 8 (document 01: a board).
#[derive(Clone, Copy, Debug, PartialEq, Eq)]
pub struct Board {
    pub number: u8,
    ghost least: { 1 ≤ number },
    ghost most: { number ≤ 8 },
}

impl Board {
    // The replica of a number; refusal 1 for a number that is none.
    pub fn new(b: u8) -> Result<Board, Refusal>
        ensures answer { answer result ≡ cond (Q.is_replica b) 0 1 }
        ensures number { IfOk result (λ x. x.number ≡ b) }
        ensures test { MatchResult result (λ x. Q.is_replica b ≡ true) (λ e. Q.is_replica b ≡ false) }
    {
        if 1 <= b && b <= 8 {
            Ok(Board { number: b })
        } else {
            Err(Refusal::Invalid)
        }
    }

    // The replica at a place among the eight, from 0 on. Inner layer: callers see to the place.
    pub fn at(i: usize) -> Board
        requires { i < 8 }
        ensures { result.number ≡ i + 1 }
    {
        Board {
            number: i as u8 + 1,
        }
    }

    // Its place among the eight, from 0 on.
    pub fn index(self) -> usize
        ensures place { result ≡ self.number - 1 }
        ensures below { result < 8 }
    {
        (self.number - 1) as usize
    }
}

// Whether b is in the set.
pub fn has(m: u8, b: Board) -> bool
    ensures { result ≡ bits m b.number }
{
    (m >> b.index()) % 2 == 1
}

// b alone.
pub fn single(b: Board) -> u8
    ensures { bits result ≡ Q.only b.number }
{
    1u8 << b.index()
}

// The set with b.
pub fn insert(m: u8, b: Board) -> u8
    ensures { bits result ≡ upd (bits m) b.number true }
{
    put(m, b, true)
}

// The set without b.
pub fn remove(m: u8, b: Board) -> u8
    ensures { bits result ≡ upd (bits m) b.number false }
{
    put(m, b, false)
}

// The set with b if present, without b if not.
pub fn put(m: u8, b: Board, present: bool) -> u8
    ensures { bits result ≡ upd (bits m) b.number present }
{
    m & !(1u8 << b.index()) | (present as u8) << b.index()
}

// The set without the replica of a number, which may be none.
pub fn without(m: u8, b: u8) -> u8
    ensures { bits result ≡ upd (bits m) b false }
{
    match Board::new(b) {
        Ok(b) => remove(m, b),
        Err(_) => m,
    }
}

// The replicas that pass a test. Inner layer: callers see to it that the test answers for each.
pub fn gather<F: Fn(Board) -> bool>(test: F) -> u8
    requires { F.IsAlwaysCallable test }
    ensures { (p : Q.Members) → ((b : Board) (t : Bool) → F.post test b t → t ≡ p b.number)
        → bits result ≡ under 9 p }
{
    let mut q = 0;
    for i in 0..8 {
        let b = Board::at(i);
        q = put(q, b, test(b));
    }
    q
}

// The members of the set that pass a test. Inner layer: callers see to it that the test answers for each.
pub fn filter<F: Fn(Board) -> bool>(m: u8, test: F) -> u8
    requires { F.IsAlwaysCallable test }
    ensures { (p : Q.Members) → ((b : Board) (t : Bool) → F.post test b t → t ≡ p b.number)
        → bits result ≡ bits m ∩ p }
{
    m & gather(test)
}

// How many replicas the set has.
pub fn size(m: u8) -> u8
    ensures { result ≡ Q.size (bits m) }
{
    u8::count_ones(m) as u8
}

// The majority size of each set, by its mask: 16 rows of 16, behind each row the mask of its first set. Document 02,
// Paper 3: "a table of 256 numbers, one for each set of boards, board 1 as the lowest bit"; docs/MAJORITY.md prints it.
// An array of numbers, and a constant, as document 01 names it for this place. It is laid out anew for each lookup, and
// numbers of two bytes are laid out faster (docs/DECISIONS.md).
#[rattlefmt::skip]
const MAJORITY: [u16; 256] = [
    1, 1, 1, 2, 1, 2, 2, 2, 1, 2, 2, 2, 2, 2, 2, 3, // 00
    1, 2, 2, 2, 2, 2, 2, 3, 2, 2, 2, 3, 2, 3, 3, 3, // 10
    1, 2, 2, 2, 2, 2, 2, 3, 2, 2, 2, 3, 2, 3, 3, 3, // 20
    2, 2, 2, 3, 2, 3, 3, 3, 2, 3, 3, 3, 3, 3, 3, 4, // 30
    1, 2, 2, 2, 2, 2, 2, 3, 2, 2, 2, 3, 2, 3, 3, 3, // 40
    2, 2, 2, 3, 2, 3, 3, 3, 2, 3, 3, 3, 3, 3, 3, 4, // 50
    2, 2, 2, 3, 2, 3, 3, 3, 2, 3, 3, 3, 3, 3, 3, 4, // 60
    2, 3, 3, 3, 3, 3, 3, 4, 3, 3, 3, 4, 3, 4, 4, 4, // 70
    1, 2, 2, 2, 2, 2, 2, 3, 2, 2, 2, 3, 2, 3, 3, 3, // 80
    2, 2, 2, 3, 2, 3, 3, 3, 2, 3, 3, 3, 3, 3, 3, 4, // 90
    2, 2, 2, 3, 2, 3, 3, 3, 2, 3, 3, 3, 3, 3, 3, 4, // A0
    2, 3, 3, 3, 3, 3, 3, 4, 3, 3, 3, 4, 3, 4, 4, 4, // B0
    2, 2, 2, 3, 2, 3, 3, 3, 2, 3, 3, 3, 3, 3, 3, 4, // C0
    2, 3, 3, 3, 3, 3, 3, 4, 3, 3, 3, 4, 3, 4, 4, 4, // D0
    2, 3, 3, 3, 3, 3, 3, 4, 3, 3, 3, 4, 3, 4, 4, 4, // E0
    3, 3, 3, 4, 3, 4, 4, 4, 3, 4, 4, 4, 4, 4, 4, 5, // F0
];

// How many make a majority of the set.
pub fn majority(m: u8) -> u8
    ensures { result ≡ Q.quorum (Q.size (bits m)) }
{
    MAJORITY[m as usize] as u8
}

// The replicas in both sets.
pub fn both(m: u8, q: u8) -> u8
    ensures { bits result ≡ bits m ∩ bits q }
{
    m & q
}

// Whether q, a set of members of m, has as many as a majority of m.
pub fn is_quorum(m: u8, q: u8) -> bool
    ensures { result ≡ Q.is_quorum (bits m) (bits q) }
{
    majority(m) <= size(q)
}

// The lowest replica of the set, 0 for the empty set: a number, as the model's `lowest` is, of which it promises.
pub fn lowest(m: u8) -> u8
    ensures { result ≡ Q.lowest (bits m) }
{
    if m == 0 {
        return 0;
    }
    (u8::trailing_zeros(m) as u8) + 1
}
