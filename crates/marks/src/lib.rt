// Marks of record numbers in a lent scratch, one bit for each (document 02, Paper 8: "with 576 bytes of scratch or
// more"). What a mark is in bytes is known here alone. Inner layer: callers see to it that a scratch is long enough for
// a mark: a clause, since a scratch of any length is lent, by C too, and refusal 3 comes of `enough`.
#![tactic(auto)]

ghost use Rattle.std.specs.Prelude.{◌≡◌, ◌≤◌, leb, length, replicate};
ghost use Rattle.marks.specs.Marks.{most, room, marked, adding};

use members::Board;

// Whether n bytes are enough for a scratch: refusal 3 where they are not.
pub fn enough(n: usize) -> bool
    ensures { result ≡ leb room n }
{
    576 <= n
}

// All bytes of a scratch become zeros, so that nothing is marked.
pub fn clear(s: &mut [u8])
    ensures { s.new ≡ replicate (length s.old) 0 }
{
    s.fill(0);
}

// Whether k is marked. A byte is a mask of eight numbers, as one of boards is. Inner layer: callers see to the scratch's
// length and to k.
pub fn is_marked(s: &[u8], k: usize) -> bool
    requires { (room ≤ length s.now) × (1 ≤ k) × (k ≤ most) }
    ensures { result ≡ marked s.now k }
{
    let i = (k - 1) / 8;
    let b = Board::at((k - 1) % 8);
    members::has(s[i], b)
}

// k is marked too. Inner layer: callers see to the scratch's length and to k.
pub fn mark(s: &mut [u8], k: usize)
    requires { (room ≤ length s.old) × (1 ≤ k) × (k ≤ most) }
    ensures { marked s.new ≡ adding k (marked s.old) }
{
    let at = (k - 1) / 8;
    let b = Board::at((k - 1) % 8);
    s[at] = members::insert(s[at], b);
}
