// Numbers of two and of four bytes within a text, the low byte first, read at a place. Inner layer: callers see to it
// that the text has them.
#![tactic(auto)]

ghost use Rattle.std.specs.Prelude.{◌≡◌, ◌+◌, ◌≤◌, length};
ghost use Rattle.fields.specs.Fields.{two_at, four_at};

// Two bytes as a number. Inner layer: callers see to the place.
pub fn two_at(s: &[u8], at: usize) -> u16
    requires { at + 2 ≤ length s.now }
    ensures { result ≡ two_at s.now at }
{
    u16::from_le_bytes([s[at], s[at + 1]])
}

// Four bytes as a number. Inner layer: callers see to the place.
pub fn four_at(s: &[u8], at: usize) -> u32
    requires { at + 4 ≤ length s.now }
    ensures { result ≡ four_at s.now at }
{
    u32::from_le_bytes([s[at], s[at + 1], s[at + 2], s[at + 3]])
}
