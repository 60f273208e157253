// Bytes in hexadecimal, as the line of a malformed record has them (document 02, Paper 5).
#![tactic(auto, using(text::proofs::Laws::pages))]

ghost use Rattle.std.specs.Prelude.{◌≡◌, ◌++◌, ◌+◌, ◌<◌, ◌≤◌, length};
ghost use Rattle.text.specs.Text.{Puts, HasRoom};
ghost use Rattle.lines.specs.Lines.{space};
ghost use Rattle.hexes.specs.Hex.{hex_digit, hex, hexes};

use text::Page;

// The digit of a number below 16. By hand: `Puts` promises a page's bytes, and a page is no `fmt::Write` to format
// into.
fn hex_digit(x: u8) -> u8
    requires { x < 16 }
    ensures { result ≡ hex_digit x }
{
    if x < 10 { b'0' + x } else { b'A' + (x - 10) }
}

// Writes a space and a byte.
fn put_hex(page: &mut Page<'_>, b: u8)
    requires { HasRoom page.old (space ++ hex b) }
    ensures { Puts page.old (space ++ hex b) page.new }
{
    page.put_byte(b' ');
    page.put_byte(hex_digit(b / 16));
    page.put_byte(hex_digit(b % 16));
}

// Writes bytes, a space before each. Inner layer: callers see to the room.
#[tactic(auto, using(text::proofs::Laws::pages, crate::proofs::Hexes::hexes_page))]
pub fn put_hexes(page: &mut Page<'_>, s: &[u8])
    requires { HasRoom page.old (hexes s.now) }
    ensures { Puts page.old (hexes s.now) page.new }
{
    for b in s {
        put_hex(page, *b);
    }
}
