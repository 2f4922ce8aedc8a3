//! Names, as a web page shows them.
ghost use Rattle.std.specs.Prelude.{◌≡◌, ◌≤◌, length};
ghost use Rattle.hx_market_view.specs.Names.{shown_byte, shown_name};

use arrayvec::ArrayString;

// A byte as it is shown.
fn shown_byte(byte: u8) -> u8
    ensures { result ≡ shown_byte byte }
{
    if byte.is_ascii_graphic() { byte } else { b'.' }
}

/// A name without its spaces. A byte that is no visible letter of ASCII is shown as a dot, so that
/// whatever a feed says is text.
pub fn shown_name(name: &[u8]) -> ArrayString<10>
    requires { length name.now ≤ 10 }
    ensures { result.bytes ≡ shown_name name.now }
{
    let mut shown = ArrayString::new();
    for byte in name {
        if *byte != b' ' {
            shown.push(shown_byte(*byte) as char);
        }
    }
    shown
}
