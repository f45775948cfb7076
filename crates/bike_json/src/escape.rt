//! The escapes of a JSON string (RFC 8259, section 7).

ghost use Rattle.std.specs.Prelude.{◌≡◌, ◌<◌, ◌≤◌, ◌∷◌, [], take, true};
ghost use Rattle.bike_json.specs.Escapes.{escaped_byte, string_text, hex_digit as hex_digit_of};

/// Room for a string that is written in one piece, in bytes.
pub(crate) const STRING_ROOM: usize = 64;

/// Puts the string of a text at the front of `buf` and gives its length, where the text has no escape and its string
/// has room; else gives 0.
pub(crate) fn quote(text: &[u8], buf: &mut [u8; STRING_ROOM]) -> usize
    ensures within { result ≤ STRING_ROOM }
    ensures string { 0 < result → take result buf.new ≡ string_text text.now }
{
    if text.len() > STRING_ROOM - 2 {
        return 0;
    }
    buf[0] = b'"';
    for i in 0..text.len() {
        if !stands_for_itself(text[i]) {
            return 0;
        }
        buf[i + 1] = text[i];
    }
    buf[text.len() + 1] = b'"';
    text.len() + 2
}

/// Whether the byte stands for itself. Most bytes of a name are above the backslash, so that is asked first.
#[tactic(auto, unfolding(crate::specs::Escapes::escaped_byte))]
fn stands_for_itself(byte: u8) -> bool
    ensures { result ≡ true → escaped_byte byte ≡ byte ∷ [] }
{
    byte > b'\\' || byte > b'"' && byte < b'\\' || byte == b' ' || byte == b'!'
}

/// Puts the escape of a byte at the front of `buf` and gives its length; 0 for a byte that stands for itself.
#[tactic(auto, unfolding(crate::specs::Escapes::escaped_byte))]
pub(crate) fn escape(byte: u8, buf: &mut [u8; 6]) -> usize
    ensures within { result ≤ 6 }
    ensures escape { 0 < result → take result buf.new ≡ escaped_byte byte }
    ensures plain { result ≡ 0 → escaped_byte byte ≡ byte ∷ [] }
{
    let letter = match byte {
        b'"' => b'"',
        b'\\' => b'\\',
        0x08 => b'b',
        0x09 => b't',
        0x0a => b'n',
        0x0c => b'f',
        0x0d => b'r',
        0..=31 => {
            *buf = [
                b'\\',
                b'u',
                b'0',
                b'0',
                hex_digit(byte / 16),
                hex_digit(byte % 16),
            ];
            return 6;
        }
        _ => return 0,
    };
    *buf = [b'\\', letter, 0, 0, 0, 0];
    2
}

fn hex_digit(digit: u8) -> u8
    requires { digit < 16 }
    ensures { result ≡ hex_digit_of digit }
{
    if digit < 10 {
        b'0' + digit
    } else {
        b'a' - 10 + digit
    }
}
