// Classes of bytes, and runs of them.
ghost use Rattle.std.specs.Prelude.{◌≡◌, ◌≤◌, length};
ghost use Rattle.std.specs.List.{prefix_len};
ghost use Rattle.l2_pieces.specs.Bytes.{is_space, is_digit, is_letter, is_word_byte, is_number_byte, is_in_line, is_plain, is_escape, is_prefix, begins_with, is_byte};

pub fn is_space(byte: u8) -> bool
    ensures { result ≡ is_space byte }
{
    matches!(byte, b' ' | 9..=13)
}

/// A decimal digit.
pub fn is_digit(byte: u8) -> bool
    ensures { result ≡ is_digit byte }
{
    b'0' <= byte && byte <= b'9'
}

/// A letter or an underscore.
pub fn is_letter(byte: u8) -> bool
    ensures { result ≡ is_letter byte }
{
    b'A' <= byte && byte <= b'Z' || b'a' <= byte && byte <= b'z' || byte == b'_'
}

fn is_word_byte(byte: u8) -> bool
    ensures { result ≡ is_word_byte byte }
{
    is_letter(byte) || is_digit(byte)
}

fn is_number_byte(byte: u8) -> bool
    ensures { result ≡ is_number_byte byte }
{
    is_word_byte(byte) || byte == b'.'
}

fn is_in_line(byte: u8) -> bool
    ensures { result ≡ is_in_line byte }
{
    byte != b'\n'
}

pub fn is_plain(byte: u8) -> bool
    ensures { result ≡ is_plain byte }
{
    byte <= 126 && !(byte == b'\'' || byte == b'\\' || byte == b'\n')
}

pub fn is_escape(byte: u8) -> bool
    ensures { result ≡ is_escape byte }
{
    byte == b'n'
        || byte == b't'
        || byte == b'r'
        || byte == b'0'
        || byte == b'\\'
        || byte == b'\''
        || byte == b'"'
}

/// What begins a character constant of another form: `L`, `u` or `U`.
pub fn is_prefix(byte: u8) -> bool
    ensures { result ≡ is_prefix byte }
{
    byte == b'L' || byte == b'u' || byte == b'U'
}

/// Whether a text begins with this byte.
pub fn begins_with(text: &[u8], byte: u8) -> bool
    ensures { result ≡ begins_with (is_byte byte) text.now }
{
    match text {
        [] => false,
        [first, ..] => *first == byte,
    }
}

pub fn begins_with_digit(text: &[u8]) -> bool
    ensures { result ≡ begins_with is_digit text.now }
{
    match text {
        [] => false,
        [first, ..] => is_digit(*first),
    }
}

pub fn space_length(text: &[u8]) -> usize
    ensures value { result ≡ prefix_len is_space text.now }
    ensures within { result ≤ length text.now }
{
    text.iter().take_while(|byte| is_space(**byte)).count()
}

pub fn word_length(text: &[u8]) -> usize
    ensures value { result ≡ prefix_len is_word_byte text.now }
    ensures within { result ≤ length text.now }
{
    text.iter().take_while(|byte| is_word_byte(**byte)).count()
}

pub fn number_length(text: &[u8]) -> usize
    ensures value { result ≡ prefix_len is_number_byte text.now }
    ensures within { result ≤ length text.now }
{
    text.iter()
        .take_while(|byte| is_number_byte(**byte))
        .count()
}

pub fn line_length(text: &[u8]) -> usize
    ensures value { result ≡ prefix_len is_in_line text.now }
    ensures within { result ≤ length text.now }
{
    text.iter().take_while(|byte| is_in_line(**byte)).count()
}
