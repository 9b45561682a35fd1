ghost use Rattle.std.specs.Prelude.{◌≡◌, ◌≤◌};
ghost use Rattle.vlog_tokens.specs.Bytes as spec;

/// Whether the byte is a blank: space, tab, line feed, form feed or carriage return.
pub fn is_blank(byte: u8) -> bool
    ensures { result ≡ spec.is_blank byte }
{
    byte == b' ' || byte == b'\t' || byte == b'\n' || byte == 12 || byte == b'\r'
}

/// Whether a name may begin with the byte.
pub fn begins_name(byte: u8) -> bool
    ensures { result ≡ spec.begins_name byte }
{
    byte.is_ascii_alphabetic() || byte == b'_'
}

/// Whether a name may go on with the byte.
pub fn goes_on(byte: u8) -> bool
    ensures { result ≡ spec.goes_on byte }
{
    byte.is_ascii_alphanumeric() || byte == b'_' || byte == b'$'
}

/// Whether the byte is a decimal digit.
pub fn is_decimal(byte: u8) -> bool
    ensures { result ≡ spec.is_decimal byte }
{
    byte.is_ascii_digit()
}

/// How many digits the base has that the letter names. 0 where it names none.
pub fn radix_of(letter: u8) -> u8
    ensures value { result ≡ spec.radix_of letter }
    ensures within { result ≤ 16 }
{
    if letter == b'b' || letter == b'B' {
        2
    } else if letter == b'o' || letter == b'O' {
        8
    } else if letter == b'd' || letter == b'D' {
        10
    } else if letter == b'h' || letter == b'H' {
        16
    } else {
        0
    }
}

/// Whether the byte is a digit whose bits match anything.
pub fn is_open(byte: u8) -> bool
    ensures { result ≡ spec.is_open byte }
{
    byte == b'z' || byte == b'Z' || byte == b'?'
}

/// Whether the byte is a digit whose bits are unknown.
pub fn is_unknown(byte: u8) -> bool
    ensures { result ≡ spec.is_unknown byte }
{
    byte == b'x' || byte == b'X'
}

/// What a digit is worth. 16 for a byte that is none.
pub fn worth(byte: u8) -> u8
    ensures value { result ≡ spec.worth byte }
    ensures within { result ≤ 16 }
{
    if byte.is_ascii_digit() {
        byte - b'0'
    } else if b'a' <= byte && byte <= b'f' {
        byte - 87
    } else if b'A' <= byte && byte <= b'F' {
        byte - 55
    } else {
        16
    }
}

/// Whether the byte is a digit of the base with so many digits.
pub fn is_digit_of(radix: u8, byte: u8) -> bool
    ensures { result ≡ spec.is_digit_of radix byte }
{
    if worth(byte) < radix || is_unknown(byte) {
        return true;
    }
    is_open(byte) && radix != 10
}
