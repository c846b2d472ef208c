// Names that hosts and groups can have.
ghost use Rattle.std.specs.Prelude.{◌≡◌};
ghost use Rattle.pb_language.specs.Words.{is_digit as is_name_digit, is_letter as is_name_letter};
ghost use Rattle.pb_language.specs.Written.{are_host_bytes, is_group_name, is_host_byte};
ghost use Rattle.pb_language.specs.Written.{is_host_name};

// The most bytes of a host's name.
const MOST_HOST_BYTES: usize = 253;

// The most bytes of a group's name.
const MOST_GROUP_BYTES: usize = 100;

// Whether a host can have that name.
pub(crate) fn is_host(name: &str) -> bool
    ensures { result ≡ is_host_name name.now }
{
    let bytes = name.as_bytes();
    !bytes.is_empty() && bytes.len() <= MOST_HOST_BYTES && are_host_bytes(bytes)
}

// Whether a group can have that name.
pub(crate) fn is_group(name: &str) -> bool
    ensures { result ≡ is_group_name name.now }
{
    let bytes = name.as_bytes();
    match bytes.first() {
        Some(first) => {
            is_letter(*first) && bytes.len() <= MOST_GROUP_BYTES && are_host_bytes(bytes)
        }
        None => false,
    }
}

fn are_host_bytes(bytes: &[u8]) -> bool
    ensures { result ≡ are_host_bytes bytes.now }
{
    for byte in bytes {
        if !is_host_byte(*byte) {
            return false;
        }
    }
    true
}

fn is_host_byte(byte: u8) -> bool
    ensures { result ≡ is_host_byte byte }
{
    is_letter(byte) || is_digit(byte) || byte == b'.' || byte == b'-'
}

fn is_letter(byte: u8) -> bool
    ensures { result ≡ is_name_letter byte }
{
    matches!(byte, b'a'..=b'z' | b'A'..=b'Z' | b'_')
}

fn is_digit(byte: u8) -> bool
    ensures { result ≡ is_name_digit byte }
{
    byte.is_ascii_digit()
}
