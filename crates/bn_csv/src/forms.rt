//! The forms of names and symbols in this project's tables.

ghost use Rattle.std.specs.Prelude.{◌≡◌};
ghost use Rattle.std.specs.List.{list_all};
ghost use Rattle.bn_csv.specs.Forms as form;

/// Whether some bytes are a state's name: 1 to 32 bytes, each an ASCII letter, a digit, `'`, `.` or `-`.
pub fn is_state_name(name: &[u8]) -> bool
    ensures { result ≡ form.is_state_name name.now }
{
    1 <= name.len() && name.len() <= 32 && has_name_bytes(name)
}

// Whether each byte may stand in a state's name.
fn has_name_bytes(name: &[u8]) -> bool
    ensures { result ≡ list_all form.is_name_byte name.now }
{
    name.iter().all(|byte| is_name_byte(*byte))
}

fn is_name_byte(byte: u8) -> bool
    ensures { result ≡ form.is_name_byte byte }
{
    byte.is_ascii_alphanumeric() || byte == b'\'' || byte == b'.' || byte == b'-'
}

/// Whether some bytes are a symbol of one byte: from 33 to 126, other than `/`, `,` and `"`.
pub fn is_letter(symbol: &[u8]) -> bool
    ensures { result ≡ form.is_letter symbol.now }
{
    symbol.len() == 1 && has_symbol_bytes(symbol)
}

/// Whether some bytes are a symbol of 1 to 8 bytes, each from 33 to 126, other than `/`, `,` and `"`.
pub fn is_symbol(symbol: &[u8]) -> bool
    ensures { result ≡ form.is_symbol symbol.now }
{
    1 <= symbol.len() && symbol.len() <= 8 && has_symbol_bytes(symbol)
}

// Whether each byte may stand in a symbol.
fn has_symbol_bytes(symbol: &[u8]) -> bool
    ensures { result ≡ list_all form.is_symbol_byte symbol.now }
{
    symbol.iter().all(|byte| is_symbol_byte(*byte))
}

fn is_symbol_byte(byte: u8) -> bool
    ensures { result ≡ form.is_symbol_byte byte }
{
    33 <= byte && byte <= 126 && byte != b'/' && byte != b',' && byte != b'"'
}
