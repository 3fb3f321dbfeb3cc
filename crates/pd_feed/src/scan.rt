//! The white space before a record and the semicolon that ends it.
ghost use Rattle.std.specs.Prelude.{◌≡◌, ◌≤◌, length};
ghost use Rattle.std.specs.List.{prefix_len};
ghost use Rattle.pd_lex.specs.Text.{is_space as is_space_byte};
ghost use Rattle.pd_feed.specs.Scan.{scan_of};

/// How a look for the semicolon that ends a record came out.
#[derive(Debug, Clone, Copy, PartialEq, Eq)]
pub enum Scan {
    /// It stands at this place.
    Found(usize),
    /// There is none yet. `escaped` says that the last byte is a backslash that takes the next one along.
    Ended { escaped: bool },
}

fn is_space(byte: u8) -> bool
    ensures { result ≡ is_space_byte byte }
{
    byte == b' ' || byte == b'\t' || byte == b'\n' || byte == b'\r'
}

/// How much white space comes first.
#[tactic(auto, using(crate::proofs::Steps::space_steps))]
pub fn spaces(bytes: &[u8]) -> usize
    ensures within { result ≤ length bytes.now }
    ensures value { result ≡ prefix_len is_space_byte bytes.now }
{
    for (i, byte) in bytes.iter().enumerate() {
        if !is_space(*byte) {
            return i;
        }
    }
    bytes.len()
}

/// Looks for the semicolon in bytes whose first one a backslash before them takes along, or doesn't.
#[tactic(auto, using(crate::proofs::Steps::scan_steps))]
pub fn find_semicolon(bytes: &[u8], escaped: bool) -> Scan
    ensures { result ≡ scan_of escaped bytes.now }
{
    let mut escaped = escaped;
    for (i, byte) in bytes.iter().enumerate() {
        if !escaped && *byte == b';' {
            return Scan::Found(i);
        }
        escaped = !escaped && *byte == b'\\';
    }
    Scan::Ended { escaped }
}
