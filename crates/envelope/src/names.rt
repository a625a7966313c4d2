//! The names of hosts, domains, users and folders: which bytes spell one. Nothing here knows a directory.

ghost use Rattle.std.specs.Prelude.{◌≡◌};
ghost use Rattle.std.specs.List.{list_all};
ghost use Rattle.envelope.specs.Names.{has_length, is_name, is_name_byte, is_user, is_user_byte, is_folder, is_folder_byte};

fn has_length(least: usize, most: usize, name: &[u8]) -> bool
    ensures { result ≡ has_length least most name.now }
{
    least <= name.len() && name.len() <= most
}

fn is_name_byte(b: u8) -> bool
    ensures { result ≡ is_name_byte b }
{
    matches!(b, b'0'..=b'9' | b'A'..=b'Z' | b'a'..=b'z' | b'-' | b'.')
}

fn are_name_bytes(bytes: &[u8]) -> bool
    ensures { result ≡ list_all is_name_byte bytes.now }
{
    bytes.iter().all(|b| is_name_byte(*b))
}

/// Whether the bytes are the name of a host or a domain: 1 to 255 letters, digits, `-` and `.`.
pub fn is_name(name: &[u8]) -> bool
    ensures { result ≡ is_name name.now }
{
    has_length(1, 255, name) && are_name_bytes(name)
}

fn is_user_byte(b: u8) -> bool
    ensures { result ≡ is_user_byte b }
{
    matches!(b, b'a'..=b'z' | b'0'..=b'9' | b'.' | b'_' | b'-')
}

fn are_user_bytes(bytes: &[u8]) -> bool
    ensures { result ≡ list_all is_user_byte bytes.now }
{
    bytes.iter().all(|b| is_user_byte(*b))
}

/// Whether the bytes are the name of a user: 1 to 64 of `a` to `z`, digits, `.`, `_` and `-`.
pub fn is_user(name: &[u8]) -> bool
    ensures { result ≡ is_user name.now }
{
    has_length(1, 64, name) && are_user_bytes(name)
}

fn is_folder_byte(b: u8) -> bool
    ensures { result ≡ is_folder_byte b }
{
    matches!(b, b'0'..=b'9' | b'A'..=b'Z' | b'a'..=b'z' | b'_' | b'-')
}

fn are_folder_bytes(bytes: &[u8]) -> bool
    ensures { result ≡ list_all is_folder_byte bytes.now }
{
    bytes.iter().all(|b| is_folder_byte(*b))
}

/// Whether the bytes are the name of a folder: 1 to 64 letters, digits, `_` and `-`, and no
/// spelling of INBOX, which is the folder that each user has.
pub fn is_folder(name: &[u8]) -> bool
    ensures { result ≡ is_folder name.now }
{
    has_length(1, 64, name) && are_folder_bytes(name) && !name.eq_ignore_ascii_case(b"INBOX")
}
