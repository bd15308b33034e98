ghost use Rattle.std.specs.Prelude.{◌≡◌};
ghost use Rattle.std.specs.List.{list_all};
ghost use Rattle.wb_base.specs.Names.{is_name, starts_name, is_name_start, is_name_byte};

/// Is this text a name? An ASCII letter or `_`, then letters, digits and `_`, at most 64 bytes.
#[tactic(auto, unfolding(crate::specs::Names::is_name))]
pub fn is_name(text: &str) -> bool
    ensures { result ≡ is_name text.now }
{
    let bytes = text.as_bytes();
    bytes.len() <= 64 && starts_name(bytes) && are_name_bytes(bytes)
}

fn starts_name(bytes: &[u8]) -> bool
    ensures { result ≡ starts_name bytes.now }
{
    !bytes.is_empty() && is_name_start(bytes[0])
}

fn are_name_bytes(bytes: &[u8]) -> bool
    ensures { result ≡ list_all is_name_byte bytes.now }
{
    bytes.iter().all(|byte| is_name_byte(*byte))
}

fn is_name_start(byte: u8) -> bool
    ensures { result ≡ is_name_start byte }
{
    byte.is_ascii_alphabetic() || byte == b'_'
}

fn is_name_byte(byte: u8) -> bool
    ensures { result ≡ is_name_byte byte }
{
    byte.is_ascii_alphanumeric() || byte == b'_'
}
