ghost use Rattle.std.specs.Prelude.{◌≡◌, ◌↔◌, IsTrue};
ghost use Rattle.std.specs.List.{list_all};
ghost use Rattle.std.specs.Option.{SomeIff};
ghost use Rattle.rw_types.specs.Names.{IsName, is_name_byte};

use bounded_list::List;
use std::marker::Model;

/// The name of a module, an import or an export: 1 to 64 bytes, each `a` to `z`, `0` to `9` or `_`.
/// Contracts see it as the list of its bytes; this project's own.
#[derive(Debug, Drop)]
pub struct Name {
    bytes: List<u8>,
}

impl Model for Name {
    ghost use Rattle.std.specs.Prelude.{List, ℕ};
    ghost use Rattle.std.specs.Coded.{coded_list, coded_ℕ};
    ghost use Rattle.rw_types.specs.Names.{IsName};

    ghost Value = { List ℕ };

    ghost coded = { coded_list coded_ℕ };

    ghost view = { λ n. n.bytes };

    ghost invariant = { λ n. IsName n.bytes };
}

impl Name {
    /// The most bytes that a name can have.
    pub const MAX_LEN: usize = 64;

    /// The name of these bytes; `None` where they are no name.
    pub fn new(bytes: List<u8>) -> Option<Name>
        ensures { SomeIff result (IsName bytes) bytes }
    {
        if !is_name(bytes.as_slice()) {
            return None;
        }
        Some(Name { bytes })
    }

    /// The bytes of the name.
    pub fn as_slice(&self) -> &[u8]
        ensures value { result.now ≡ self.now }
        ensures form { IsName result.now }
    {
        self.bytes.as_slice()
    }
}

/// Whether these bytes are a name.
pub fn is_name(bytes: &[u8]) -> bool
    ensures { IsTrue result ↔ IsName bytes.now }
{
    !bytes.is_empty() && bytes.len() <= Name::MAX_LEN && has_name_bytes(bytes)
}

fn has_name_bytes(bytes: &[u8]) -> bool
    ensures { result ≡ list_all is_name_byte bytes.now }
{
    bytes.iter().all(|byte| byte.is_ascii_lowercase() || byte.is_ascii_digit() || *byte == b'_')
}
