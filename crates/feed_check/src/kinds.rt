//! What bytes are checked as.

ghost use Rattle.std.specs.Prelude.{◌≡◌, IfOk, option_map};
ghost use Rattle.toml.specs.View.{table_view};
ghost use Rattle.desk_wedge.specs.Keys.{document};
ghost use Rattle.feed_check.specs.Kinds.{begins, has_key, kind_of, kind_of_members};

use desk_case::CaseKey;
use desk_memory::NoMemory;
use desk_wedge::{TableFault, WedgeKey, member, table};
use std::alloc::Global;
use toml::Table;

/// What a file is checked as.
#[derive(Clone, Copy, Debug, PartialEq, Eq)]
pub enum Kind {
    /// Its first four bytes are `MFD1` or `MFD2`.
    Feed,
    /// Its first four bytes are `MRB1`.
    Ribbon,
    /// It is TOML with the key `case` or `rows`.
    Case,
    /// It is TOML with neither of these, and with the key `wedge` or `units`.
    Wedge,
    /// It is none of these.
    Strange,
}

/// Whether bytes begin with a prefix.
fn begins(bytes: &[u8], prefix: &[u8]) -> bool
    ensures { result ≡ begins bytes.now prefix.now }
{
    bytes.starts_with(prefix)
}

/// Whether a document has a key of a name.
fn has_key(table: &Table, name: &str) -> bool
    ensures { result ≡ has_key (table_view table.now) name.now }
{
    member(table, name).is_some()
}

/// The kind of a document.
fn kind_of_table(table: &Table) -> Kind
    ensures { result ≡ kind_of_members (table_view table.now) }
{
    if has_key(table, CaseKey::Case.name()) || has_key(table, CaseKey::Rows.name()) {
        Kind::Case
    } else if has_key(table, WedgeKey::Wedge.name()) || has_key(table, WedgeKey::Units.name()) {
        Kind::Wedge
    } else {
        Kind::Strange
    }
}

/// The document that bytes are, if they are one. `toml` takes the global allocator alone.
pub fn document(global: Global, bytes: &[u8]) -> Result<Option<Table>, NoMemory>
    ensures { IfOk result (λ found. option_map (λ t. table_view t) found ≡ document bytes.now) }
{
    match table(global, bytes) {
        Ok(table) => Ok(Some(table)),
        Err(TableFault::NotToml) => Ok(None),
        Err(TableFault::NoMemory) => Err(NoMemory),
    }
}

/// The kind of bytes: a feed or a ribbon by the first four, else a case or a wedge by the keys of the document that
/// they are.
pub fn kind_of(global: Global, bytes: &[u8]) -> Result<Kind, NoMemory>
    ensures { IfOk result (λ kind. kind ≡ kind_of bytes.now) }
{
    if begins(bytes, b"MFD1") || begins(bytes, b"MFD2") {
        return Ok(Kind::Feed);
    }
    if begins(bytes, b"MRB1") {
        return Ok(Kind::Ribbon);
    }
    match document(global, bytes)? {
        Some(table) => Ok(kind_of_table(&table)),
        None => Ok(Kind::Strange),
    }
}
