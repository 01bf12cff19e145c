//! What the first bytes of a database tell of it (SQLite's file format, sections 1.3 and 1.6).
ghost use Rattle.std.specs.Prelude.{◌≡◌, ◌≤◌, ◌<◌, ◌+◌};
ghost use Rattle.acvp_causes.specs.Pages.{bytes_told, four_at, has_sums, has_tables, page_bytes, two_at};

/// As many bytes as are looked at: the header, and behind it that of the first page, which holds the tables' names.
pub(crate) const HEADER: usize = 108;

/// The two bytes at a place, the greatest first.
fn two_at(header: &[u8; HEADER], place: usize) -> u64
    requires { place + 2 ≤ 108 }
    ensures value { result ≡ two_at header.now place }
    ensures range { result < 65536 }
{
    u64::from(header[place]) * 256 + u64::from(header[place + 1])
}

/// The four bytes at a place.
fn four_at(header: &[u8; HEADER], place: usize) -> u64
    requires { place + 4 ≤ 108 }
    ensures value { result ≡ four_at header.now place }
    ensures range { result < 4294967296 }
{
    two_at(header, place) * 65536 + two_at(header, place + 2)
}

/// How many bytes a page has.
fn page_bytes(header: &[u8; HEADER]) -> u64
    ensures value { result ≡ page_bytes header.now }
    ensures range { result ≤ 65536 }
{
    let size = two_at(header, 16);
    if size == 1 { 65536 } else { size }
}

/// How many bytes the file is to have, where its header says so: its count of pages stands only for the change that it
/// was written with.
pub(crate) fn bytes_told(header: &[u8; HEADER]) -> Option<u64>
    ensures { result ≡ bytes_told header.now }
{
    let pages = four_at(header, 28);
    if four_at(header, 24) == four_at(header, 92) && pages > 0 {
        Some(page_bytes(header) * pages)
    } else {
        None
    }
}

/// Whether the first page has a row for a table, or pages below it.
pub(crate) fn has_tables(header: &[u8; HEADER]) -> bool
    ensures { result ≡ has_tables header.now }
{
    two_at(header, 103) > 0 || header[100] == 5
}

/// Whether each page ends in a sum of its bytes.
pub(crate) fn has_sums(header: &[u8; HEADER]) -> bool
    ensures { result ≡ has_sums header.now }
{
    header[20] == 8
}
