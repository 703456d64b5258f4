// A log's window, HED and entries, and number 3.
ghost use Rattle.std.specs.Prelude.{◌≡◌, map, IfSome, is_some};
ghost use Rattle.std.specs.List.{list_all};
ghost use Rattle.outages.specs.Log.{window_of, hed_of, entry_of, entries_of, whole, entry_in_range, figures_in_range};

use quantities::{GREATEST_MINUTES, LAST_MINUTE, MOST_ENTRIES};

// The kinds of an entry.
const PLANNED: u32 = 1;

pub(crate) const FORCED: u32 = 2;

// A time from a minute to another, which is not included.
#[derive(Clone, Copy, Debug, PartialEq, Eq)]
pub(crate) struct Window {
    pub start: u32,
    pub end: u32,
}

// An outage. Its kind is a number: a log may hold any, and is refused where one is neither.
#[derive(Clone, Copy, Debug, PartialEq, Eq)]
pub(crate) struct Entry {
    pub start: u32,
    pub end: u32,
    pub kind: u32,
}

// A log as it is lent: its entries stay nine bytes each, since the library has no heap.
#[derive(Clone, Copy, Debug, PartialEq, Eq)]
pub(crate) struct Log<'a> {
    pub window: Window,
    pub hed: u32,
    pub entries: &'a [[u8; 9]],
}

// The log of these bytes; none where their length is not 12 + 9·n.
pub(crate) fn log_of(bytes: &[u8]) -> Option<Log<'_>>
    ensures found { is_some result ≡ whole bytes.now }
    ensures parts { IfSome result (λ log. (log.window ≡ window_of bytes.now) × (log.hed ≡ hed_of bytes.now) × (map (λ e. entry_of e) log.entries.now ≡ entries_of bytes.now)) }
{
    let (head, behind) = bytes.split_first_chunk::<12>()?;
    let (entries, rest) = behind.as_chunks::<9>();
    if !rest.is_empty() {
        return None;
    }
    let [a, b, c, d, e, f, g, h, i, j, k, l] = *head;
    Some(Log {
        window: Window {
            start: u32::from_le_bytes([a, b, c, d]),
            end: u32::from_le_bytes([e, f, g, h]),
        },
        hed: u32::from_le_bytes([i, j, k, l]),
        entries,
    })
}

// The entry of these bytes.
#[tactic(auto, using(crate::proofs::Reading::entry_read))]
pub(crate) fn entry_of(bytes: &[u8; 9]) -> Entry
    ensures { result ≡ entry_of bytes.now }
{
    let [a, b, c, d, e, f, g, h, kind] = *bytes;
    Entry {
        start: u32::from_le_bytes([a, b, c, d]),
        end: u32::from_le_bytes([e, f, g, h]),
        kind: kind.into(),
    }
}

// Each figure of an entry is in range.
fn entry_in_range(entry: Entry) -> bool
    ensures { result ≡ entry_in_range entry }
{
    entry.start <= LAST_MINUTE
        && entry.end <= LAST_MINUTE
        && PLANNED <= entry.kind
        && entry.kind <= FORCED
}

// Each figure of each entry is in range.
fn entries_in_range(entries: &[[u8; 9]]) -> bool
    ensures { result ≡ list_all (λ e. entry_in_range e) (map (λ e. entry_of e) entries.now) }
{
    entries.iter().all(|bytes| entry_in_range(entry_of(bytes)))
}

// Each figure of a log is in range, and it has no more entries than a log may have.
pub(crate) fn log_in_range(log: Log<'_>) -> bool
    ensures { result ≡ figures_in_range log.entry.window log.entry.hed (map (λ e. entry_of e) log.entry.entries.now) }
{
    log.window.start <= LAST_MINUTE
        && log.window.end <= LAST_MINUTE
        && log.hed <= GREATEST_MINUTES
        && log.entries.len() <= MOST_ENTRIES
        && entries_in_range(log.entries)
}
