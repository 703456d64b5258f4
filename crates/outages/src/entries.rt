// The order of a log's entries, and their minutes within its window.
ghost use Rattle.std.specs.Prelude.{◌≡◌, true, map, Some, None, eqb};
ghost use Rattle.std.specs.List.{list_all};
ghost use Rattle.basis.specs.Choice.{pick};
ghost use Rattle.outages.specs.Log.{forced, entry_of, entry_in_range, in_order, window_fits};
ghost use Rattle.outages.specs.Outages.{minutes_within, figures_of};

use crate::log::{Entry, FORCED, Log, Window, entry_of};
use power::Minutes;
use quantities::GREATEST_MINUTES;

// The window's end is after its start, and it is not too long.
pub(crate) fn window_fits(window: Window) -> bool
    ensures { result ≡ window_fits window }
{
    window.start < window.end && window.end - window.start <= GREATEST_MINUTES
}

// The minutes of an entry within the window.
fn minutes_within(window: Window, entry: Entry) -> u32
    ensures { result ≡ minutes_within window entry }
{
    let end = window.end.min(entry.end);
    let start = window.start.max(entry.start);
    end.saturating_sub(start)
}

// The minutes of a forced entry within the window; none of another.
fn forced_within(window: Window, entry: Entry) -> u32
    ensures { result ≡ pick (eqb entry.kind forced) (minutes_within window entry) 0 }
{
    if entry.kind == FORCED {
        minutes_within(window, entry)
    } else {
        0
    }
}

// The figures of a log in range whose window fits; none where an entry is out of order. The planned minutes are those of all entries less the
// forced ones: two tests of the kind took nearly twice as long.
pub(crate) fn figures_of(log: Log<'_>) -> Option<Minutes>
    requires window { window_fits log.window ≡ true }
    requires ranged { list_all (λ e. entry_in_range e) (map (λ e. entry_of e) log.entries.now) ≡ true }
    ensures { result ≡ pick (in_order 0 (map (λ e. entry_of e) log.entry.entries.now)) (Some (figures_of log.entry.window log.entry.hed (map (λ e. entry_of e) log.entry.entries.now))) None }
{
    let mut free = 0;
    let mut outages = 0;
    let mut forced = 0;
    for bytes in log.entries {
        let entry = entry_of(bytes);
        if entry.start < free || entry.end <= entry.start {
            return None;
        }
        outages += minutes_within(log.window, entry);
        forced += forced_within(log.window, entry);
        free = entry.end;
    }
    Some(Minutes {
        hd: log.window.end - log.window.start - outages,
        hmp: outages - forced,
        hif: forced,
        hed: log.hed,
    })
}
