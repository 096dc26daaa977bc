// Whether a tape of n items opens over a row.
ghost use Rattle.std.specs.Prelude.{◌≤◌, length, MatchOption, MatchResult};
ghost use Rattle.stores.specs.Tapes.{Begins, FirstWrong, Opens, RefusedRow};

use crate::tape::entry::Entry;
use refusals::{Reason, Refusal};

// A room is at most this, so a tape need not be longer.
pub(super) const LONGEST_ROW: usize = 65_535;

// A for, since over position the proof is ten times as long.
fn first_wrong<R>(row: &[Entry<R>], n: usize) -> Option<usize>
    requires { n ≤ length row.now }
    ensures { MatchOption result (Begins n row.now) (FirstWrong n row.now) }
{
    for (k, entry) in row[..n].iter().enumerate() {
        if usize::from(entry.item) != k {
            return Some(k);
        }
    }
    None
}

pub(super) fn check_row<R>(row: &[Entry<R>], n: usize) -> Result<(), Refusal>
    ensures { MatchResult result (λ _. Opens n row.now) (RefusedRow n row.now) }
{
    if row.len() < n || row.len() > LONGEST_ROW {
        return Err(Reason::BadTapeRow.at(0));
    }
    match first_wrong(row, n) {
        Some(place) => Err(Reason::BadTapeRow.at(place)),
        None => Ok(()),
    }
}
