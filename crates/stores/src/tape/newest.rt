// The newest entry of an item.
ghost use Rattle.std.specs.Prelude.{◌≡◌, ◌==◌, find, reverse, option_copied};

use crate::tape::entry::Entry;

pub(super) fn newest<R>(entries: &[Entry<R>], item: usize) -> Option<&Entry<R>>
    ensures { option_copied result ≡ find (λ e. e.item == item) (reverse entries.now) }
{
    entries
        .iter()
        .rev()
        .find(|entry| usize::from(entry.item) == item)
}
