// Rows that move up and down.
ghost use Rattle.std.specs.Prelude.{◌≡◌, ◌+◌, ◌-◌, ◌<◌, ◌≤◌, length, take};
ghost use Rattle.std.specs.List.{insert, remove};
ghost use Rattle.stores.specs.Ranks.{memory_with};

use network::types::Link;

// Writes a link at a row; the rows from there on, of the first `used`, move up by one before.
pub(super) fn insert_row(rows: &mut [Link], used: usize, row: usize, link: Link)
    requires { (row ≤ used) × (used < length rows.old) }
    ensures book { take (used + 1) rows.new ≡ insert (take used rows.old) row link }
    ensures memory { rows.new ≡ memory_with (take (used + 1) rows.new) rows.old }
    ensures len { length rows.new ≡ length rows.old }
{
    rows.copy_within(row..used, row + 1);
    rows[row] = link;
}

// Takes a row out; the rows behind it, of the first `used`, move down by one.
pub(super) fn remove_row(rows: &mut [Link], used: usize, row: usize)
    requires { (row < used) × (used ≤ length rows.old) }
    ensures book { take (used - 1) rows.new ≡ remove (take used rows.old) row }
    ensures memory { rows.new ≡ memory_with (take (used - 1) rows.new) rows.old }
    ensures len { length rows.new ≡ length rows.old }
{
    rows.copy_within(row + 1..used, row);
}
