// What is written through a table stands in the lent row once the table has gone.
ghost use Rattle.std.specs.Prelude.{◌≡◌, ◌<◌, length, slice_set};

use stores::{Store, Table};

fn write_through(row: &mut [i32], item: usize, value: i32)
    ensures { item < length row.old → row.new ≡ slice_set row.old item value }
{
    let mut table = Table::<i32>::open(row);
    let _ = table.write(item, value);
}

#[test]
fn a_lent_row_comes_back(rt: HostRuntime) {
    let mut row = [1, 2, 3];
    write_through(&mut row, 1, 7);
    write_through(&mut row, 3, 9);
    assert_eq!(rt; row, [1, 7, 3]);
}
