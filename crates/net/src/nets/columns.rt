// Writing a place's cells into a table that lies by style.
ghost use Rattle.std.specs.Prelude.{◌≡◌, ◌*◌, ◌<◌, length};
ghost use Rattle.net.specs.Columns.{ColumnWritten};

// Writes one value to each row of a table with rows of `width`, all in one column.
pub(super) fn write_column<T: Copy>(table: &mut [T], width: usize, column: usize, values: &[T])
    requires within_a_row { column < width }
    requires a_row_for_each_value { length table.old ≡ length values.now * width }
    ensures only_the_column_changes { ColumnWritten table.old width column values.now (length values.now) table.new }
    ensures as_long_as_before { length table.new ≡ length table.old }
{
    for (row, value) in values.iter().enumerate() {
        table[row * width + column] = *value;
    }
}
