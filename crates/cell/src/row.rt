// A row of cells that its owner lends, ticked where it lies.
ghost use Rattle.std.specs.Prelude.{◌≡◌};
ghost use Rattle.cell.specs.Rows.{ticked_row};

use crate::Cell;

// Ticks every cell of the row, of any length and content.
pub fn tick_row(row: &mut [Cell])
    ensures { row.new ≡ ticked_row row.old }
{
    for cell in row {
        *cell = cell.tick();
    }
}
