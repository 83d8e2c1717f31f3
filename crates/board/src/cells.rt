// Cells in rows of one length.
ghost use Rattle.std.specs.Prelude.{◌≡◌, ◌+◌, ◌*◌, ◌<◌, ◌≤◌, length, slice_set};

// Writes the cell in row i and column j, which is known to be there: no test is made, unlike in `job::put`. (A join writes two for each other id.)
pub(crate) fn put<T: Copy>(cells: &mut [T], width: usize, i: usize, j: usize, value: T)
    requires { (width * width ≤ length cells.old) × ((i < width) × (j < width)) }
    ensures { cells.new ≡ slice_set cells.old (i * width + j) value }
{
    cells[i * width + j] = value;
}
