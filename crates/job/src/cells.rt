// Cells in rows of one length.
ghost use Rattle.std.specs.Prelude.{◌≡◌, ◌+◌, ◌-◌, ◌*◌, ◌^◌, ◌<◌, length, min, slice_get, slice_index_or, slice_set};

// Where the cell in row i and column j stands, of which nothing is known. Where that is above the largest `usize` it is that one, and no cell stands there.
fn place(width: usize, i: usize, j: usize) -> usize
    ensures { result ≡ min (i * width + j) (2 ^ 64 - 1) }
{
    i.saturating_mul(width).saturating_add(j)
}

// The cell in row i and column j, if it is there.
pub fn cell<T: Copy>(cells: &[T], width: usize, i: usize, j: usize) -> Option<T>
    ensures { result ≡ slice_get cells.now (i * width + j) }
{
    cells.get(place(width, i, j)).copied()
}

// The cell in row i and column j of a square that is known to have it: no test is made. (A job's check and its cost read each cell so.)
pub(crate) fn there<T: Copy>(cells: &[T], width: usize, i: usize, j: usize) -> T
    requires { (length cells.now ≡ width * width) × ((i < width) × (j < width)) }
    ensures { (d : T) → result ≡ slice_index_or cells.now (i * width + j) d }
{
    cells[i * width + j]
}

// Writes the cell in row i and column j, if it is there.
pub fn put<T: Copy>(cells: &mut [T], width: usize, i: usize, j: usize, value: T)
    ensures { cells.new ≡ slice_set cells.old (i * width + j) value }
{
    let place = place(width, i, j);
    if place < cells.len() {
        cells[place] = value;
    }
}
