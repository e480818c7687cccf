// The rows and columns of a grid, within the limits that its layout needs.
ghost use Rattle.std.specs.Prelude.{◌*◌, ◌≤◌};

#[derive(Clone, Copy)]
pub struct GridChip {
    pub(crate) rows: usize,
    pub(crate) columns: usize,
    ghost some_row: { 1 ≤ rows },
    ghost some_column: { 1 ≤ columns },
    ghost at_most_64: { rows * columns ≤ 64 },
}
