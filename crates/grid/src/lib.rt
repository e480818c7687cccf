// A chip whose places stand in rows and columns, each joined to its neighbours.
#![tactic(auto)]

ghost use Rattle.std.specs.Prelude.{◌≡◌};
ghost use Rattle.chip.specs.Answers.{answered};
ghost use Rattle.grid.specs.Grid.{grid_fault, grid_layout, grid_couplers, grid_ends, grid_coupler_fault};
ghost use Rattle.grid.specs.Chips.{layout_of, layout_in};
ghost use Rattle.grid.specs.Couplers.{grid_sound};

pub mod store;

use chip::Chip;
use chip::fault::ChipFault;
pub use store::GridChip;

impl GridChip {
    // A grid of 1 to 64 rows and 1 to 64 columns, with at most 64 places.
    pub fn new(rows: usize, columns: usize) -> Result<GridChip, ChipFault>
        ensures { layout_in result ≡ answered (grid_fault rows columns) (grid_layout rows columns) }
    {
        if rows == 0 || rows > 64 || columns == 0 || columns > 64 || rows * columns > 64 {
            return Err(ChipFault::SizeOffLimits);
        }
        Ok(GridChip { rows, columns })
    }

    // How many couplers there are. This and `ends_of` go by rows and columns; the proofs of the chip's calls tie them to the layout.
    // So a wrong count and wrong ends are refused at the source.
    fn count(&self) -> usize
        ensures { result ≡ grid_couplers self.now.rows self.now.columns }
    {
        self.rows * (self.columns - 1) + (self.rows - 1) * self.columns
    }

    // The two places that coupler k joins.
    fn ends_of(&self, k: usize) -> Result<(usize, usize), ChipFault>
        ensures { result ≡ answered (grid_coupler_fault self.now.rows self.now.columns k) (grid_ends self.now.rows self.now.columns k) }
    {
        if k >= self.count() {
            return Err(ChipFault::NoSuchCoupler);
        }
        let rightward = self.rows * (self.columns - 1);
        if k < rightward {
            let row = k / (self.columns - 1);
            let column = k % (self.columns - 1);
            let left = row * self.columns + column;
            Ok((left, left + 1))
        } else {
            let upper = k - rightward;
            Ok((upper, upper + self.columns))
        }
    }
}

impl Chip for GridChip {
    ghost layout = { layout_of };

    ghost sound = { λ c. grid_sound c.rows c.columns c.some_row c.some_column c.at_most_64 };

    fn width(&self) -> usize {
        self.rows * self.columns
    }

    fn couplers(&self) -> usize {
        self.count()
    }

    fn ends(&self, k: usize) -> Result<(usize, usize), ChipFault> {
        self.ends_of(k)
    }
}
