//! This season's four questions, what they mean and that they are lawful:
//! one cell, one of the goods, a range of cells, the squares.
#![tactic(auto)]

mod cell;
mod cells;
mod goods;
mod limits;
mod range;
mod season;
mod squares;

pub use cell::{Cell, cell_is_lawful};
pub use cells::distinct_cells_are_lawful;
pub use goods::{Goods, goods_are_lawful};
pub use range::{Range, range_is_lawful};
pub use season::{Season, season_is_lawful, tags_name_questions};
pub use squares::{Squares, squares_are_lawful};
