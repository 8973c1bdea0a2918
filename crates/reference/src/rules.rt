// The rules of the questions, straight from their words.
use crate::ask::Ask;
use crate::element::Element;
use crate::game::Game;
use crate::numbers::GOODS;
use std::alloc::AllocError;

impl Game {
    /// The element that a question's rule gives at a point, from the columns there.
    pub fn rule(
        self,
        ask: Ask,
        point: Element,
        columns: &[Element],
    ) -> Result<Element, AllocError> {
        match ask {
            Ask::Cell(cell) => self.cells_rule(cell, cell, point, columns),
            Ask::Goods(goods) => Ok(self.goods_rule(goods, columns)),
            Ask::Range(first, last) => self.cells_rule(first, last, point, columns),
            Ask::Squares => Ok(self.squares_rule(columns)),
            Ask::Stated(_) => Ok(Element::ZERO),
        }
    }

    // The sum of χ_x(X) × c_y over the cells from first to last.
    fn cells_rule(
        self,
        first: u64,
        last: u64,
        point: Element,
        columns: &[Element],
    ) -> Result<Element, AllocError> {
        let basis = self.basis(point)?;
        let sum = (first..=last).fold(Element::ZERO, |all, cell| {
            let (x, y) = self.at.place(cell);
            let weight = basis.get(x).copied().unwrap_or(Element::ZERO);
            let column = columns.get(y).copied().unwrap_or(Element::ZERO);
            self.field.sum(all, self.field.product(weight, column))
        });
        Ok(sum)
    }

    // The sum of the columns of the goods.
    fn goods_rule(self, goods: u64, columns: &[Element]) -> Element {
        columns
            .iter()
            .enumerate()
            .filter(|(y, _)| *y as u64 % GOODS == goods)
            .fold(Element::ZERO, |all, (_, column)| {
                self.field.sum(all, *column)
            })
    }

    // The sum of the squares of the columns.
    fn squares_rule(self, columns: &[Element]) -> Element {
        columns.iter().fold(
            Element::ZERO,
            |all, column| self.field.sum(all, self.field.product(*column, *column)),
        )
    }
}
