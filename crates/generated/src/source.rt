// Where everything is drawn.
use crate::damage::Damage;
use crate::dice::Dice;
use crate::falsehood::Falsehood;
use crate::plan::Plan;
use crate::slip::Slip;
use crate::spacing::respaced;
use reference::{Arithmetic, Ask, Element, Game, Move, Sheet, Standing};
use std::alloc::{AllocError, Global};

/// Where everything is drawn: the memory that it takes, the field in plain numbers, and the dice.
#[derive(Drop)]
pub struct Source {
    /// Where vectors are made.
    pub heap: Global,
    /// The field in plain numbers.
    pub field: Arithmetic,
    /// The dice.
    pub dice: Dice,
}

impl Source {
    /// A source of a seed, over the residues modulo 65,537.
    pub fn new(heap: Global, seed: u64) -> Source {
        Source {
            heap,
            field: Arithmetic::MOD_65537,
            dice: Dice::new(seed),
        }
    }

    /// From here on everything is drawn over this field.
    pub fn set_field(&mut self, field: Arithmetic) {
        self.field = field;
    }

    /// The reference's game that stands so.
    pub fn game(&self, at: Standing) -> Game {
        Game {
            heap: self.heap,
            field: self.field,
            at,
        }
    }

    /// Any element.
    pub fn any_element(&mut self) -> Element {
        self.dice.element(self.field)
    }

    /// So many elements, for banks and trays.
    pub fn any_elements(&mut self, n: u64) -> Result<Vec<Element>, AllocError> {
        let field = self.field;
        let dice = &mut self.dice;
        (0..n).map(|_| dice.element(field)).collect(self.heap)
    }

    /// So many counts, for banks.
    pub fn any_counts(&mut self, n: u64) -> Result<Vec<i64>, AllocError> {
        let dice = &mut self.dice;
        (0..n)
            .map(|_| dice.between(-100_000, 100_000))
            .collect(self.heap)
    }

    /// So many bytes, for papers.
    pub fn any_bytes(&mut self, n: u64) -> Result<Vec<u8>, AllocError> {
        let dice = &mut self.dice;
        (0..n).map(|_| (dice.next() & 255) as u8).collect(self.heap)
    }

    /// A secret point for a board of so many rows: often a small number, as a row's.
    pub fn any_point(&mut self, rows: u64) -> Element {
        if self.dice.one_in(2) {
            Element::whole(self.dice.below(rows.saturating_mul(2)))
        } else {
            self.any_element()
        }
    }

    /// A game on a small board; in some the banks are one cell too short.
    pub fn any_plan(&mut self) -> Plan {
        let dice = &mut self.dice;
        let rows = dice.below(6);
        let columns = dice.below(3);
        Plan {
            rows: rows.saturating_add(1),
            columns: columns.saturating_add(1).saturating_mul(8),
            spare: dice.between(-1, 3),
            moves: dice.below(40),
            questions: 5,
            sheets: 3,
        }
    }

    /// A move on a board of so many cells, mostly one that counts.
    pub fn any_move(&mut self, cells: u64) -> Move {
        let dice = &mut self.dice;
        let cell = match dice.below(12) {
            0 => cells.saturating_add(dice.below(3)),
            1 => dice.next(),
            _ => dice.below(cells),
        };
        let amount = match dice.below(12) {
            0 => 0,
            1 => dice.between(255, 258),
            2 => dice.between(-258, -255),
            3 => i64::MIN,
            4 => dice.between(-256, 256),
            _ => dice.between(-5, 5),
        };
        Move { cell, amount }
    }

    // A degree around those that suit a board of so many rows.
    fn any_degree(&mut self, rows: u64) -> u64 {
        match self.dice.below(4) {
            0 => rows.saturating_sub(2),
            1 => rows.saturating_sub(1),
            2 => self.dice.below(8).saturating_add(250),
            _ => u64::from(u32::MAX),
        }
    }

    /// A question for a board, mostly one that fits.
    pub fn any_ask(&mut self, at: Standing) -> Ask {
        let dice = &mut self.dice;
        let cells = at.cells().saturating_add(dice.below(2));
        match dice.below(9) {
            0 | 1 => Ask::Cell(dice.below(cells)),
            2 | 3 => Ask::Goods(dice.below(9)),
            4 => {
                let one = dice.below(cells);
                let other = dice.below(cells);
                Ask::Range(one.min(other), one.max(other))
            }
            5 => Ask::Range(dice.below(cells), dice.below(cells)),
            6 | 7 => Ask::Squares,
            _ => Ask::Stated(self.any_degree(at.rows)),
        }
    }

    // A number that is the field's, a grid's or near them.
    fn odd_number(&mut self) -> i64 {
        let p = i64::try_from(self.field.p).unwrap_or(0);
        let limit = i64::try_from(self.field.limit).unwrap_or(0);
        let dice = &mut self.dice;
        match dice.below(6) {
            0 => p.wrapping_sub(dice.between(0, 1)),
            1 => limit.wrapping_add(dice.between(0, 1)),
            2 => dice.between(-3, 3),
            3 => dice.between(0, 70),
            4 => dice.between(-300, 300),
            _ => dice.between(0, p),
        }
    }

    // One thing that may be wrong with a sheet.
    fn any_damage(&mut self) -> Damage {
        let byte = self.dice.one_of(Damage::BYTES, b'?');
        match self.dice.below(8) {
            0 => Damage::CutOff,
            1 => Damage::ByteRemoved,
            2 => Damage::ByteInserted(byte),
            3 => Damage::ByteReplaced(byte),
            4 => Damage::ByteAppended(byte),
            5 => Damage::RunReplaced(self.dice.one_of(&Damage::RUNS, "-")),
            _ => Damage::NumberReplaced(self.odd_number()),
        }
    }

    /// A sheet with one thing wrong, anywhere.
    pub fn damaged(&mut self, sheet: &[u8]) -> Result<Vec<u8>, AllocError> {
        let at = self.dice.below(sheet.len() as u64) as usize;
        let damage = self.any_damage();
        damage.applied(self.heap, sheet, at)
    }

    /// A sheet with more spaces and zeros here and there, which says the same as long as no number grows past ten
    /// digits.
    pub fn respaced(&mut self, sheet: &[u8]) -> Result<Vec<u8>, AllocError> {
        respaced(self.heap, &mut self.dice, sheet)
    }

    // Something else than what so many values say.
    fn any_falsehood(&mut self, values: u64) -> Falsehood {
        let p = i64::try_from(self.field.p).unwrap_or(0);
        let by = self.dice.between(-3, 3);
        let place = self.dice.below(values) as usize;
        let value = self.any_element();
        match self.dice.below(6) {
            0 => Falsehood::Claim(by),
            1 => Falsehood::Claim(p.wrapping_mul(by)),
            2 => Falsehood::Value { place, value },
            3 => Falsehood::ClaimAndFirst(by),
            _ => Falsehood::Slipped(Slip {
                factor: by,
                root: self.dice.between(0, i64::try_from(values).unwrap_or(0)),
            }),
        }
    }

    /// What another sheet says, near the honest one.
    pub fn falsified(&mut self, at: Standing, honest: &Sheet) -> Result<Sheet, AllocError> {
        let falsehood = self.any_falsehood(honest.values.len() as u64);
        falsehood.told(self.heap, self.field, at.rows, honest)
    }
}
