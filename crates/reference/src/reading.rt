// Reading a sheet.
use crate::ask::Ask;
use crate::element::Element;
use crate::fault::Fault;
use crate::front::{fill_front, put_front};
use crate::game::Game;
use crate::piece::{Piece, pieces_of};
use crate::position::Position;
use crate::refusal::Refusal;
use crate::sheet::Sheet;
use crate::stop::Stop;
use crate::want::Want;
use std::alloc::{AllocError, Global};

// Holds the pieces to what is wanted, and keeps the numbers that are to be kept.
fn kept_numbers(heap: Global, wants: &[Want], pieces: &[Piece<'_>]) -> Result<Vec<i64>, Stop> {
    let mut kept = Vec::new(heap);
    for (want, piece) in wants.iter().zip(pieces) {
        match want.kept(piece) {
            Ok(Some(number)) => kept.push(number)?,
            Ok(None) => {}
            Err(fault) => return Err(Stop::from(Refusal::Sheet(fault, piece.at))),
        }
    }
    Ok(kept)
}

// The elements of parts, low and high in turn.
fn elements(heap: Global, parts: &[i64]) -> Result<Vec<Element>, AllocError> {
    parts
        .chunks_exact(2)
        .map(|pair| Element {
            low: pair[0].unsigned_abs(),
            high: pair[1].unsigned_abs(),
        })
        .collect(heap)
}

impl Game {
    /// Reads a sheet for a question, or tells its first fault.
    pub fn read_sheet(self, ask: Ask, sheet: &[u8]) -> Result<Sheet, Stop> {
        let wants = self.wants(ask)?;
        let pieces = pieces_of(self.heap, sheet)?;
        let kept = kept_numbers(self.heap, wants.as_slice(), pieces.as_slice())?;
        let Some((claim, parts)) = kept.as_slice().split_first() else {
            return Err(Stop::from(Refusal::Sheet(Fault::Unexpected, Position::START)));
        };
        Ok(Sheet {
            claim: *claim,
            values: elements(self.heap, parts)?,
        })
    }

    // Puts zeros into a tray's front, where a sheet's values go.
    pub(crate) fn clear_tray(self, ask: Ask, tray: &mut [Element]) -> Result<(), Refusal> {
        fill_front(tray, ask.size(self.at), Element::ZERO).ok_or(Refusal::TrayShort)
    }

    /// Reads a sheet into the front of a tray: the claim. Refused with 21, and nothing changes; then with the sheet's
    /// first fault, and zeros stand there.
    pub fn read_into(self, ask: Ask, sheet: &[u8], tray: &mut [Element]) -> Result<i64, Stop> {
        self.clear_tray(ask, tray)?;
        let read = self.read_sheet(ask, sheet)?;
        put_front(tray, read.values.as_slice());
        Ok(read.claim)
    }
}
