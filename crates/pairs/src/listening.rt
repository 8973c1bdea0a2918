// Both ends of a game while they listen.
use crate::hosts::HostPair;
use crate::verifiers::VerifierPair;
use field::Field;
use reference::{Element, Move};
use report::{Outcome, Table};
use std::alloc::AllocError;

/// Two hosts and two boxes, told the same.
#[derive(Drop)]
pub struct Listening<F: Field> {
    /// The hosts.
    pub host: HostPair<F>,
    /// The boxes.
    pub verifier: VerifierPair<F>,
}

impl<F: Field> Listening<F> {
    /// Opens all on a board, the boxes at a secret point, over banks of this content; nothing where one refuses.
    pub fn open(
        table: &mut Table,
        rows: u64,
        columns: u64,
        point: Element,
        counts: Vec<i64>,
        sums: Vec<Element>,
    ) -> Result<Option<Listening<F>>, AllocError> {
        let heap = table.source.heap;
        let own_counts = HostPair::<F>::cells_of(heap, counts.as_slice())?;
        let own_sums = VerifierPair::<F>::cells_of(heap, sums.as_slice())?;
        let host = HostPair::open(table, rows, columns, (), own_counts, counts);
        let verifier = VerifierPair::open(table, rows, columns, point, own_sums, sums);
        Ok(
            host.zip(verifier)
                .map(|(host, verifier)| Listening { host, verifier }),
        )
    }

    /// Tells all a move: what the calls of the product's host and box came to.
    pub fn note(&mut self, table: &mut Table, m: Move) -> (Outcome<()>, Outcome<()>) {
        let at_host = self.host.note(table, m);
        let at_verifier = self.verifier.note(table, m);
        (at_host, at_verifier)
    }
}
