// Where games are played.
use crate::report::Report;
use generated::Source;
use std::alloc::Global;

/// Where everything is drawn, and the report of what is compared.
#[derive(Drop)]
pub struct Table {
    /// Where everything is drawn.
    pub source: Source,
    /// What was compared.
    pub report: Report,
}

impl Table {
    /// A table of a seed, over the residues modulo 65,537, with an empty report.
    pub fn new(heap: Global, seed: u64) -> Table {
        Table {
            source: Source::new(heap, seed),
            report: Report::new(heap),
        }
    }
}
