// The four fields, one after the other.
use crate::rounds::play_field;
use anyhow::anyhow;
use field::Field;
use fields::{FieldTask, with_field};
use reference::{Arithmetic, Stop};
use report::Table;

// Everything that is played over one field.
#[derive(Drop)]
struct Everything<'a> {
    table: &'a mut Table,
}

impl<'a> FieldTask for Everything<'a> {
    type Out = Result<(), Stop>;

    fn run<F: Field>(self) -> Result<(), Stop> {
        play_field::<F>(self.table)
    }
}

/// Plays everything over each base field and over its extension.
pub fn play_all(table: &mut Table) -> anyhow::Result<()> {
    for base in [Arithmetic::MOD_65537, Arithmetic::MERSENNE_31] {
        for field in [base, base.extended()] {
            table.source.set_field(field);
            let p = u32::try_from(field.p)?;
            let e = u32::try_from(field.e)?;
            let played = with_field(p, e, Everything { table: &mut *table })?;
            played.map_err(|_| anyhow!("no memory for a game"))?;
        }
    }
    Ok(())
}
