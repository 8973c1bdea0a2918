// The fields that there are.
use crate::element::Shown;
use crate::field_words::FieldWords;
use field::Field;
use fields::{Mod65537x2, NamedField};
use std::io;

// A named field: its numbers, and the limit of the weight of all moves.
fn print_field(rt: &impl Print, field: NamedField) -> io::Result<()> {
    let words = FieldWords(field);
    let p = field.characteristic();
    let e = field.degree();
    let limit = field.limit();
    print!(rt; "  {words}: p = {p}, e = {e}")?;
    if e == 2 {
        print!(rt; ", t x t = {}", field.non_square())?;
    }
    println!(rt; "; all moves together weigh no more than {limit}")
}

// The element 2 + 3 t of the extension of the residues modulo 65,537, its square, and its inverse.
fn print_example(rt: &impl Print) -> io::Result<()> {
    let x = Mod65537x2::element(2, 3).unwrap_or(Mod65537x2::zero());
    println!(rt; "In the field of {}", FieldWords(NamedField::Mod65537x2))?;
    println!(rt; "  x = {}", Shown(x))?;
    println!(rt; "  x times x = {}", Shown(x * x))?;
    if let Some(inverse) = x.inverse() {
        println!(rt; "  1 over x = {}", Shown(inverse))?;
        println!(rt; "  x times (1 over x) = {}", Shown(x * inverse))?;
    }
    Ok(())
}

/// Prints every named field, and an example of what is computed in one.
pub fn print(rt: &impl Print) -> io::Result<()> {
    println!(rt; "The fields")?;
    for field in NamedField::ALL {
        print_field(rt, field)?;
    }
    print_example(rt)
}
