// The form on texts that were written by hand.
use super::*;
use refusal::{Fault, Refusal};
use std::test::*;
use writer::Pen;

#[test]
fn spaces_and_zeros_are_read(rt: HostRuntime) {
    let read = read_toy(b"( grid 007 )\n(at 3 -5)\n ", 7);
    assert_eq!(rt; read, Ok((3, -5)));
}

#[test]
fn the_first_fault_is_told(rt: HostRuntime) {
    let read = read_toy(b"(grid 7)\n(at 3 6)\n", 7);
    let told = Refusal::Sheet {
        fault: Fault::Claim,
        line: 2,
        place: 15,
    };
    assert_eq!(rt; read, Err(told));
}

#[test]
fn a_text_is_written(rt: HostRuntime) {
    let mut paper = [b'.'; 24];
    let mut pen = Pen::new(&mut paper);
    assert_eq!(rt; write_toy(&mut pen, 7, 3, -5), Ok(()));
    assert_eq!(rt; pen.place(), 19);
    assert_eq!(rt; paper, *b"(grid 7)\n(at 3 -5)\n.....");
}

#[test]
fn a_text_is_not_written_on_short_paper(rt: HostRuntime) {
    let mut paper = [b'.'; 18];
    let mut pen = Pen::new(&mut paper);
    assert_eq!(rt; write_toy(&mut pen, 7, 3, -5), Err(Refusal::PaperShort));
    assert_eq!(rt; pen.place(), 9);
}
