// Moves at both ends over Mod65537, whose limit of weights is 256, on boards of 2 rows and 8 columns.
use crate::cases::*;
use board::Bank;
use field::Field;
use fields::Mod65537;
use refusal::Refusal;
use std::process::Abort;
use std::test::Fail;

type Host = host::Listening<Mod65537>;

type Verifier = verifier::Listening<Mod65537>;

// A new end is told the moves. Then one cell of its bank is not 0: the one given, with what it holds.
fn check_moves<E: End>(
    rt: &impl Abort,
    memory: &mut [E::Cell],
    steps: &[Step],
    changed: (usize, i64),
) -> Result<(), Fail> {
    let mut bank = Bank::new(memory);
    let mut end = E::open(2, 8, &mut bank)?;
    check_notes(rt, &mut end, &mut bank, steps);
    let (place, held) = changed;
    for (i, cell) in memory.iter().enumerate() {
        assert_eq!(rt; E::held(*cell), if i == place { held } else { 0 });
    }
    Ok(())
}

// The same at both ends, each with a bank just long enough.
fn check_both(
    rt: &impl Abort,
    steps: &[Step],
    count: (usize, i64),
    sum: (usize, i64),
) -> Result<(), Fail> {
    check_moves::<Host>(rt, &mut [7; 16], steps, count)?;
    check_moves::<Verifier>(rt, &mut [Mod65537::one(); 8], steps, sum)
}

#[test]
fn limits(rt: HostRuntime) -> Result<(), Fail> {
    // One move fills the weight. Afterwards every other move is refused, with the first refusal that applies.
    let steps = [
        (0, 256, Ok(()), 256, 1),
        (0, 1, Err(Refusal::TooHeavy), 256, 1),
        (15, -1, Err(Refusal::TooHeavy), 256, 1),
        (0, 0, Err(Refusal::AmountOutside), 256, 1),
        (0, 257, Err(Refusal::AmountOutside), 256, 1),
        (0, -257, Err(Refusal::AmountOutside), 256, 1),
        (0, i64::MIN, Err(Refusal::AmountOutside), 256, 1),
        (0, i64::MAX, Err(Refusal::AmountOutside), 256, 1),
        (16, 1, Err(Refusal::CellOutside), 256, 1),
        (u64::MAX, 1, Err(Refusal::CellOutside), 256, 1),
        (16, 0, Err(Refusal::CellOutside), 256, 1),
        (u64::MAX, i64::MIN, Err(Refusal::CellOutside), 256, 1),
    ];
    check_both(&rt, &steps, (0, 256), (0, 64513))?;
    // The last cell.
    let steps = [
        (15, -256, Ok(()), 256, 1),
        (15, 1, Err(Refusal::TooHeavy), 256, 1),
        (16, -256, Err(Refusal::CellOutside), 256, 1),
    ];
    check_both(&rt, &steps, (15, -256), (7, 64257))?;
    // Amounts that cancel still weigh.
    let steps = [
        (3, 100, Ok(()), 100, 1),
        (3, -100, Ok(()), 200, 2),
        (3, 57, Err(Refusal::TooHeavy), 200, 2),
        (3, -57, Err(Refusal::TooHeavy), 200, 2),
        (16, 56, Err(Refusal::CellOutside), 200, 2),
        (3, 56, Ok(()), 256, 3),
        (3, -1, Err(Refusal::TooHeavy), 256, 3),
    ];
    check_both(&rt, &steps, (3, 56), (3, 65313))
}

// A bank with a cell too few is told of before any fault of the move.
fn check_short<E: End>(rt: &impl Abort, memory: &mut [E::Cell]) -> Result<(), Fail> {
    let mut end = E::open(2, 8, &mut Bank::new(memory))?;
    let steps = [
        (0, 1, Err(Refusal::BankShort), 0, 0),
        (16, 0, Err(Refusal::BankShort), 0, 0),
    ];
    assert!(rt; !memory.is_empty());
    let last = memory.len() - 1;
    check_notes(rt, &mut end, &mut Bank::new(&mut memory[..last]), &steps);
    Ok(())
}

#[test]
fn short_banks(rt: HostRuntime) -> Result<(), Fail> {
    check_short::<Host>(&rt, &mut [0; 16])?;
    check_short::<Verifier>(&rt, &mut [Mod65537::zero(); 8])
}

// Counts that no moves make: a host takes no move at one beyond the limit, and tells so after all faults of the move.
#[test]
fn counts_outside(rt: HostRuntime) -> Result<(), Fail> {
    let mut counts = [0; 16];
    let mut end = Host::open(2, 8, &mut Bank::new(&mut counts))?;
    let mut counts = [
        257,
        -257,
        i32::MIN,
        256,
        -256,
        0,
        0,
        0,
        0,
        0,
        0,
        0,
        0,
        0,
        0,
        0,
    ];
    let steps = [
        (0, 1, Err(Refusal::CountOutside), 0, 0),
        (0, -1, Err(Refusal::CountOutside), 0, 0),
        (1, 1, Err(Refusal::CountOutside), 0, 0),
        (1, -1, Err(Refusal::CountOutside), 0, 0),
        (2, 1, Err(Refusal::CountOutside), 0, 0),
        (3, 1, Ok(()), 1, 1),
        (3, -1, Err(Refusal::CountOutside), 1, 1),
        (4, -1, Ok(()), 2, 2),
        (4, 1, Err(Refusal::CountOutside), 2, 2),
        (5, 254, Ok(()), 256, 3),
        (0, 1, Err(Refusal::TooHeavy), 256, 3),
        (0, 0, Err(Refusal::AmountOutside), 256, 3),
        (16, 0, Err(Refusal::CellOutside), 256, 3),
    ];
    check_notes(&rt, &mut end, &mut Bank::new(&mut counts), &steps);
    assert_eq!(rt;
        counts,
        [
            257,
            -257,
            i32::MIN,
            257,
            -257,
            254,
            0,
            0,
            0,
            0,
            0,
            0,
            0,
            0,
            0,
            0,
        ]
    );
    Ok(())
}
