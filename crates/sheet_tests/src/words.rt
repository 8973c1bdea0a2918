// The number of each refusal, where it lies, and what it says in words.
use refusal::{Fault, Refusal};
use std::alloc::Global;
use std::fmt::Display;
use std::process::Abort;
use std::test::Fail;

const AT: Refusal = Refusal::Sheet {
    fault: Fault::Tag,
    line: 2,
    place: 39,
};

const REFUSALS: [(Refusal, u8, &str); 12] = [
    (
        Refusal::CellOutside,
        1,
        "the move's cell is not on the board",
    ),
    (
        Refusal::AmountOutside,
        2,
        "the move's amount is 0 or outside -256 to 256",
    ),
    (
        Refusal::TooHeavy,
        3,
        "the move takes the weight past the field's limit",
    ),
    (
        Refusal::GridOutside,
        10,
        "the rows are not 1 to 64, or the columns no multiple of 8 from 8 to 1,024",
    ),
    (Refusal::BankShort, 12, "the bank has too few cells"),
    (
        Refusal::CountOutside,
        13,
        "a count, or the absolute counts together, are beyond the field's limit",
    ),
    (
        Refusal::QuestionUnfit,
        20,
        "the question does not fit the grid, or its degree is not from h - 1 to 252",
    ),
    (Refusal::TrayShort, 21, "the tray has too few elements"),
    (Refusal::PaperShort, 22, "the paper is too short"),
    (
        AT,
        42,
        "line 2, byte 39 of the sheet: a number of the tag is not the question's",
    ),
    (
        Refusal::SumWrong,
        50,
        "the first values do not add up to the claim",
    ),
    (
        Refusal::PointWrong,
        51,
        "the values fail at the secret point",
    ),
];

const FAULTS: [(Fault, u8, &str); 8] = [
    (
        Fault::Malformed,
        30,
        "a run that is neither a word of 1 to 8 letters nor a number of 1 to 10 digits",
    ),
    (
        Fault::Unexpected,
        31,
        "a token, or the sheet's end, where the grammar has another",
    ),
    (
        Fault::Field,
        40,
        "the characteristic or the degree is not the field's",
    ),
    (
        Fault::Grid,
        41,
        "the rows or the columns are not the grid's",
    ),
    (Fault::Tag, 42, "a number of the tag is not the question's"),
    (
        Fault::Claim,
        43,
        "the claim is outside the question's least to greatest claim",
    ),
    (Fault::Index, 44, "the value line is not the next one"),
    (
        Fault::Part,
        45,
        "a part of a value is not from 0 to p - 1, or a high part is not 0 where e is 1",
    ),
];

fn check_words<T: Copy + Display, N: Fn(T) -> u8>(
    rt: &impl Abort,
    heap: Global,
    rows: &[(T, u8, &str)],
    number_of: N,
) -> Result<(), Fail>
    requires { N.IsAlwaysCallable number_of }
{
    for &(told, number, words) in rows {
        assert_eq!(rt; number_of(told), number);
        let text = format!(in heap; "{told}")?;
        assert_eq!(rt; text.as_str(), words);
    }
    Ok(())
}

#[test]
fn refusals_in_numbers_and_words(rt: HostRuntime) -> Result<(), Fail> {
    check_words(&rt, rt.alloc(), &REFUSALS, Refusal::number)
}

#[test]
fn faults_in_numbers_and_words(rt: HostRuntime) -> Result<(), Fail> {
    check_words(&rt, rt.alloc(), &FAULTS, Fault::number)
}
