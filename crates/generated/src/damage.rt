// Sheets with one thing wrong.
use std::alloc::{AllocError, Global};

/// One thing that is wrong with a sheet, at a place of it.
#[derive(Clone, Copy, PartialEq, Eq, Debug)]
pub enum Damage {
    /// It is cut off there.
    CutOff,
    /// The byte there is gone.
    ByteRemoved,
    /// This byte stands before it.
    ByteInserted(u8),
    /// This byte stands in its place.
    ByteReplaced(u8),
    /// This byte stands behind the sheet's end.
    ByteAppended(u8),
    /// This run stands in place of the one there.
    RunReplaced(&'static str),
    /// This number stands in place of the run there.
    NumberReplaced(i64),
}

// The text with the bytes from start to end, the end left out, replaced.
fn spliced(
    heap: Global,
    text: &[u8],
    start: usize,
    end: usize,
    new: &[u8],
) -> Result<Vec<u8>, AllocError> {
    let mut all = text.get(..start).unwrap_or(&[]).to_vec(heap)?;
    all.extend_from_slice(new)?;
    all.extend_from_slice(text.get(end..).unwrap_or(&[]))?;
    Ok(all)
}

// Whether a byte ends a run.
pub(crate) fn stops(byte: u8) -> bool {
    matches!(byte, b' ' | b'(' | b')' | b'\n')
}

// Where the run at a place begins.
fn run_start(text: &[u8], at: usize) -> usize {
    text.iter()
        .take(at)
        .rposition(|byte| stops(*byte))
        .map_or(0, |i| i.saturating_add(1))
}

// Where the run at a place ends.
fn run_end(text: &[u8], at: usize) -> usize {
    text.iter()
        .skip(at)
        .position(|byte| stops(*byte))
        .map_or(text.len(), |i| i.saturating_add(at))
}

// The text with another run in place of the one at a place.
fn with_run(heap: Global, text: &[u8], at: usize, new: &str) -> Result<Vec<u8>, AllocError> {
    let start = run_start(text, at);
    let end = run_end(text, at);
    spliced(heap, text, start, end, new.as_bytes())
}

impl Damage {
    /// Bytes that mean something in a sheet, or that are not allowed there.
    pub const BYTES: &'static [u8] = b" ()\n-059azA\t\r~\x00\x80\xff";

    /// Runs that are nearly a sheet's.
    pub const RUNS: [&'static str; 16] = [
        "-0",
        "007",
        "0000000000",
        "00000000000",
        "9999999999",
        "-9999999999",
        "65551",
        "-",
        "--1",
        "1-",
        "abcdefgh",
        "abcdefghi",
        "Sheet",
        "sheet",
        "end",
        "2147483648",
    ];

    /// The text with this wrong at a place.
    pub fn applied(self, heap: Global, text: &[u8], at: usize) -> Result<Vec<u8>, AllocError> {
        let end = text.len();
        let behind = at.saturating_add(1);
        match self {
            Damage::CutOff => spliced(heap, text, at, end, &[]),
            Damage::ByteRemoved => spliced(heap, text, at, behind, &[]),
            Damage::ByteInserted(byte) => spliced(heap, text, at, at, &[byte]),
            Damage::ByteReplaced(byte) => spliced(heap, text, at, behind, &[byte]),
            Damage::ByteAppended(byte) => spliced(heap, text, end, end, &[byte]),
            Damage::RunReplaced(run) => with_run(heap, text, at, run),
            Damage::NumberReplaced(n) => {
                with_run(heap, text, at, format!(in heap; "{n}")?.as_str())
            }
        }
    }
}
