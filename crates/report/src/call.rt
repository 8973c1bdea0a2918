// The calls that are compared.
use std::fmt;

/// A call of either end, or the reading or writing of a sheet alone.
#[derive(Clone, Copy, PartialEq, Eq, Debug)]
pub enum Call {
    /// A host is opened.
    OpenHost,
    /// A box is opened.
    OpenBox,
    /// A host is told a move.
    NoteHost,
    /// A box is told a move.
    NoteBox,
    /// A sealed host answers a question.
    Answer,
    /// A sealed box judges a sheet.
    Judge,
    /// A sheet is read.
    Read,
    /// A sheet is written.
    Write,
}

impl Call {
    /// Every call.
    pub const ALL: [Call; 8] = [
        Call::OpenHost,
        Call::OpenBox,
        Call::NoteHost,
        Call::NoteBox,
        Call::Answer,
        Call::Judge,
        Call::Read,
        Call::Write,
    ];
}

impl fmt::Display for Call {
    fn fmt<W: fmt::Write>(&self, f: &mut fmt::Formatter<W>) -> fmt::Result {
        f.pad(match self {
            Call::OpenHost => "open at the host",
            Call::OpenBox => "open at the box",
            Call::NoteHost => "note at the host",
            Call::NoteBox => "note at the box",
            Call::Answer => "answer",
            Call::Judge => "judge",
            Call::Read => "reading a sheet",
            Call::Write => "writing a sheet",
        })
    }
}
