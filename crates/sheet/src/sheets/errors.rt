// Why a name was not added.
#[derive(Clone, Copy, Debug, PartialEq, Eq)]
pub enum SheetError {
    // The bytes do not have the name form.
    NotAName,
    // The style that has the name already.
    Repeated(usize),
    // The sheet has 16 names.
    Full,
}
