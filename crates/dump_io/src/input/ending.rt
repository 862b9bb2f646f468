/// Why no document is at the front of what is left of an input.
#[derive(Clone, Copy)]
pub enum Ending {
    /// only this number of bytes is left, and the document says more
    CutOff(usize),
    /// this is the length at the front, and no document may have it
    Unsound(i32),
    /// the document at the front is damaged, and its length, which is this, isn't believed
    WrongLength(usize),
}
