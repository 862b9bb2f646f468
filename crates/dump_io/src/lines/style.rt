/// How what is found is printed.
#[derive(Clone, Copy)]
pub enum Style {
    /// a line of words
    Words,
    /// a line that is an object of JSON
    Json,
    /// not at all: the exit status says it
    Quiet,
}
