//! What the tests share: documents, the faults, breaches and levels in them, a value of each kind, borrowed and owned, and
//! checks of results.

mod breaches;
mod checks;
mod documents;
mod faults;
mod let_go;
mod levels;
mod owned_values;
mod required;
mod results;
mod values;

pub use breaches::{BREACHES, breach};
pub use checks::{Checks, NoValue, Want, is_fault, is_refused};
pub use documents::{
    ALL_KINDS, ARRAY_WITH_AN_EMPTY_KEY, ARRAY_WITH_TEXT_NOT_UTF8, BOOL_AND_INT32, BOOLEAN_TWO,
    EMPTY, FAULT_BEFORE_A_NUMBER, FAULT_UNDER_A_LATER_GOOD_KEY, GREETING, KEY_NOT_UTF8,
    LEAST_CODE_WITH_SCOPE, NEGATIVE_DOCUMENT_LENGTH, NESTED_STOP, NULL_ARRAY, NULL_DOCUMENT,
    OLD_BINARY, ONE_INT32, OPTIONS_OUT_OF_ORDER, PATTERN_NOT_UTF8, REPEATED_KEY,
    SWALLOWED_TERMINATOR, SWALLOWED_TERMINATOR_PUSHED, TAG_ZERO, THREE_INT32,
};
pub use faults::{
    Fault, NEGATIVE_AT_A, NOT_UTF8, NOT_UTF8_AT_A, OVERFLOWED, TWO_AT_0, TWO_AT_A, ZERO_IS_NO_TAG,
};
pub(crate) use let_go::let_go;
pub use levels::{
    AMONG_OTHERS, IN_A_DOCUMENT, IN_A_SCOPE, IN_AN_ARRAY, Level, UNDER_THE_EMPTY_KEY,
    levels_inside, nested,
};
pub use owned_values::{array_of, document_of, is_same, owned, tree_of};
pub use required::{require_row, view, view_of_array};
pub use results::{
    has_debug_text, has_display_text, has_error_texts, has_texts, is_got, is_printed, is_said,
};
pub use values::{KINDS, borrowed, first_element, pointed};
