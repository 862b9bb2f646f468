//! Tests of what the libraries do with trees and canonical forms.

mod checks;
mod counts;
mod depth;
