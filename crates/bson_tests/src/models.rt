//! Tests of trees, and of what is printed of trees and of values.

mod debug_texts;
mod depth;
mod leaves;
