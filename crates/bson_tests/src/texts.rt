//! What is printed of values and errors, of limits and breaches, and of errors of the shelf.

mod limits;
mod shelf;
mod values;
