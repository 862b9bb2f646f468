//! Regular expressions, and the order of their options.
ghost use Rattle.std.specs.Prelude.{◌≡◌, ◌↔◌, IsTrue, IfOk};
ghost use Rattle.std.specs.String.{string_bytes};
ghost use Rattle.bson_model.specs.Options.{sorted_options, OptionsAscend, OrdersOptions};

use crate::errors::NoMemory;
use std::alloc::Global;

/// A regular expression: its pattern and its options (BSON 1.1, regular expression).
#[derive(Debug, PartialEq, Eq, Drop)]
pub struct Regex {
    /// The pattern. It can be written only if it contains no 0.
    pub pattern: String,
    /// The options, one character each. They are written as they are, and only if they contain no 0.
    pub options: String,
}

impl Regex {
    /// The regular expression with this pattern and with these options in ascending order of their Unicode scalar
    /// values, repeats kept; or `NoMemory`.
    /// ```
    /// let regex = Regex::new(alloc, "^a", "mi")?;
    /// assert_eq!(rt; regex.options.as_str(), "im");
    /// ```
    pub fn new(alloc: Global, pattern: &str, options: &str) -> Result<Regex, NoMemory>
        ensures kept { IfOk result (λ r. string_bytes r.pattern ≡ pattern.now) }
        ensures sorted { IfOk result (λ r. string_bytes r.options ≡ sorted_options options.now) }
        ensures ordered { IfOk result (λ r. OrdersOptions options.now (string_bytes r.options)) }
    {
        Ok(Regex {
            pattern: String::from_str(alloc, pattern)?,
            options: in_order(alloc, options)?,
        })
    }
}

/// The options in ascending order of their characters, repeats kept.
fn in_order(alloc: Global, options: &str) -> Result<String, NoMemory>
    ensures { IfOk result (λ text. string_bytes text ≡ sorted_options options.now) }
{
    if do_options_ascend(options) {
        return Ok(String::from_str(alloc, options)?);
    }
    let mut chars: Vec<char> = options.chars().collect(alloc)?;
    chars.sort_unstable();
    Ok(chars.into_iter().collect(alloc)?)
}

/// Whether the characters of the options ascend, perhaps with repeats, by their Unicode scalar values.
pub fn do_options_ascend(options: &str) -> bool
    ensures { IsTrue result ↔ OptionsAscend options.now }
{
    options.chars().is_sorted()
}
