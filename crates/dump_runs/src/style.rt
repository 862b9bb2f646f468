//! How findings are printed.
#![tactic(auto)]

ghost use Rattle.std.specs.Prelude.{◌≡◌};
ghost use Rattle.dump_runs.specs.Limits as says;

use dump_commands::counts::Counts;
use dump_io::lines::style::Style;

/// How what is found next is printed, after these counts: not at all where as many findings were printed as are asked for.
pub fn style_at(style: Style, limit: Option<u64>, counts: Counts) -> Style
    ensures { result ≡ says.style_at style limit counts }
{
    let left = match limit {
        Some(most) => most.saturating_sub(counts.findings),
        None => 1,
    };
    match left {
        0 => Style::Quiet,
        _ => style,
    }
}

/// How many findings of an input are printed at most, where this was counted before it.
pub fn left_of(limit: Option<u64>, before: Counts) -> Option<u64>
    ensures { result ≡ says.left_limit limit before }
{
    match limit {
        Some(most) => Some(most.saturating_sub(before.findings)),
        None => None,
    }
}
