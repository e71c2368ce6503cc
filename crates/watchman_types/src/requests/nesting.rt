//! How deep expressions nest.
ghost use Rattle.std.specs.Prelude.{◌≤◌, ◌↔◌, IsTrue};
ghost use Rattle.watchman_types.specs.Expressions.{nesting, most_nesting};

use crate::requests::expression::Expression;

/// Returns whether at most so many operators are one in another. It calls itself once for each of
/// these.
#[cycle(nest)]
pub fn nests_within(expression: &Expression<'_>, levels: usize) -> bool
    ensures { IsTrue result ↔ (nesting expression.now ≤ levels) }
{
    match expression {
        Expression::AllOf(operands) | Expression::AnyOf(operands) => {
            levels > 0 && all_nest_within(operands, levels - 1)
        }
        Expression::Not(operand) => levels > 0 && nests_within(operand, levels - 1),
        _ => true,
    }
}

/// Whether it is so of each of these.
#[cycle(nest)]
fn all_nest_within(operands: &[Expression<'_>], levels: usize) -> bool
    ensures { IsTrue result ↔ (most_nesting operands.now ≤ levels) }
{
    for operand in operands {
        if !nests_within(operand, levels) {
            return false;
        }
    }
    true
}
