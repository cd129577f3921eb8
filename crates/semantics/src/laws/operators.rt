//! The operators of expressions, by their values.

ghost use Rattle.std.specs.Prelude.{◌≢◌, All};
ghost use Rattle.guest_syntax.specs.declared.tree.Op.{Op};
ghost use Rattle.semantics.specs.OperatorTable.{IsRight, Differ, sums, differences, products, equalities, orders};

/// Each operator makes of chosen pairs of values what the tables of `specs/OperatorTable.antt` say:
/// sums, differences and products wrap round at 64 bits, and comparisons are of signed numbers.
pub fn operators_have_these_values()
    ensures sum { All IsRight sums }
    ensures difference { All IsRight differences }
    ensures product { All IsRight products }
    ensures equality { All IsRight equalities }
    ensures order { All IsRight orders }
{}

/// For any two different operators there is a pair of values of which they make different values.
pub fn operators_differ()
    ensures { (o q : Op) → o ≢ q → Differ o q }
{}
