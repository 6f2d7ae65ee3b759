// Whether a term is the rule that the table of links has for its states.
ghost use Rattle.std.specs.Prelude.{◌≡◌, ℕ, suc, pos, IsTrue, IfSome};
ghost use Rattle.sqlite.specs.declared.types.Value.TheVariants.{Int};
ghost use Rattle.sqlite_sql.specs.Term.{lit, col, op2};
ghost use Rattle.sqlite_sql.specs.declared.ops.BinaryOp.TheVariants.{Compare, Or};
ghost use Rattle.sqlite_sql.specs.declared.ops.CompareOp.TheVariants.{Eq};
ghost use Rattle.sqlite.specs.Collation.TheVariants.{Binary};
ghost use Rattle.sqlite_schema.specs.Code.{term_to};
ghost use Rattle.sqlite_keeper.specs.Schemas.{state_test, state_rule};

use sqlite_schema::code::Op;
use sqlite_sql::ops::{BinaryOp, CompareOp};
use sqlite_value::keys::Collation;
use sqlite_value::value::Value;

// Whether the node at a place is this number.
fn is_number(ops: &[Op], at: usize, number: u32) -> bool
    ensures { IsTrue result → (depth : ℕ) → term_to ops.now (suc depth) at ≡ lit (Int (pos number)) }
{
    match ops.get(at) {
        Some(Op::Literal(Value::Int(n))) => *n == i64::from(number),
        _ => false,
    }
}

// Whether the node at a place is the third column of the row.
fn is_state_column(ops: &[Op], at: usize) -> bool
    ensures { IsTrue result → (depth : ℕ) → term_to ops.now (suc depth) at ≡ col 1 3 }
{
    match ops.get(at) {
        Some(Op::Column(1, 3)) => true,
        _ => false,
    }
}

// The places of the two nodes that the node at a place joins by OR.
fn either(ops: &[Op], at: usize) -> Option<(usize, usize)>
    ensures { IfSome result (λ sides. (depth : ℕ) → term_to ops.now (suc depth) at
        ≡ op2 Or (term_to ops.now depth sides.0) (term_to ops.now depth sides.1)) }
{
    match ops.get(at) {
        Some(Op::Binary(BinaryOp::Or, left, right)) => Some((*left, *right)),
        _ => None,
    }
}

// The places of the two nodes that the node at a place tests for being the same.
fn same(ops: &[Op], at: usize) -> Option<(usize, usize)>
    ensures { IfSome result (λ sides. (depth : ℕ) → term_to ops.now (suc depth) at
        ≡ op2 (Compare Eq Binary) (term_to ops.now depth sides.0)
        (term_to ops.now depth sides.1)) }
{
    match ops.get(at) {
        Some(Op::Binary(BinaryOp::Compare(CompareOp::Eq, Collation::Binary), left, right)) => {
            Some((*left, *right))
        }
        _ => None,
    }
}

// Whether the node at a place tests that the state is this number.
fn is_state_test(ops: &[Op], at: usize, number: u32) -> bool
    ensures { IsTrue result → (depth : ℕ)
        → term_to ops.now (suc (suc depth)) at ≡ state_test number }
{
    match same(ops, at) {
        Some((left, right)) => is_state_column(ops, left) && is_number(ops, right, number),
        None => false,
    }
}

// Whether the node at a place tests that the state is one of the last two numbers.
fn is_late_rule(ops: &[Op], at: usize) -> bool
    ensures { IsTrue result → (depth : ℕ)
        → term_to ops.now (suc (suc (suc depth))) at ≡ op2 Or (state_test 1) (state_test 2) }
{
    match either(ops, at) {
        Some((left, right)) => is_state_test(ops, left, 1) && is_state_test(ops, right, 2),
        None => false,
    }
}

// Whether the node at a place tests that the state is one of the three numbers.
pub(crate) fn is_state_rule(ops: &[Op], at: usize) -> bool
    ensures { IsTrue result → (depth : ℕ)
        → term_to ops.now (suc (suc (suc (suc depth)))) at ≡ state_rule }
{
    match either(ops, at) {
        Some((left, right)) => is_state_test(ops, left, 0) && is_late_rule(ops, right),
        None => false,
    }
}
