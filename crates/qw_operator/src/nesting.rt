//! Conjuncts one within another: what follows a conjunct is done where it is true.

ghost use Rattle.std.specs.Prelude.{◌≡◌, ◌≤◌, ◌+◌, ◌++◌, length, OnOk};
ghost use Rattle.qw_low.specs.Steps.{expression_steps};
ghost use Rattle.qw_expr.specs.Tests.{tested};
ghost use Rattle.qw_operator.specs.Nesting.{closings, opening};

use qw_expr::test::Test;
use qw_low::block::Block;
use qw_low::step::LowStep;
use qw_types::NoMemory;

/// Begins what is done where the conjunct before is true, as its test says.
pub fn open_test(block: &mut Block, test: &Test) -> Result<(), NoMemory>
    ensures code { OnOk result (block.new.code.items ≡ block.old.code.items ++ opening (tested test.now)) }
    ensures short { OnOk result (length block.new.code.items ≤ length block.old.code.items + (length (expression_steps (tested test.now)) + 1)) }
{
    test.push(block)?;
    block.push(LowStep::If)
}

/// Ends what is done where so many conjuncts are true; where one isn't nothing is done.
pub fn close_tests(block: &mut Block, count: usize) -> Result<(), NoMemory>
    ensures { OnOk result (block.new.code.items ≡ block.old.code.items ++ closings count) }
{
    for _test in 0..count {
        block
            .code
            .extend_from_slice(&[LowStep::Else, LowStep::End])?;
    }
    Ok(())
}
