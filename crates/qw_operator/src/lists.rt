//! Conjuncts, and the expressions of a key or a select list, one after another.

ghost use Rattle.std.specs.Prelude.{◌≡◌, ◌≤◌, ◌+◌, ◌*◌, ◌++◌, length, map, sum_by, take, OnOk, IfOk};
ghost use Rattle.std.specs.List.{All, AllByRecursion};
ghost use Rattle.qw_scalar.specs.Nodes.{nodes, nodes_of};
ghost use Rattle.qw_scalar.specs.Tree.{condition_of, expression_of};
ghost use Rattle.qw_scalar.specs.Typing.{AreTyped, IsTyped};
ghost use Rattle.qw_expr.specs.Bindings.{known_of, IsServed, TakeKnown, TakesKnown};
ghost use Rattle.qw_expr.specs.Emits.{extent, free_of};
ghost use Rattle.qw_read.specs.Reading.{HasNullWord};
ghost use Rattle.qw_operator.specs.Emitted.{AreOrdered, EmitsConjunct, EmitsTests, EmitsItems};

use crate::needed::needed_for;
use crate::nesting::open_test;
use qw_expr::emitter::Emitter;
use qw_expr::known::Binding;
use qw_expr::operand::Operand;
use qw_expr::test::emit_test;
use qw_expr::tree::emit_expr;
use qw_leaves::gather::leaves_within;
use qw_read::read::emit_reads;
use qw_read::reader::Reader;
use qw_scalar::expression::{Cond, Expr};
use qw_types::NoMemory;
use std::alloc::Global;

/// Adds the block of a conjunct, and before it the reads of the columns that are new with it, where so many are read already. What is known
/// are so many literals, and behind them the columns. What is added after it is done where it is true. It tells how many columns are read
/// then.
fn emit_conjunct(
    alloc: Global,
    emitter: &mut Emitter,
    conjunct: &Cond,
    readers: &[Reader],
    done: usize,
    literals: usize,
    known: &[Binding],
) -> Result<usize, NoMemory>
    requires typed { AreTyped (condition_of conjunct.now) }
    requires known { TakeKnown (known_of known.now) (condition_of conjunct.now) }
    requires served { IsServed (free_of emitter.old) (known_of known.now) }
    requires words { AllByRecursion (λ r. HasNullWord r.not_null r.cell.null) readers.now }
    requires ordered { AreOrdered literals readers.now known.now }
    requires done { done ≤ length readers.now }
    ensures emits { IfOk result (λ upto. EmitsConjunct (take literals (known_of known.now)) readers.now done upto (condition_of conjunct.now) emitter.old emitter.new) }
    ensures within { IfOk result (λ upto. upto ≤ length readers.now) }
    ensures short { IfOk result (λ upto. extent emitter.new + 78 * done ≤ extent emitter.old + 78 * upto + 404 * nodes_of conjunct.now) }
{
    let leaves = leaves_within(alloc, conjunct)?;
    let upto = needed_for(readers, &leaves, done);
    emit_reads(&mut emitter.block, &readers[done..upto])?;
    let test = emit_test(alloc, emitter, conjunct, &known[..literals + upto])?;
    open_test(&mut emitter.block, &test)?;
    Ok(upto)
}

/// Adds the blocks of conjuncts in their order, each behind the reads of the columns that it is the first to name: what is added after each
/// is done where it is true, and those before it. As many choices as there are conjuncts are left open. What is known are so many literals,
/// and behind them the columns. It tells how many columns are read then.
///
/// # Errors
///
/// [`NoMemory`] where memory does not suffice, or there are too many locals.
pub fn emit_tests(
    alloc: Global,
    emitter: &mut Emitter,
    conjuncts: &[Cond],
    readers: &[Reader],
    literals: usize,
    known: &[Binding],
) -> Result<usize, NoMemory>
    requires typed { All (λ c. AreTyped (condition_of c)) conjuncts.now }
    requires known { All (λ c. TakeKnown (known_of known.now) (condition_of c)) conjuncts.now }
    requires served { IsServed (free_of emitter.old) (known_of known.now) }
    requires words { AllByRecursion (λ r. HasNullWord r.not_null r.cell.null) readers.now }
    requires ordered { AreOrdered literals readers.now known.now }
    ensures emits { IfOk result (λ done. EmitsTests (take literals (known_of known.now)) readers.now (map condition_of conjuncts.now) emitter.old emitter.new done) }
    ensures within { IfOk result (λ done. done ≤ length readers.now) }
    ensures short { IfOk result (λ done. extent emitter.new ≤ extent emitter.old + 78 * done + 404 * sum_by nodes_of conjuncts.now) }
{
    let mut done = 0;
    for conjunct in conjuncts {
        done = emit_conjunct(alloc, emitter, conjunct, readers, done, literals, known)?;
    }
    Ok(done)
}

/// Adds the blocks of expressions, of a key or a select list, from left to right, and tells where their values are.
///
/// # Errors
///
/// [`NoMemory`] where memory does not suffice, or there are too many locals.
pub fn emit_items(
    alloc: Global,
    emitter: &mut Emitter,
    items: &[Expr],
    known: &[Binding],
) -> Result<Vec<Operand>, NoMemory>
    requires typed { All (λ e. IsTyped (expression_of e)) items.now }
    requires known { All (λ e. TakesKnown (known_of known.now) (expression_of e)) items.now }
    requires served { IsServed (free_of emitter.old) (known_of known.now) }
    ensures emits { IfOk result (λ outs. EmitsItems (known_of known.now) (map expression_of items.now) emitter.old emitter.new outs.items) }
    ensures short { OnOk result (extent emitter.new ≤ extent emitter.old + 400 * sum_by nodes items.now) }
{
    let mut outs = Vec::new(alloc);
    for item in items {
        let out = emit_expr(emitter, item, known)?;
        outs.push(out)?;
    }
    Ok(outs)
}
