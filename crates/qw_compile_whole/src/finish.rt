//! The module around the steps of a query, where these are few enough.

ghost use Rattle.std.specs.Prelude.{◌≡◌, ◌≤◌, length, IfErr, IfOk, IfSome, IsSome};
ghost use Rattle.qw_compile.specs.declared.compile.CompileFault.TheVariants as faults;
ghost use Rattle.qw_compile_whole.specs.FinishedModule.{IsFinishedOf};

use qw_compile::compile::{CompileFault, Compiled, MOST_LOCALS, MOST_STEPS};
use qw_compile::query_statement::QueryStatement;
use qw_emit::module::module_of;
use std::alloc::Global;

/// The module around a statement, with its layout.
///
/// # Errors
///
/// [`CompileFault::TooLong`] where there is no statement, or it has more than 2^21 steps, or as many locals; [`CompileFault::NoMemory`] where memory does not
/// suffice.
pub(crate) fn finish(alloc: Global, made: Option<QueryStatement>) -> Result<Compiled, CompileFault>
    ensures finished { IfOk result (λ compiled. IsSome made × IfSome made (λ one. IsFinishedOf one compiled)) }
    ensures short { IsSome made → IfSome made (λ one. (length one.block.code.items ≤ 2097152) × (length one.locals.items ≤ 2097152)) → IfErr result (λ fault. fault ≡ faults.NoMemory) }
{
    let Some(
        QueryStatement {
            block,
            locals,
            layout,
        },
    ) = made
    else {
        return Err(CompileFault::TooLong);
    };
    if block.code.len() > MOST_STEPS || locals.len() > MOST_LOCALS {
        return Err(CompileFault::TooLong);
    }
    let module = module_of(alloc, &block, &locals)?;
    Ok(Compiled { module, layout })
}
