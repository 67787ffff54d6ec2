//! The constant that a global's expression is (WebAssembly Core Specification 1.0, 3.3.7).

ghost use Rattle.std.specs.Prelude.{◌≡◌, ◌≢◌, MatchOption};
ghost use Rattle.qw_module.specs.declared.instruction.Const.{Const as AnyConst};
ghost use Rattle.qw_module.specs.declared.instruction.Op.TheVariants as o;
ghost use Rattle.qw_module.specs.Syntax.{IsNumbered, done, op};
ghost use Rattle.qw_module.specs.Validity.{code_of_body, sequences_of};
ghost use Rattle.qw_valid.specs.Inner.Initial.{constant_in};

use qw_module::instruction::{Const, Instr, Op};
use qw_module::module::Body;

/// The constant that a sequence is, where it is that alone.
fn constant_alone(sequence: &[Instr]) -> Option<Const>
    ensures { result ≡ constant_in sequence.now }
{
    match sequence {
        [Instr::Op(Op::Const(constant))] => Some(*constant),
        _ => None,
    }
}

/// The constant that the code of a numbered body is, where it is that alone.
pub fn constant_of(body: &Body) -> Option<Const>
    requires { IsNumbered (sequences_of body.now) }
    ensures { MatchOption result ((value : AnyConst) → code_of_body body.now ≢ op (o.Const value) done)
        (λ value. code_of_body body.now ≡ op (o.Const value) done) }
{
    let last = body.sequences.last()?;
    constant_alone(last)
}
