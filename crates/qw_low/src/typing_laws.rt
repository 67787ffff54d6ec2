//! The code of Low is valid, stated as contracts. No function here computes anything.

ghost use Rattle.std.specs.Prelude.{[]};
ghost use Rattle.qw_module.specs.Syntax.{Code};
ghost use Rattle.qw_module.specs.Typing.{Scope, Typed};
ghost use Rattle.qw_low.specs.Syntax.{Statement};
ghost use Rattle.qw_low.specs.Translation.{statement_code};
ghost use Rattle.qw_low.specs.Typing.{IsTyped, HostsLow};

/// The code of a typed statement is typed wherever Low may stand, by the rules of WebAssembly Core Specification 1.0, 3.3.
pub fn code_is_typed()
    ensures { (scope : Scope) (a : Statement) (k : Code) → HostsLow scope → IsTyped scope.locals a →
        Typed scope k [] [] → Typed scope (statement_code a k) [] [] }
{}
