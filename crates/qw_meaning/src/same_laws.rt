//! What holds of specifications that mean the same. No function here computes anything.

ghost use Rattle.std.specs.Prelude.{◌≡◌, List};
ghost use Rattle.qw_types.specs.declared.value.Val.{Val};
ghost use Rattle.qw_meaning.specs.Outcome.{outcome};
ghost use Rattle.qw_meaning.specs.Same.{MeansTheSame};
ghost use Rattle.qw_meaning.specs.Select.{Specification};

/// They come to the same rows in the same order, or to the same exceptions, over any tables.
pub fn outcomes()
    ensures { (query other : Specification) (tables : List (List (List Val))) → MeansTheSame query other → outcome query tables ≡ outcome other tables }
{}
