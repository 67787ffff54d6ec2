//! What spelling pipelines out asks for holds of the plans of queries; and a worked case. No function here computes anything.

ghost use Rattle.std.specs.Prelude.{◌≡◌, [], ◌∷◌, false};
ghost use Rattle.qw_types.specs.declared.value.Ty.TheVariants.{Integer};
ghost use Rattle.qw_scalar.specs.declared.comparison.Comparison.TheVariants.{Equal, Less};
ghost use Rattle.qw_scalar.specs.Expression.{column, comparison};
ghost use Rattle.qw_meaning.specs.Select.{IsSpecification, Specification};
ghost use Rattle.qw_algebra.specs.Node.{Node, join, project, scan};
ghost use Rattle.qw_pipe.specs.Pipes.{pipelines};
ghost use Rattle.qw_rewrite.specs.Placed.{IsWellPlaced};
ghost use Rattle.qw_physical.specs.Physical.{build, probe, select};
ghost use Rattle.qw_physical.specs.Spelled.{all_spelled};
ghost use Rattle.qw_physical.specs.Typed.{AreTypedPipelines};

/// The pipelines of the well placed plan of a query are typed, and each key of a join is a comparison.
pub fn pipelines_are_typed()
    ensures { (query : Specification) (node : Node) → IsSpecification query → IsWellPlaced query node → AreTypedPipelines (pipelines node) }
{}

/// `A JOIN B ON A.K < B.K AND B.K = A.K`, whose select list is A.ID, of columns 0 (A.ID), 1 (A.K) and 65 (B.K), of which B's table keeps 65. The
/// key is the second conjunct: of B its left operand, of A its right one. The first conjunct is left for the pairs.
pub fn one_join()
    ensures { all_spelled
        (record { number = 0; ty = Integer; not_null = false } ∷ record { number = 1; ty = Integer; not_null = false } ∷ record { number = 65; ty = Integer; not_null = false } ∷ []) 0
        (pipelines (project (join false (scan 0 3) (scan 1 4) (comparison Less (column 1 Integer) (column 65 Integer) ∷ comparison Equal (column 65 Integer) (column 1 Integer) ∷ []) (1 ∷ [])) (column 0 Integer ∷ [])))
        ≡ record {
          entry = 1;
          table = 4;
          operators = [];
          sink = build (record { table = 0; key = column 65 Integer ∷ []; kept = record { number = 65; ty = Integer; not_null = false } ∷ [] });
        }
        ∷ record {
          entry = 0;
          table = 3;
          operators = probe (record {
            table = 0;
            outer = false;
            key = column 1 Integer ∷ [];
            kept = record { number = 65; ty = Integer; not_null = false } ∷ [];
            on = comparison Less (column 1 Integer) (column 65 Integer) ∷ [];
          }) ∷ [];
          sink = select (column 0 Integer ∷ []);
        } ∷ [] }
{}
