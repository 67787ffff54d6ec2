//! Worked cases of well placed plans, with numbers. No function here computes anything.

ghost use Rattle.std.specs.Prelude.{◌≡◌, pos, true, false, [], ◌∷◌};
ghost use Rattle.qw_types.specs.declared.value.Ty.TheVariants.{Date, Decimal, Integer};
ghost use Rattle.qw_scalar.specs.declared.comparison.Comparison.TheVariants.{Equal, Greater};
ghost use Rattle.qw_scalar.specs.declared.expression.Predicate.TheVariants.{IsNull};
ghost use Rattle.qw_scalar.specs.Expression.{column, comparison, number, predicate};
ghost use Rattle.qw_raise.specs.Raise.{condition_can_raise};
ghost use Rattle.qw_meaning.specs.Select.{alone};
ghost use Rattle.qw_meaning.specs.WorkedQueries.{is_next, items_entry, one_column, quotient_above_six};
ghost use Rattle.qw_algebra.specs.Node.{filter, join, project, scan};
ghost use Rattle.qw_algebra.specs.WorkedPlans.{above_two, item_and_joined, next_items};
ghost use Rattle.qw_algebra.specs.Columns.{is_of};
ghost use Rattle.qw_algebra.specs.Written.{written};
ghost use Rattle.qw_rewrite.specs.Lowest.{NamesBelow, StandLow, StayInOrder};
ghost use Rattle.qw_rewrite.specs.Placed.{IsSizedPlan, IsWellPlaced};
ghost use Rattle.qw_rewrite.specs.Probe.{keys_from};
ghost use Rattle.qw_rewrite.specs.WorkedPlacing.{above_one, left_joined};

/// `ITEM A, ITEM B WHERE A.ID = B.ID + 1 AND A.ID > 2`: the comparison goes to A's scan, the equality to the join, which looks partners up by
/// it. It stands nowhere else, and the join has no other keys. An ON that is an equality is a key too.
pub fn conjuncts_move()
    ensures moved { IsWellPlaced next_items
        (project (filter [] (join false (filter (above_two ∷ []) (scan 0 3)) (filter [] (scan 1 3)) (is_next 0 64 ∷ []) (0 ∷ []))) (column 0 Integer ∷ column 64 Integer ∷ [])) }
    ensures no_key { IsWellPlaced next_items
        (project (filter [] (join false (filter (above_two ∷ []) (scan 0 3)) (filter [] (scan 1 3)) (is_next 0 64 ∷ []) [])) (column 0 Integer ∷ column 64 Integer ∷ [])) → ⊥ }
    ensures twice { IsWellPlaced next_items
        (project (filter (above_two ∷ []) (join false (filter (above_two ∷ []) (scan 0 3)) (filter [] (scan 1 3)) (is_next 0 64 ∷ []) (0 ∷ []))) (column 0 Integer ∷ column 64 Integer ∷ [])) → ⊥ }
    ensures of_on { IsWellPlaced item_and_joined
        (project (filter [] (join false (filter [] (scan 0 3)) (join false (filter [] (scan 1 0)) (filter [] (scan 2 1)) (comparison Equal (column 64 Integer) (column 128 Integer) ∷ []) (0 ∷ [])) [] [])) (column 0 Integer ∷ [])) }
{}

/// With `10 / (A.ID - 1) > 6` in front of both, nothing is moved, since rows that they keep from it would raise no exception; behind both it
/// keeps none of them.
pub fn raising_conjuncts_stay()
    ensures raises { condition_can_raise (quotient_above_six 0) ≡ true }
    ensures in_front { IsWellPlaced (record next_items { conjuncts = quotient_above_six 0 ∷ is_next 0 64 ∷ above_two ∷ [] })
        (project (filter (quotient_above_six 0 ∷ is_next 0 64 ∷ above_two ∷ []) (join false (filter [] (scan 0 3)) (filter [] (scan 1 3)) [] [])) (column 0 Integer ∷ column 64 Integer ∷ [])) }
    ensures behind { IsWellPlaced (record next_items { conjuncts = is_next 0 64 ∷ above_two ∷ quotient_above_six 0 ∷ [] })
        (project (filter (quotient_above_six 0 ∷ []) (join false (filter (above_two ∷ []) (scan 0 3)) (filter [] (scan 1 3)) (is_next 0 64 ∷ []) (0 ∷ []))) (column 0 Integer ∷ column 64 Integer ∷ [])) }
{}

/// `A JOIN B ON 10 / (A.K - 1) > 6, ITEM C JOIN ITEM D ON C.ID > 2`: the ON of the second source stays at its clause behind the one that can
/// raise. With the sources the other way round it goes to C's scan.
pub fn later_sources_wait()
    ensures behind { IsWellPlaced (record {
      sources = record { first = one_column 0; joins = record { entry = one_column 1; outer = false; on = quotient_above_six 0 ∷ [] } ∷ [] }
          ∷ record { first = items_entry; joins = record { entry = items_entry; outer = false; on = comparison Greater (column 128 Integer) (number (pos 2) 0) ∷ [] } ∷ [] } ∷ [];
      conjuncts = [];
      items = column 0 Integer ∷ [];
    }) (project (filter [] (join false (join false (filter [] (scan 0 0)) (filter [] (scan 1 1)) (quotient_above_six 0 ∷ []) [])
        (join false (filter [] (scan 2 3)) (filter [] (scan 3 3)) (comparison Greater (column 128 Integer) (number (pos 2) 0) ∷ []) []) [] [])) (column 0 Integer ∷ [])) }
    ensures in_front { IsWellPlaced (record {
      sources = record { first = items_entry; joins = record { entry = items_entry; outer = false; on = above_two ∷ [] } ∷ [] }
          ∷ record { first = one_column 0; joins = record { entry = one_column 1; outer = false; on = quotient_above_six 128 ∷ [] } ∷ [] } ∷ [];
      conjuncts = [];
      items = column 0 Integer ∷ [];
    }) (project (filter [] (join false (join false (filter (above_two ∷ []) (scan 0 3)) (filter [] (scan 1 3)) [] [])
        (join false (filter [] (scan 2 0)) (filter [] (scan 3 1)) (quotient_above_six 128 ∷ []) []) [] [])) (column 0 Integer ∷ [])) }
{}

/// `A LEFT JOIN B ON A.K = B.K + 1 WHERE ..`: `A.K > 1` goes to A's scan. `B.K > 1` and `B.K IS NULL` of the right side, and `A.K = B.K` of
/// both, stand right above the join: below it, or in its ON, they would have rows of A completed that WHERE drops. Nothing stands at B's
/// scan, and ON stays whole with its key.
pub fn left_joins()
    ensures of_left { IsWellPlaced (left_joined (is_next 0 64) (above_one 0 ∷ []))
        (project (filter [] (filter [] (join true (filter (above_one 0 ∷ []) (scan 0 0)) (filter [] (scan 1 1)) (is_next 0 64 ∷ []) (0 ∷ [])))) (column 0 Integer ∷ [])) }
    ensures of_right { IsWellPlaced (left_joined (is_next 0 64) (above_one 64 ∷ predicate IsNull (column 64 Integer) ∷ comparison Equal (column 0 Integer) (column 64 Integer) ∷ []))
        (project (filter [] (filter (above_one 64 ∷ predicate IsNull (column 64 Integer) ∷ comparison Equal (column 0 Integer) (column 64 Integer) ∷ [])
        (join true (filter [] (scan 0 0)) (filter [] (scan 1 1)) (is_next 0 64 ∷ []) (0 ∷ [])))) (column 0 Integer ∷ [])) }
    ensures not_at_scan { IsWellPlaced (left_joined (is_next 0 64) (above_one 64 ∷ []))
        (project (filter [] (filter [] (join true (filter [] (scan 0 0)) (filter (above_one 64 ∷ []) (scan 1 1)) (is_next 0 64 ∷ []) (0 ∷ [])))) (column 0 Integer ∷ [])) → ⊥ }
    ensures not_in_on { IsWellPlaced (left_joined (is_next 0 64) (above_one 64 ∷ []))
        (project (filter [] (filter [] (join true (filter [] (scan 0 0)) (filter [] (scan 1 1)) (is_next 0 64 ∷ above_one 64 ∷ []) (0 ∷ [])))) (column 0 Integer ∷ [])) → ⊥ }
    ensures on_stays { IsWellPlaced (record (left_joined (above_one 0) []) { items = column 64 Integer ∷ [] })
        (project (filter [] (filter [] (join true (filter [] (scan 0 0)) (filter [] (scan 1 1)) (above_one 0 ∷ []) []))) (column 64 Integer ∷ [])) }
{}

/// Where ON is `10 / (A.K - 1) > 6` or WHERE begins with it, nothing moves.
pub fn raising_left_joins()
    ensures of_on { IsWellPlaced (left_joined (quotient_above_six 0) (above_one 0 ∷ []))
        (project (filter (above_one 0 ∷ []) (filter [] (join true (filter [] (scan 0 0)) (filter [] (scan 1 1)) (quotient_above_six 0 ∷ []) []))) (column 0 Integer ∷ [])) }
    ensures of_where { IsWellPlaced (left_joined (is_next 0 64) (quotient_above_six 0 ∷ above_one 0 ∷ []))
        (project (filter (quotient_above_six 0 ∷ above_one 0 ∷ []) (filter [] (join true (filter [] (scan 0 0)) (filter [] (scan 1 1)) (is_next 0 64 ∷ []) (0 ∷ [])))) (column 0 Integer ∷ [])) }
{}

/// `A.ID = A.ID + 1` is no key of a join of A and B, of one side alone as it is; nor is `A.ID = B.PRICE`, of numbers of two scales, nor
/// `A.ID = 2`, nor an equality behind one that can raise. A conjunct without a column, `1 = 2`, stays in WHERE.
pub fn no_keys()
    ensures one_side { keys_from (is_of (0 ∷ [])) (is_of (1 ∷ [])) 0 (is_next 0 0 ∷ []) ≡ [] }
    ensures two_sides { keys_from (is_of (0 ∷ [])) (is_of (1 ∷ [])) 0 (is_next 0 0 ∷ is_next 64 0 ∷ is_next 0 64 ∷ []) ≡ 1 ∷ 2 ∷ [] }
    ensures two_scales { keys_from (is_of (0 ∷ [])) (is_of (1 ∷ [])) 0 (comparison Equal (column 0 Integer) (column 65 (Decimal 9 2)) ∷ []) ≡ [] }
    ensures literal { keys_from (is_of (0 ∷ [])) (is_of (1 ∷ [])) 0 (comparison Equal (column 0 Integer) (number (pos 2) 0) ∷ []) ≡ [] }
    ensures behind { keys_from (is_of (0 ∷ [])) (is_of (1 ∷ [])) 0 (quotient_above_six 0 ∷ is_next 0 64 ∷ []) ≡ [] }
    ensures no_column { IsWellPlaced (record next_items { conjuncts = comparison Equal (number (pos 1) 0) (number (pos 2) 0) ∷ [] })
        (project (filter (comparison Equal (number (pos 1) 0) (number (pos 2) 0) ∷ []) (join false (filter [] (scan 0 3)) (filter [] (scan 1 3)) [] [])) (column 0 Integer ∷ column 64 Integer ∷ [])) }
{}

/// The plan of `ITEM A, ITEM B WHERE ..` may be rewritten; one over a DECIMAL(40, 2), or that compares a number with a date, may not.
pub fn sized_plans()
    ensures taken { IsSizedPlan (written next_items) }
    ensures other_size { IsSizedPlan (filter (comparison Equal (column 0 (Decimal 40 2)) (column 0 (Decimal 40 2)) ∷ []) (scan 0 0)) → ⊥ }
    ensures other_kind { IsSizedPlan (filter (comparison Equal (column 0 Integer) (column 2 Date) ∷ []) (scan 0 0)) → ⊥ }
{}

/// `A.ID > 2` stands too high above a product or at a join, but not behind a conjunct that can raise; at B's scan it has no column of A. A
/// conjunct that can raise isn't dropped from its clause. Above a LEFT JOIN `B.K > 1` stands as low as it can, and `A.ID > 2` doesn't; its ON
/// stays there.
pub fn places()
    ensures above_product { StandLow true (filter (above_two ∷ []) (join false (filter [] (scan 0 3)) (filter [] (scan 1 3)) [] [])) → ⊥ }
    ensures at_join { StandLow true (join false (filter [] (scan 0 3)) (filter [] (scan 1 3)) (above_two ∷ []) []) → ⊥ }
    ensures behind { StandLow true (filter (quotient_above_six 0 ∷ above_two ∷ []) (join false (filter [] (scan 0 3)) (filter [] (scan 1 3)) [] [])) }
    ensures other_side { NamesBelow (join false (filter [] (scan 0 3)) (filter (above_two ∷ []) (scan 1 3)) [] []) → ⊥ }
    ensures dropped { StayInOrder true (filter (quotient_above_six 0 ∷ []) (scan 0 3)) (filter [] (filter [] (scan 0 3))) → ⊥ }
    ensures above_outer { StandLow true (filter (above_one 64 ∷ []) (join true (filter [] (scan 0 0)) (filter [] (scan 1 1)) (is_next 0 64 ∷ []) [])) }
    ensures left_above_outer { StandLow true (filter (above_two ∷ []) (join true (filter [] (scan 0 3)) (filter [] (scan 1 3)) (is_next 0 64 ∷ []) [])) → ⊥ }
    ensures own_of_outer { StayInOrder true (join true (scan 0 0) (scan 1 1) (is_next 0 64 ∷ []) []) (filter [] (join true (filter [] (scan 0 0)) (filter [] (scan 1 1)) [] [])) → ⊥ }
{}
