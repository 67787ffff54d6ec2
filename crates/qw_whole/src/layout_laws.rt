//! What the layout of a query is, and worked cases, counted by hand. No function here computes anything.

ghost use Rattle.std.specs.Prelude.{◌≡◌, ℕ, pos, false, true, List, [], ◌∷◌};
ghost use Rattle.qw_types.specs.declared.kind.Kind.{Kind};
ghost use Rattle.qw_types.specs.declared.value.Ty.TheVariants.{Integer, Varchar};
ghost use Rattle.qw_scalar.specs.declared.comparison.Comparison.TheVariants.{Equal, Greater};
ghost use Rattle.qw_scalar.specs.Expression.{between, case, coalesced, column, comparison, last, more, number, text};
ghost use Rattle.qw_scalar.specs.WorkedRows.{ink, pen};
ghost use Rattle.qw_meaning.specs.Select.{alone};
ghost use Rattle.qw_meaning.specs.WorkedQueries.{a_joined_b, items_entry, one_column};
ghost use Rattle.qw_grouped.specs.Whole.{Whole, grouped, plain};
ghost use Rattle.qw_grouped.specs.WorkedGroups.{applied_to, by_price, id, label, label_at, number_at, of_items};
ghost use Rattle.qw_grouped.specs.declared.set_function.SetFunctionKind.TheVariants.{Max, Sum};
ghost use Rattle.qw_map.specs.Layout.{Layout};
ghost use Rattle.qw_map.specs.declared.layout.Used.{Used};
ghost use Rattle.qw_whole.specs.Layouts.{IsLayoutOf, columns_read, texts_of};
ghost use Rattle.qw_whole.specs.WorkedLayouts.{id_column, label_column, pens_from_two};

/// The columns that a layout of a query has are one list: who has the query can write the descriptor.
pub fn columns_are_told()
    ensures { (whole : Whole) (a b : Layout) → IsLayoutOf whole a → IsLayoutOf whole b → a.columns ≡ b.columns }
{}

/// `SELECT LABEL FROM ITEM WHERE ID > 2 AND LABEL = 'pen'` reads ID and then LABEL, since WHERE names them in this order, and has the octets of
/// 'pen'. A layout that has LABEL first, one without ID, one with a column besides, one of no column, as a constant module would have, and one without
/// the text are none of the query.
pub fn layouts_of_pens()
    ensures is { (cells : List Kind) → IsLayoutOf pens_from_two (record { columns = id_column ∷ label_column ∷ []; literals = pen; cells = cells }) }
    ensures turned { (literals : List ℕ) (cells : List Kind) → IsLayoutOf pens_from_two (record { columns = label_column ∷ id_column ∷ []; literals = literals; cells = cells }) → ⊥ }
    ensures lacking { (literals : List ℕ) (cells : List Kind) → IsLayoutOf pens_from_two (record { columns = label_column ∷ []; literals = literals; cells = cells }) → ⊥ }
    ensures more { (used : Used) (literals : List ℕ) (cells : List Kind) → IsLayoutOf pens_from_two (record { columns = id_column ∷ label_column ∷ used ∷ []; literals = literals; cells = cells }) → ⊥ }
    ensures none { (literals : List ℕ) (cells : List Kind) → IsLayoutOf pens_from_two (record { columns = []; literals = literals; cells = cells }) → ⊥ }
    ensures no_text { (cells : List Kind) → IsLayoutOf pens_from_two (record { columns = id_column ∷ label_column ∷ []; literals = []; cells = cells }) → ⊥ }
{}

/// Of `SELECT LABEL FROM ITEM WHERE LABEL BETWEEN 'ink' AND 'pen'`, which names LABEL and both texts, the column is read once. Of `SELECT A.K FROM A JOIN B
/// ON A.K = B.K` column 0 of the first and of the second entry are. Of `SELECT 'pen' FROM A, B` no column is named: the first of each is read. Of
/// `SELECT B.K FROM A, B` that of B is named, and stands before the one of A.
pub fn columns_of_queries()
    ensures once { columns_read (plain (record { sources = alone items_entry ∷ []; conjuncts = between label (text ink) (text pen) ∷ []; items = label ∷ [] })) ≡ 3 ∷ [] }
    ensures joined { columns_read (plain (record { sources = a_joined_b 0 ∷ []; conjuncts = []; items = column 0 Integer ∷ [] })) ≡ 0 ∷ 64 ∷ [] }
    ensures none { columns_read (plain (record { sources = alone (one_column 0) ∷ alone (one_column 1) ∷ []; conjuncts = []; items = text pen ∷ [] })) ≡ 0 ∷ 64 ∷ [] }
    ensures first_named { columns_read (plain (record { sources = alone (one_column 0) ∷ alone (one_column 1) ∷ []; conjuncts = []; items = column 64 Integer ∷ [] })) ≡ 64 ∷ 0 ∷ [] }
{}

/// `SELECT 'ink', MAX(LABEL), SUM(ID) FROM ITEM WHERE LABEL > 'pen' GROUP BY PRICE HAVING MAX(LABEL) > 'm'` reads LABEL, which WHERE names, PRICE, by
/// which it is grouped, and ID; its texts are 'pen', 'm', which HAVING has, and 'ink' (7.7, 7.8).
pub fn layout_of_groups()
    ensures columns { columns_read (grouped (of_items (comparison Greater label (text pen) ∷ []) (by_price ∷ []) (applied_to Max label ∷ applied_to Sum id ∷ []) (comparison Greater (label_at 1) (text (109 ∷ [])) ∷ []) (text ink ∷ label_at 1 ∷ number_at 0 2 ∷ []))) ≡ 3 ∷ 1 ∷ 0 ∷ [] }
    ensures texts { texts_of (grouped (of_items (comparison Greater label (text pen) ∷ []) (by_price ∷ []) (applied_to Max label ∷ applied_to Sum id ∷ []) (comparison Greater (label_at 1) (text (109 ∷ [])) ∷ []) (text ink ∷ label_at 1 ∷ number_at 0 2 ∷ []))) ≡ pen ∷ (109 ∷ []) ∷ ink ∷ [] }
{}

/// The layout of `SELECT COALESCE('pen', LABEL) FROM ITEM`, which is `CASE WHEN 'pen' IS NOT NULL THEN 'pen' ELSE LABEL END`, may
/// have the octets of 'pen' once (6.9).
pub fn texts_of_abbreviations()
    ensures is { (cells : List Kind) → IsLayoutOf (record { body = plain (record { sources = alone items_entry ∷ []; conjuncts = []; items = case (coalesced (more (text pen) (last label))) ∷ [] }); distinct = false }) (record { columns = label_column ∷ []; literals = pen; cells = cells }) }
{}
