//! From the pipelines of what reaches GROUP BY, and what is behind them, to the steps of the module of a grouped query, with its locals and its layout; the same
//! without GROUP BY, and with DISTINCT.

ghost use Rattle.std.specs.Prelude.{◌≡◌, ◌≤◌, ◌+◌, ◌++◌, [], ◌∷◌, eqb, length, map, IfOk, IfSome, IsSome, IsUtf8};
ghost use Rattle.std.specs.List.{AllByRecursion, IsDistinct, concat};
ghost use Rattle.qw_types.specs.Value.{IsSized};
ghost use Rattle.qw_scalar.specs.Nodes.{nodes, nodes_of};
ghost use Rattle.qw_physical.specs.Coded.{pipeline_of};
ghost use Rattle.qw_physical.specs.Named.{numbers};
ghost use Rattle.qw_physical.specs.declared.pipeline.ReadColumn as reads;
ghost use Rattle.qw_physical.specs.Sizes.{size};
ghost use Rattle.qw_operator.specs.Takes.{CanCarry};
ghost use Rattle.qw_operator.specs.Grouping as grouping;
ghost use Rattle.qw_operator.specs.Grouping.{CanGroup};
ghost use Rattle.qw_group_pipeline.specs.Groups.{all_anywhere};
ghost use Rattle.qw_compile.specs.QueryMade.{CanStand, literals_by};
ghost use Rattle.qw_compile.specs.Limits.{keys_built, keys_sought, lookups};
ghost use Rattle.qw_compile_whole.specs.GroupedLimits.{AreShortGrouped};
ghost use Rattle.qw_compile_whole.specs.GroupedMade.{IsGroupedMade};
ghost use Rattle.qw_compile_whole.specs.GroupedPlaced.{LastSelects, Selects, group_over};
ghost use Rattle.qw_compile_whole.specs.SingleMade.{IsSingleMade};
ghost use Rattle.qw_compile_whole.specs.DistinctMade.{IsDistinctMade};

use crate::entering::{Again, emit_distinct_parts};
use crate::gathering::emit_parts;
use crate::statement_around::{PlacedPasses, placed_passes, statement_around};
use crate::taking::emit_single_parts;
use qw_compile::query_statement::QueryStatement;
use qw_group_pipeline::columns::{GroupColumns, ValueColumn};
use qw_map::layout::Used;
use qw_physical::{Pipeline, ReadColumn};
use qw_types::{NoMemory, Text};
use std::alloc::Global;

/// The statement of pipelines of what reaches GROUP BY, of which all but the last build tables and the last makes rows of the grouped columns and of the
/// arguments of the set functions, and of what is done at the groups of these rows, over the columns that they read; in the layout these are columns of tables.
/// There are so many tables in all. Its literals are `texts`, among which are all texts of the pipelines. There is none where there are too many literals.
///
/// # Errors
///
/// [`NoMemory`] where memory does not suffice, or there are too many locals.
pub fn grouped_statement_of(
    alloc: Global,
    tables: usize,
    texts: Vec<Text>,
    pipelines: Vec<Pipeline>,
    groups: &GroupColumns,
    behind: Pipeline,
    columns: &[ReadColumn],
    used: Vec<Used>,
) -> Result<Option<QueryStatement>, NoMemory>
    requires tables { length pipelines.items ≤ tables }
    requires few { tables ≤ 8 }
    requires columns { length columns.now ≤ 512 }
    requires used { length used.items ≡ length columns.now }
    requires sized { AllByRecursion (λ (column : reads.ReadColumn). IsSized column.ty) columns.now }
    requires utf8 { AllByRecursion IsUtf8 texts.items }
    requires stand { AllByRecursion (λ p. CanStand tables texts.items (pipelines.items ++ behind ∷ []) columns.now (pipeline_of p)) pipelines.items }
    requires groups { LastSelects (λ items. CanGroup (group_over (length pipelines.items) groups.now.key.items groups.now.values.items items)) (map pipeline_of pipelines.items) }
    requires few_groups { (length groups.now.key.items ≤ 1000) × (length groups.now.values.items ≤ 1000) }
    requires sized_groups { AllByRecursion (λ c. IsSized c.ty) groups.now.key.items × AllByRecursion (λ c. IsSized c.ty) groups.now.values.items }
    requires walks { CanCarry (all_anywhere groups.now.key.items groups.now.values.items ++ literals_by tables (length columns.now) texts.items (pipelines.items ++ behind ∷ [])) (pipeline_of behind).operators (pipeline_of behind).sink }
    ensures made { IfOk result (λ found. IfSome found (λ made. (group : grouping.Group) × IsGroupedMade tables texts.items pipelines.items group groups.now.key.items groups.now.values.items behind columns.now used.items made.layout made.block.code.items made.locals.items)) }
    ensures there { AreShortGrouped pipelines.items behind (length groups.now.key.items + length groups.now.values.items) → length texts.items ≤ 4012 → length (concat texts.items) ≤ 16384 → IfOk result (λ found. IsSome found) }
    ensures short { AreShortGrouped pipelines.items behind (length groups.now.key.items + length groups.now.values.items) → length texts.items ≤ 4012 → IsDistinct eqb (numbers columns.now) → IfOk result (λ found. IfSome found (λ made. length made.block.code.items ≤ 2097152)) }
    ensures few_locals { AreShortGrouped pipelines.items behind (length groups.now.key.items + length groups.now.values.items) → length texts.items ≤ 4012 → IsDistinct eqb (numbers columns.now) → IfOk result (λ found. IfSome found (λ made. length made.locals.items ≤ 2097152)) }
{
    let found = placed_passes(alloc, tables, texts, pipelines, behind, columns)?;
    let Some(
        PlacedPasses {
            places,
            pipelines,
            behind,
            first,
        },
    ) = found
    else {
        return Ok(None);
    };
    let emitted = emit_parts(alloc, first, &places, pipelines, groups, &behind)?;
    let made = statement_around(alloc, tables, &places, emitted, columns, used)?;
    Ok(Some(made))
}

/// The statement of pipelines of the rows that set functions take, of which all but the last build tables and the last makes rows of their arguments, and of
/// what is done at the one group of these rows, over the columns that they read; in the layout these are columns of tables. There are so many tables in all. Its
/// literals are `texts`, among which are all texts of the pipelines. There is none where there are too many literals.
///
/// # Errors
///
/// [`NoMemory`] where memory does not suffice, or there are too many locals.
pub fn single_statement_of(
    alloc: Global,
    tables: usize,
    texts: Vec<Text>,
    pipelines: Vec<Pipeline>,
    values: &[ValueColumn],
    behind: Pipeline,
    columns: &[ReadColumn],
    used: Vec<Used>,
) -> Result<Option<QueryStatement>, NoMemory>
    requires tables { length pipelines.items ≤ tables }
    requires few { tables ≤ 8 }
    requires columns { length columns.now ≤ 512 }
    requires used { length used.items ≡ length columns.now }
    requires sized { AllByRecursion (λ (column : reads.ReadColumn). IsSized column.ty) columns.now }
    requires utf8 { AllByRecursion IsUtf8 texts.items }
    requires stand { AllByRecursion (λ p. CanStand tables texts.items (pipelines.items ++ behind ∷ []) columns.now (pipeline_of p)) pipelines.items }
    requires groups { LastSelects (λ items. CanGroup (group_over (length pipelines.items) [] values.now items)) (map pipeline_of pipelines.items) }
    requires few_values { length values.now ≤ 1000 }
    requires sized_values { AllByRecursion (λ c. IsSized c.ty) values.now }
    requires makes { CanCarry (all_anywhere [] values.now ++ literals_by tables (length columns.now) texts.items (pipelines.items ++ behind ∷ [])) (pipeline_of behind).operators (pipeline_of behind).sink }
    ensures made { IfOk result (λ found. IfSome found (λ made. (group : grouping.Group) × IsSingleMade tables texts.items pipelines.items group values.now behind columns.now used.items made.layout made.block.code.items made.locals.items)) }
    ensures there { AreShortGrouped pipelines.items behind (length values.now) → length texts.items ≤ 4012 → length (concat texts.items) ≤ 16384 → IfOk result (λ found. IsSome found) }
    ensures short { AreShortGrouped pipelines.items behind (length values.now) → length texts.items ≤ 4012 → IsDistinct eqb (numbers columns.now) → IfOk result (λ found. IfSome found (λ made. length made.block.code.items ≤ 2097152)) }
    ensures few_locals { AreShortGrouped pipelines.items behind (length values.now) → length texts.items ≤ 4012 → IsDistinct eqb (numbers columns.now) → IfOk result (λ found. IfSome found (λ made. length made.locals.items ≤ 2097152)) }
{
    let found = placed_passes(alloc, tables, texts, pipelines, behind, columns)?;
    let Some(
        PlacedPasses {
            places,
            pipelines,
            behind,
            first,
        },
    ) = found
    else {
        return Ok(None);
    };
    let emitted = emit_single_parts(alloc, first, &places, pipelines, values, &behind)?;
    let made = statement_around(alloc, tables, &places, emitted, columns, used)?;
    Ok(Some(made))
}

/// The statement of pipelines of what reaches GROUP BY, of which all but the last build tables and the last makes rows of the grouped columns and of the
/// arguments of the set functions, of what is done at the groups of these rows, and of what is done at the distinct ones of the rows that this makes, over the
/// columns that they read; in the layout these are columns of tables. There are so many tables in all, one more than pipelines. Its literals are `texts`, among
/// which are all texts of the pipelines. There is none where there are too many literals.
///
/// # Errors
///
/// [`NoMemory`] where memory does not suffice, or there are too many locals.
pub fn distinct_statement_of(
    alloc: Global,
    tables: usize,
    texts: Vec<Text>,
    pipelines: Vec<Pipeline>,
    groups: &GroupColumns,
    behind: Pipeline,
    again: &Again,
    columns: &[ReadColumn],
    used: Vec<Used>,
) -> Result<Option<QueryStatement>, NoMemory>
    requires tables { tables ≡ length pipelines.items + 1 }
    requires few { tables ≤ 9 }
    requires columns { length columns.now ≤ 512 }
    requires used { length used.items ≡ length columns.now }
    requires sized { AllByRecursion (λ (column : reads.ReadColumn). IsSized column.ty) columns.now }
    requires utf8 { AllByRecursion IsUtf8 texts.items }
    requires stand { AllByRecursion (λ p. CanStand tables texts.items (pipelines.items ++ behind ∷ []) columns.now (pipeline_of p)) pipelines.items }
    requires groups { LastSelects (λ items. CanGroup (group_over (length pipelines.items) groups.now.key.items groups.now.values.items items)) (map pipeline_of pipelines.items) }
    requires few_groups { (length groups.now.key.items ≤ 1000) × (length groups.now.values.items ≤ 1000) }
    requires sized_groups { AllByRecursion (λ c. IsSized c.ty) groups.now.key.items × AllByRecursion (λ c. IsSized c.ty) groups.now.values.items }
    requires enters { CanCarry (all_anywhere groups.now.key.items groups.now.values.items ++ literals_by tables (length columns.now) texts.items (pipelines.items ++ behind ∷ [])) (pipeline_of behind).operators (pipeline_of behind).sink }
    requires few_again { (length again.now.columns.key.items ≤ 1000) × (length again.now.columns.values.items ≤ 1000) }
    requires sized_again { AllByRecursion (λ c. IsSized c.ty) again.now.columns.key.items × AllByRecursion (λ c. IsSized c.ty) again.now.columns.values.items }
    requires walks { CanCarry (all_anywhere again.now.columns.key.items again.now.columns.values.items ++ literals_by tables (length columns.now) texts.items (pipelines.items ++ behind ∷ [])) (pipeline_of again.now.pipeline).operators (pipeline_of again.now.pipeline).sink }
    requires same { Selects (λ items. length items ≡ length again.now.columns.key.items) (pipeline_of behind).sink }
    requires alone { (length again.now.columns.values.items ≡ 0) × (keys_sought again.now.pipeline + (keys_built again.now.pipeline + lookups again.now.pipeline) ≡ 0) }
    requires shown { size nodes nodes_of again.now.pipeline ≡ length again.now.columns.key.items }
    ensures made { IfOk result (λ found. IfSome found (λ made. IsDistinctMade tables texts.items pipelines.items groups.now.key.items groups.now.values.items behind again.now.columns.key.items again.now.columns.values.items again.now.pipeline columns.now used.items made.layout made.block.code.items made.locals.items)) }
    ensures there { AreShortGrouped pipelines.items behind (length groups.now.key.items + length groups.now.values.items + length again.now.columns.key.items) → length texts.items ≤ 4012 → length (concat texts.items) ≤ 16384 → IfOk result (λ found. IsSome found) }
    ensures short { AreShortGrouped pipelines.items behind (length groups.now.key.items + length groups.now.values.items + length again.now.columns.key.items) → length texts.items ≤ 4012 → IsDistinct eqb (numbers columns.now) → IfOk result (λ found. IfSome found (λ made. length made.block.code.items ≤ 2097152)) }
    ensures few_locals { AreShortGrouped pipelines.items behind (length groups.now.key.items + length groups.now.values.items + length again.now.columns.key.items) → length texts.items ≤ 4012 → IsDistinct eqb (numbers columns.now) → IfOk result (λ found. IfSome found (λ made. length made.locals.items ≤ 2097152)) }
{
    let found = placed_passes(alloc, tables, texts, pipelines, behind, columns)?;
    let Some(
        PlacedPasses {
            places,
            pipelines,
            behind,
            first,
        },
    ) = found
    else {
        return Ok(None);
    };
    let emitted = emit_distinct_parts(alloc, first, &places, pipelines, groups, behind, again)?;
    let made = statement_around(alloc, tables, &places, emitted, columns, used)?;
    Ok(Some(made))
}
