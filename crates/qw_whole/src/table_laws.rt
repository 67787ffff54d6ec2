//! What holds of tables of groups and of distinct rows while rows come, and of the rows of groups. No function here computes anything.

ghost use Rattle.std.specs.Prelude.{◌≡◌, ◌≤◌, ℕ, ◌+◌, ◌*◌, nat_eq, if◌then◌else◌, Bool, List, [], ◌∷◌, ◌++◌, map, length, sum_by, Ok, Err};
ghost use Rattle.std.specs.List.{AllByRecursion, filter};
ghost use Rattle.qw_types.specs.declared.code.Code.{Code};
ghost use Rattle.qw_types.specs.declared.value.Val.{Val};
ghost use Rattle.qw_grouped.specs.Grouped.{Grouped, IsGrouped};
ghost use Rattle.qw_grouped.specs.Groups.{Group, group_row, groups, keys, members, once, values_at};
ghost use Rattle.qw_grouped.specs.SetFunctions.{set_function_value};
ghost use Rattle.qw_grouped.specs.declared.set_function.SetFunctionKind.{SetFunctionKind};
ghost use Rattle.qw_whole.specs.GroupTables.{AreValues, distinct_size, group_size};

/// While rows come, the keys so far are the first of all keys, so a slot has at most the entries that it has at last; the units of a row's slot are
/// those entries, each so many.
pub fn entries_of_slots()
    ensures keys { (columns : ℕ) (rows more : List (List Val)) → (others : List (List Val)) × (keys columns (rows ++ more) ≡ keys columns rows ++ others) }
    ensures slots { (slot : List Val → ℕ) (j columns : ℕ) (rows more : List (List Val)) →
        length (filter (λ key. nat_eq (slot key) j) (keys columns rows)) ≤ length (filter (λ key. nat_eq (slot key) j) (keys columns (rows ++ more))) }
    ensures met { (is_there : List Val → Bool) (n : ℕ) (entries : List (List Val)) → sum_by (λ other. if is_there other then n else 0) entries ≡ length (filter is_there entries) * n }
{}

/// The members of a key among all rows are those so far and those that come.
pub fn members_so_far()
    ensures { (columns : ℕ) (key : List Val) (rows more : List (List Val)) → members columns key (rows ++ more) ≡ members columns key rows ++ members columns key more }
{}

/// Where there is a row, the groups are those of the keys, each with its members, also without GROUP BY; and rows of so many values, each once, are
/// the keys of a table over all their columns.
pub fn groups_as_entries()
    ensures groups { (columns : ℕ) (row : List Val) (rows : List (List Val)) →
        groups columns (row ∷ rows) ≡ map (λ key. record { key = key; rows = members columns key (row ∷ rows) }) (keys columns (row ∷ rows)) }
    ensures distinct { (n : ℕ) (rows : List (List Val)) → AllByRecursion (λ (row : List Val). length row ≡ n) rows → keys n rows ≡ once rows }
{}

/// The row of a group is formed of the values of its set functions, one read after the other; and the first of them that raises is raised.
pub fn rows_of_groups()
    ensures formed { (columns : ℕ) (functions : List SetFunctionKind) (group : Group) (values : List Val) → AreValues columns functions group.rows values →
        group_row columns functions group ≡ Ok ((group.key ++ values) ∷ []) }
    ensures raises { (columns : ℕ) (before : List SetFunctionKind) (f : SetFunctionKind) (after : List SetFunctionKind) (group : Group) (values : List Val) (code : Code) →
        AreValues columns before group.rows values → set_function_value f (values_at (columns + length before) group.rows) ≡ Err code →
        group_row columns (before ++ f ∷ after) group ≡ Err code }
{}

/// The entry of a group has at most 16,408 octets, and that of a distinct row of at most 512 cells 8,216.
pub fn sizes_of_entries()
    ensures group { (query : Grouped) → IsGrouped query → group_size query ≤ 16408 }
    ensures distinct { (items : ℕ) → items ≤ 512 → distinct_size items ≤ 8216 }
{}
