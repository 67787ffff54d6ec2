//! Small texts, octet by octet. No function here computes anything.

ghost use Rattle.std.specs.Prelude.{◌≡◌, ◌++◌, ◌∷◌, [], true, false, Some, codes};
ghost use Rattle.serde_json.specs.Written.{compact_text};
ghost use Rattle.qw_module.specs.declared.module.Import.TheVariants as import;
ghost use Rattle.qw_types.specs.declared.kind.Kind.TheVariants as kind;
ghost use Rattle.qw_describe.specs.Description.{told, told_head, told_import, told_key};
ghost use Rattle.qw_describe.specs.Worked.{item_table, module_imports, pens_header, pens_layout};

/// What is told of `SELECT ID, PRICE FROM ITEM WHERE LABEL = 'pen' ORDER BY PRICE DESC`.
pub fn description_of_pens()
    ensures { compact_text (told (item_table ∷ []) module_imports pens_layout pens_header (record { position = 1; is_descending = true } ∷ []))
        ≡ codes "{\"columns\":[{\"column\":3,\"table\":0},{\"column\":0,\"table\":0},{\"column\":1,\"table\":0}],"
        ++ (codes "\"imports\":[{\"kind\":\"memory\",\"max\":null,\"min\":1,\"module\":\"q\",\"name\":\"memory\"},"
        ++ (codes "{\"kind\":\"function\",\"module\":\"q\",\"name\":\"raise\"},{\"kind\":\"function\",\"module\":\"q\",\"name\":\"pages\"}],"
        ++ (codes "\"literals\":[112,101,110],\"order\":[{\"descending\":true,\"position\":1}],"
        ++ (codes "\"results\":[{\"kind\":{\"name\":\"NUMBER\",\"scale\":0},\"name\":\"ID\"},{\"kind\":{\"name\":\"NUMBER\",\"scale\":2},\"name\":\"PRICE\"}],"
        ++ (codes "\"tables\":[{\"columns\":[{\"name\":\"ID\",\"null\":false,\"type\":{\"name\":\"INTEGER\"}},"
        ++ (codes "{\"name\":\"PRICE\",\"null\":true,\"type\":{\"name\":\"DECIMAL\",\"precision\":9,\"scale\":2}},"
        ++ (codes "{\"name\":\"SOLD\",\"null\":true,\"type\":{\"name\":\"DATE\"}},"
        ++ codes "{\"name\":\"LABEL\",\"null\":true,\"type\":{\"length\":10,\"name\":\"VARCHAR\"}}],\"name\":\"ITEM\"}]}"))))))) }
{}

/// A memory with a greatest number of pages, result columns of dates and of texts, one with quotes in its name, and a key without DESC.
pub fn other_parts()
    ensures memory { compact_text (told_import (import.Memory (record { min = 1; max = Some 65535 })))
        ≡ codes "{\"kind\":\"memory\",\"max\":65535,\"min\":1,\"module\":\"q\",\"name\":\"memory\"}" }
    ensures date { compact_text (told_head (record { name = codes "SOLD"; kind = kind.Date })) ≡ codes "{\"kind\":{\"name\":\"DATE\"},\"name\":\"SOLD\"}" }
    ensures quotes { compact_text (told_head (record { name = codes "the \"label\""; kind = kind.Text }))
        ≡ codes "{\"kind\":{\"name\":\"TEXT\"},\"name\":\"the \\\"label\\\"\"}" }
    ensures ascending { compact_text (told_key (record { position = 0; is_descending = false })) ≡ codes "{\"descending\":false,\"position\":0}" }
{}
