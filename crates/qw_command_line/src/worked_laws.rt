//! Words by their reading, worked out. No function here computes anything.
#![tactic(auto, unfolding(crate::specs::Words::reading, clap::proofs::OnLiterals::clap_on_literals))]

ghost use Rattle.std.specs.Prelude.{◌≡◌, ◌-◌, ◌^◌, [], ◌∷◌, codes, Some, None, replicate, true, false};
ghost use Rattle.qw_command_line.specs.LayoutWords.{layout_reading};
ghost use Rattle.qw_command_line.specs.Words as spec;
ghost use Rattle.qw_command_line.specs.Worked.{run_with, runs, with_files};
ghost use Rattle.qw_command_line.specs.declared.command.Number.TheVariants.{Quantum, Pages, Steps, Statement, Seed, Rows, Null, Parts};

/// Words of `run`, `compile` and `check`, and words that are refused: the number of a statement may have leading zeros, but no sign, and is from 1
/// to 64; the option stands anywhere, with or without `=`; `run` has its default options; a request for help is none of the commands.
pub fn worked_words()
    ensures run { spec.reading (codes "run" ∷ codes "s" ∷ codes "d" ∷ codes "q" ∷ []) ≡ spec.command (spec.run (record { schema = codes "s"; folder = codes "d"; queries = codes "q"; null = None; parts = None }) spec.default_options) }
    ensures defaults { spec.default_options ≡ record { pages = 128; steps = 10 ^ 18 - 1; quantum = 10000; counts = false } }
    ensures compile { spec.reading (codes "compile" ∷ codes "s" ∷ codes "q" ∷ codes "--statement" ∷ codes "1" ∷ []) ≡ spec.command (spec.compile (record { schema = codes "s"; queries = codes "q" }) 1) }
    ensures equals_sign { spec.reading (codes "compile" ∷ codes "--statement=064" ∷ codes "s" ∷ codes "q" ∷ []) ≡ spec.command (spec.compile (record { schema = codes "s"; queries = codes "q" }) 64) }
    ensures check { spec.reading (codes "check" ∷ codes "m" ∷ []) ≡ spec.command (spec.check (codes "m")) }
    ensures zero { spec.reading (codes "compile" ∷ codes "s" ∷ codes "q" ∷ codes "--statement" ∷ codes "0" ∷ []) ≡ spec.out_of_range Statement }
    ensures large { spec.reading (codes "compile" ∷ codes "s" ∷ codes "q" ∷ codes "--statement" ∷ codes "65" ∷ []) ≡ spec.out_of_range Statement }
    ensures sign { spec.reading (codes "compile" ∷ codes "s" ∷ codes "q" ∷ codes "--statement" ∷ codes "+1" ∷ []) ≡ spec.out_of_range Statement }
    ensures no_statement { spec.reading (codes "compile" ∷ codes "s" ∷ codes "q" ∷ []) ≡ spec.no_command }
    ensures nothing { spec.reading [] ≡ spec.no_command }
    ensures too_few { spec.reading (codes "run" ∷ codes "s" ∷ codes "d" ∷ []) ≡ spec.no_command }
    ensures too_many { spec.reading (codes "check" ∷ codes "m" ∷ codes "n" ∷ []) ≡ spec.no_command }
    ensures option { spec.reading (codes "run" ∷ codes "-s" ∷ codes "d" ∷ codes "q" ∷ []) ≡ spec.no_command }
    ensures help { spec.reading (codes "check" ∷ codes "--help" ∷ []) ≡ spec.no_command }
    ensures other { spec.reading (codes "generate" ∷ codes "7" ∷ codes "0" ∷ []) ≡ spec.no_command }
{}

/// Words of `gen`: both ends of the ranges of its seed and of its rows, and words beside them; its options, which are those of `run`; and of several
/// numbers the first of the seed, the rows and the options is told.
pub fn worked_generation()
    ensures least { spec.reading (codes "gen" ∷ codes "0" ∷ codes "0" ∷ []) ≡ spec.command (spec.gen 0 0 spec.default_options) }
    ensures greatest { spec.reading (codes "gen" ∷ codes "18446744073709551615" ∷ codes "100000" ∷ []) ≡ spec.command (spec.gen (2 ^ 64 - 1) (10 ^ 5) spec.default_options) }
    ensures large_seed { spec.reading (codes "gen" ∷ codes "18446744073709551616" ∷ codes "0" ∷ []) ≡ spec.out_of_range Seed }
    ensures many_rows { spec.reading (codes "gen" ∷ codes "0" ∷ codes "100001" ∷ []) ≡ spec.out_of_range Rows }
    ensures letters { spec.reading (codes "gen" ∷ codes "seed" ∷ codes "0" ∷ []) ≡ spec.out_of_range Seed }
    ensures sign { spec.reading (codes "gen" ∷ codes "0" ∷ codes "+1" ∷ []) ≡ spec.out_of_range Rows }
    ensures below { spec.reading (codes "gen" ∷ codes "-1" ∷ codes "0" ∷ []) ≡ spec.no_command }
    ensures first { spec.reading (codes "gen" ∷ codes "x" ∷ codes "x" ∷ codes "--pages=0" ∷ []) ≡ spec.out_of_range Seed }
    ensures second { spec.reading (codes "gen" ∷ codes "0" ∷ codes "x" ∷ codes "--pages=0" ∷ []) ≡ spec.out_of_range Rows }
    ensures third { spec.reading (codes "gen" ∷ codes "0" ∷ codes "0" ∷ codes "--pages=0" ∷ []) ≡ spec.out_of_range Pages }
    ensures options { spec.reading (codes "gen" ∷ codes "--pages=5" ∷ codes "7" ∷ codes "--stats" ∷ codes "100" ∷ codes "--steps" ∷ codes "7" ∷ codes "--quantum=009" ∷ [])
        ≡ spec.command (spec.gen 7 100 (record { pages = 5; steps = 7; quantum = 9; counts = true })) }
    ensures no_rows { spec.reading (codes "gen" ∷ codes "7" ∷ []) ≡ spec.no_command }
    ensures too_many { spec.reading (codes "gen" ∷ codes "7" ∷ codes "0" ∷ codes "0" ∷ []) ≡ spec.no_command }
{}

/// The options of `run` that are numbers, at both ends of their ranges and beside them.
pub fn worked_ranges()
    ensures least_quantum { run_with (codes "--quantum" ∷ codes "1" ∷ []) ≡ runs (record spec.default_options { quantum = 1 }) }
    ensures greatest_quantum { run_with (codes "--quantum" ∷ codes "1000000000" ∷ []) ≡ runs (record spec.default_options { quantum = 10 ^ 9 }) }
    ensures no_quantum { run_with (codes "--quantum" ∷ codes "0" ∷ []) ≡ spec.out_of_range Quantum }
    ensures large_quantum { run_with (codes "--quantum" ∷ codes "1000000001" ∷ []) ≡ spec.out_of_range Quantum }
    ensures least_pages { run_with (codes "--pages" ∷ codes "1" ∷ []) ≡ runs (record spec.default_options { pages = 1 }) }
    ensures greatest_pages { run_with (codes "--pages" ∷ codes "65535" ∷ []) ≡ runs (record spec.default_options { pages = 65535 }) }
    ensures no_pages { run_with (codes "--pages" ∷ codes "0" ∷ []) ≡ spec.out_of_range Pages }
    ensures large_pages { run_with (codes "--pages" ∷ codes "65536" ∷ []) ≡ spec.out_of_range Pages }
    ensures least_steps { run_with (codes "--steps" ∷ codes "1" ∷ []) ≡ runs (record spec.default_options { steps = 1 }) }
    ensures greatest_steps { run_with (codes "--steps" ∷ codes "999999999999999999" ∷ []) ≡ runs (record spec.default_options { steps = 10 ^ 18 - 1 }) }
    ensures no_steps { run_with (codes "--steps" ∷ codes "0" ∷ []) ≡ spec.out_of_range Steps }
    ensures large_steps { run_with (codes "--steps" ∷ codes "1000000000000000000" ∷ []) ≡ spec.out_of_range Steps }
{}

/// Options of `run` stand anywhere behind the command, with or without `=`. A value that isn't digits is out of range, and of several
/// numbers the first of quantum, pages and steps is told. An option without its value, one with a value that has none, one that is given
/// twice, one before the command, and one of another command are refused.
pub fn worked_options()
    ensures counts { run_with (codes "--stats" ∷ []) ≡ runs (record spec.default_options { counts = true }) }
    ensures anywhere { spec.reading (codes "run" ∷ codes "--pages=5" ∷ codes "s" ∷ codes "--stats" ∷ codes "d" ∷ codes "--steps" ∷ codes "7" ∷ codes "q" ∷ codes "--quantum=009" ∷ [])
        ≡ runs (record { pages = 5; steps = 7; quantum = 9; counts = true }) }
    ensures letters { run_with (codes "--pages" ∷ codes "5x" ∷ []) ≡ spec.out_of_range Pages }
    ensures empty { run_with (codes "--steps" ∷ [] ∷ []) ≡ spec.out_of_range Steps }
    ensures below { run_with (codes "--pages=-5" ∷ []) ≡ spec.out_of_range Pages }
    ensures first { run_with (codes "--steps" ∷ codes "0" ∷ codes "--pages" ∷ codes "0" ∷ codes "--quantum" ∷ codes "0" ∷ []) ≡ spec.out_of_range Quantum }
    ensures second { run_with (codes "--steps" ∷ codes "0" ∷ codes "--pages" ∷ codes "0" ∷ []) ≡ spec.out_of_range Pages }
    ensures no_value { run_with (codes "--pages" ∷ []) ≡ spec.no_command }
    ensures some_value { run_with (codes "--stats=true" ∷ []) ≡ spec.no_command }
    ensures twice { run_with (codes "--pages" ∷ codes "5" ∷ codes "--pages" ∷ codes "5" ∷ []) ≡ spec.no_command }
    ensures before { spec.reading (codes "--stats" ∷ codes "run" ∷ codes "s" ∷ codes "d" ∷ codes "q" ∷ []) ≡ spec.no_command }
    ensures other { spec.reading (codes "check" ∷ codes "m" ∷ codes "--stats" ∷ []) ≡ spec.no_command }
{}

/// The text that stands for null has 1 to 100 octets, of any kind, and table files have 1 to 999 parts, a number of digits alone. The text is told
/// before the parts, and both behind the other numbers. None of the other commands has either.
pub fn worked_table_files()
    ensures null { run_with (codes "--null" ∷ codes "NULL" ∷ []) ≡ with_files (Some (codes "NULL")) None }
    ensures sign { run_with (codes "--null=-" ∷ []) ≡ with_files (Some (codes "-")) None }
    ensures longest { run_with (codes "--null" ∷ replicate 100 78 ∷ []) ≡ with_files (Some (replicate 100 78)) None }
    ensures too_long { run_with (codes "--null" ∷ replicate 101 78 ∷ []) ≡ spec.out_of_range Null }
    ensures empty { run_with (codes "--null" ∷ [] ∷ []) ≡ spec.out_of_range Null }
    ensures one { run_with (codes "--parts" ∷ codes "1" ∷ []) ≡ with_files None (Some 1) }
    ensures most { run_with (codes "--parts" ∷ codes "999" ∷ []) ≡ with_files None (Some 999) }
    ensures none { run_with (codes "--parts" ∷ codes "0" ∷ []) ≡ spec.out_of_range Parts }
    ensures many { run_with (codes "--parts" ∷ codes "1000" ∷ []) ≡ spec.out_of_range Parts }
    ensures signed { run_with (codes "--parts" ∷ codes "+2" ∷ []) ≡ spec.out_of_range Parts }
    ensures letters { run_with (codes "--parts" ∷ codes "two" ∷ []) ≡ spec.out_of_range Parts }
    ensures both { run_with (codes "--parts=2" ∷ codes "--null=N" ∷ []) ≡ with_files (Some (codes "N")) (Some 2) }
    ensures first { run_with (codes "--parts=0" ∷ codes "--null=" ∷ codes "--steps=0" ∷ []) ≡ spec.out_of_range Steps }
    ensures second { run_with (codes "--parts=0" ∷ codes "--null=" ∷ []) ≡ spec.out_of_range Null }
    ensures generation { spec.reading (codes "gen" ∷ codes "0" ∷ codes "0" ∷ codes "--null=N" ∷ []) ≡ spec.no_command }
    ensures generation_parts { spec.reading (codes "gen" ∷ codes "0" ∷ codes "0" ∷ codes "--parts=1" ∷ []) ≡ spec.no_command }
    ensures compile { spec.reading (codes "compile" ∷ codes "s" ∷ codes "q" ∷ codes "--statement=1" ∷ codes "--null=N" ∷ []) ≡ spec.no_command }
    ensures check { spec.reading (codes "check" ∷ codes "m" ∷ codes "--parts=1" ∷ []) ≡ spec.no_command }
{}

/// Words of `qwasm-layout`, which are those of `compile` without its name, and are refused as these are.
#[tactic(auto, unfolding(crate::specs::LayoutWords::layout_reading, clap::proofs::OnLiterals::clap_on_literals))]
pub fn worked_layout_words()
    ensures statement { layout_reading (codes "s" ∷ codes "q" ∷ codes "--statement" ∷ codes "1" ∷ []) ≡ spec.command (spec.compile (record { schema = codes "s"; queries = codes "q" }) 1) }
    ensures anywhere { layout_reading (codes "--statement=064" ∷ codes "s" ∷ codes "q" ∷ []) ≡ spec.command (spec.compile (record { schema = codes "s"; queries = codes "q" }) 64) }
    ensures zero { layout_reading (codes "s" ∷ codes "q" ∷ codes "--statement" ∷ codes "0" ∷ []) ≡ spec.out_of_range Statement }
    ensures large { layout_reading (codes "s" ∷ codes "q" ∷ codes "--statement" ∷ codes "65" ∷ []) ≡ spec.out_of_range Statement }
    ensures sign { layout_reading (codes "s" ∷ codes "q" ∷ codes "--statement" ∷ codes "+1" ∷ []) ≡ spec.out_of_range Statement }
    ensures no_statement { layout_reading (codes "s" ∷ codes "q" ∷ []) ≡ spec.no_command }
    ensures too_few { layout_reading (codes "s" ∷ codes "--statement=1" ∷ []) ≡ spec.no_command }
    ensures too_many { layout_reading (codes "compile" ∷ codes "s" ∷ codes "q" ∷ codes "--statement=1" ∷ []) ≡ spec.no_command }
    ensures nothing { layout_reading [] ≡ spec.no_command }
    ensures help { layout_reading (codes "--help" ∷ []) ≡ spec.no_command }
{}
