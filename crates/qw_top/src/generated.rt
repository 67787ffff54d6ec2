//! The files of generated input, which a run reads as it reads those of a folder.

ghost use Rattle.std.specs.Prelude.{◌≡◌, ℕ};
ghost use Rattle.qw_generate.specs.Generated.{queries_text, sale_text, schema_text, shop_text};
ghost use Rattle.qw_top.specs.Generated.{generated_files, generated_names, text_named};
ghost use Rattle.qw_command_line.specs.Read.{names_of};

use qw_command_line::command::{RunOptions, RunWords};
use qw_generate::Input;
use qw_io::{IoFault, Shelf, copy_piece};

/// How many octets a call reads, at most.
const PIECE: usize = 65_536;

/// Generated input as files. A name that none of its texts has is that of an empty file, so no reading fails.
#[derive(Drop)]
pub(crate) struct GeneratedFiles {
    input: Input,
}

impl GeneratedFiles {
    /// The files of this input, which a seed and a number of rows generate.
    pub(crate) fn new(input: Input) -> Self
        ensures files { (seed rows : ℕ) → input.schema ≡ schema_text → input.sale ≡ sale_text seed rows → input.shop ≡ shop_text → input.queries ≡ queries_text
            → ⟦<GeneratedFiles as Shelf>⟧.files result ≡ generated_files seed rows }
        ensures no_faults { ⟦<GeneratedFiles as Shelf>⟧.faults result ≡ 0 }
    {
        GeneratedFiles { input }
    }

    /// The text of the file of this name.
    fn text(&self, name: &str) -> &str
        ensures { result.now ≡ text_named self.now.input.schema self.now.input.sale self.now.input.shop self.now.input.queries name.now }
    {
        let input = &self.input;
        if name == "schema.sql" {
            input.schema.as_str()
        } else if name == "./sale.csv" {
            input.sale.as_str()
        } else if name == "./shop.csv" {
            input.shop.as_str()
        } else if name == "queries.sql" {
            input.queries.as_str()
        } else {
            ""
        }
    }
}

impl Shelf for GeneratedFiles {
    ghost use Rattle.std.specs.Prelude.{Some, false};
    ghost use Rattle.qw_top.specs.Generated.{text_named};

    ghost files = { λ s. Some (λ name. Some (text_named s.input.schema s.input.sale s.input.shop s.input.queries name)) };

    ghost faults = { λ _. 0 };

    ghost takes_memory = { false };

    fn fetch(&mut self, name: &str, at: u64, into: &mut [u8]) -> Result<usize, IoFault> {
        Ok(copy_piece(self.text(name).as_bytes(), at, PIECE, into))
    }
}

/// The words of a run of generated files with these options.
pub(crate) fn words_of<'a>(options: RunOptions) -> RunWords<'a>
    ensures names { names_of result ≡ generated_names }
    ensures options { result.options ≡ options }
{
    RunWords {
        schema: "schema.sql",
        folder: ".",
        queries: "queries.sql",
        null: None,
        parts: None,
        options,
    }
}
