//! Generated input: a schema, the files of its tables, and queries.

ghost use Rattle.std.specs.Prelude.{◌≡◌, IfOk};
ghost use Rattle.qw_generate.specs.Generated.{queries_text, sale_text, schema_text, shop_text};

use crate::sale::sale_file;
use qw_types::{NoMemory, Text};
use std::alloc::Global;

/// The schema of the two tables.
const SCHEMA: &str = "\
    CREATE TABLE SALE (ID INTEGER NOT NULL, SHOP INTEGER NOT NULL, PRICE DECIMAL(9,2),\n\
    \x20 SOLD DATE NOT NULL, KIND VARCHAR(8) NOT NULL);\n\
    CREATE TABLE SHOP (ID INTEGER NOT NULL, CITY VARCHAR(8));\n";

/// The file of SHOP. SALE names shops to 20, so that some have no row here, and the last of those here has no city.
const SHOP: &str = "\
    ID,CITY\n\
    1,city1\n2,city2\n3,city3\n4,city0\n\
    5,city1\n6,city2\n7,city3\n8,city0\n\
    9,city1\n10,city2\n11,city3\n12,city0\n\
    13,city1\n14,city2\n15,city3\n16,\n";

/// The queries.
const QUERIES: &str = "\
    SELECT KIND, COUNT(*) AS N, SUM(PRICE) AS S FROM SALE GROUP BY KIND ORDER BY KIND;\n\
    SELECT CITY, COUNT(*) AS N, AVG(PRICE) AS A FROM SALE JOIN SHOP ON SALE.SHOP = SHOP.ID\n\
    \x20 GROUP BY CITY ORDER BY CITY;\n\
    SELECT COUNT(*) AS N FROM SALE LEFT JOIN SHOP ON SALE.SHOP = SHOP.ID\n\
    \x20 WHERE SHOP.ID IS NULL AND SOLD >= DATE '2005-01-01';\n";

/// What a run reads.
#[derive(Debug, Drop)]
pub struct Input {
    /// The declarations of SALE and SHOP.
    pub schema: Text,
    /// The file of SALE.
    pub sale: Text,
    /// The file of SHOP.
    pub shop: Text,
    /// Three queries over both.
    pub queries: Text,
}

/// The input that a seed gives, with so many rows of SALE. The same seed gives the same rows, and more of them begin with these.
///
/// # Errors
///
/// [`NoMemory`] where the texts don't fit memory, and nowhere else.
pub fn generated(alloc: Global, seed: u64, rows: u32) -> Result<Input, NoMemory>
    ensures schema { IfOk result (λ input. input.schema ≡ schema_text) }
    ensures sale { IfOk result (λ input. input.sale ≡ sale_text seed rows) }
    ensures shop { IfOk result (λ input. input.shop ≡ shop_text) }
    ensures queries { IfOk result (λ input. input.queries ≡ queries_text) }
{
    Ok(Input {
        schema: schema(alloc)?,
        sale: sale_file(alloc, seed, rows)?,
        shop: shop(alloc)?,
        queries: queries(alloc)?,
    })
}

/// The schema as a text.
fn schema(alloc: Global) -> Result<Text, NoMemory>
    ensures { IfOk result (λ text. text ≡ schema_text) }
{
    Ok(Text::new(String::from_str(alloc, SCHEMA)?))
}

/// The file of SHOP as a text.
fn shop(alloc: Global) -> Result<Text, NoMemory>
    ensures { IfOk result (λ text. text ≡ shop_text) }
{
    Ok(Text::new(String::from_str(alloc, SHOP)?))
}

/// The queries as a text.
fn queries(alloc: Global) -> Result<Text, NoMemory>
    ensures { IfOk result (λ text. text ≡ queries_text) }
{
    Ok(Text::new(String::from_str(alloc, QUERIES)?))
}
