//! Generated input: the texts of two seeds, which a program of the same rule in another language gave too.

use qw_generate::input::generated;
use std::test::Fail;

const SCHEMA: &str =
    "CREATE TABLE SALE (ID INTEGER NOT NULL, SHOP INTEGER NOT NULL, PRICE DECIMAL(9,2),\n  SOLD DATE NOT NULL, KIND VARCHAR(8) NOT NULL);\nCREATE TABLE SHOP (ID INTEGER NOT NULL, CITY VARCHAR(8));\n";

const SHOP: &str =
    "ID,CITY\n1,city1\n2,city2\n3,city3\n4,city0\n5,city1\n6,city2\n7,city3\n8,city0\n9,city1\n10,city2\n11,city3\n12,city0\n13,city1\n14,city2\n15,city3\n16,\n";

const QUERIES: &str =
    "SELECT KIND, COUNT(*) AS N, SUM(PRICE) AS S FROM SALE GROUP BY KIND ORDER BY KIND;\nSELECT CITY, COUNT(*) AS N, AVG(PRICE) AS A FROM SALE JOIN SHOP ON SALE.SHOP = SHOP.ID\n  GROUP BY CITY ORDER BY CITY;\nSELECT COUNT(*) AS N FROM SALE LEFT JOIN SHOP ON SALE.SHOP = SHOP.ID\n  WHERE SHOP.ID IS NULL AND SOLD >= DATE '2005-01-01';\n";

const ONE_SALE: &str = "ID,SHOP,PRICE,SOLD,KIND\n1,8,964.24,2007-10-15,bolt\n";

const THREE_SALES: &str =
    "ID,SHOP,PRICE,SOLD,KIND\n1,9,323.43,2007-04-23,gear\n2,5,339.87,2005-05-04,pin\n3,1,895.32,2003-09-11,gear\n";

#[test]
fn one_row_of_seed_zero(rt: HostRuntime) -> Result<(), Fail> {
    let input = generated(rt.alloc(), 0, 1)?;
    assert_eq!(rt;
        (input.schema.as_str(), input.sale.as_str()),
        (SCHEMA, ONE_SALE)
    );
    assert_eq!(rt;
        (input.shop.as_str(), input.queries.as_str()),
        (SHOP, QUERIES)
    );
    Ok(())
}

#[test]
fn rows_of_the_greatest_seed(rt: HostRuntime) -> Result<(), Fail> {
    let input = generated(rt.alloc(), u64::MAX, 3)?;
    assert_eq!(rt; input.sale.as_str(), THREE_SALES);
    Ok(())
}
