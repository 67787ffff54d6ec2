//! Draws and rows that were worked out by hand. No function here computes anything.

ghost use Rattle.std.specs.Prelude.{◌≡◌, [], ◌++◌, codes};
ghost use Rattle.qw_generate.specs.Generated.{city_text, day_text, drawn, kind_text, price_text, sale_text, shop_line};

/// The draws of seed 0.
pub fn draws_of_zero()
    ensures first { drawn 0 1 ≡ 167951807 }
    ensures second { drawn 0 2 ≡ 218396424 }
    ensures third { drawn 0 3 ≡ 1299921937 }
    ensures fourth { drawn 0 4 ≡ 861605236 }
{}

/// The file of SALE of seed 0, with no row and with one.
pub fn sales_of_zero()
    ensures none { sale_text 0 0 ≡ codes "ID,SHOP,PRICE,SOLD,KIND\n" }
    ensures one { sale_text 0 1 ≡ codes "ID,SHOP,PRICE,SOLD,KIND\n" ++ codes "1,8,964.24,2007-10-15,bolt\n" }
{}

/// What draws give, at their edges.
pub fn fields_of_draws()
    ensures no_price { price_text 100010 ≡ [] }
    ensures least_price { price_text 100001 ≡ codes "0.01" }
    ensures greatest_price { price_text 99999 ≡ codes "999.99" }
    ensures first_day { day_text 0 ≡ codes "2000-01-01" }
    ensures last_day { day_text 3359 ≡ codes "2009-12-28" }
    ensures day_again { day_text 3360 ≡ codes "2000-01-01" }
    ensures kinds { (kind_text 4 ≡ codes "bolt") × (kind_text 5 ≡ codes "nut") × (kind_text 6 ≡ codes "gear") × (kind_text 7 ≡ codes "pin") }
{}

/// Rows of SHOP: the first, one whose city is the last in turn, and the one without a city.
pub fn rows_of_shop()
    ensures first { shop_line 1 ≡ codes "1,city1\n" }
    ensures twelfth { shop_line 12 ≡ codes "12,city0\n" }
    ensures last { shop_line 16 ≡ codes "16,\n" }
    ensures no_city { city_text 16 ≡ [] }
{}
