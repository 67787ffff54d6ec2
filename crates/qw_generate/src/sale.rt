//! The file of SALE, whose rows are drawn.

ghost use Rattle.std.specs.Prelude.{◌≡◌, ◌++◌, IfOk, OnOk};
ghost use Rattle.std.specs.String.{string_bytes};
ghost use Rattle.qw_generate.specs.Generated.{day_text, draw_of, kind_text, next, price_text, sale_line, sale_text, two_digits};

use crate::draws::Draws;
use qw_types::number_text::push_decimal;
use qw_types::{NoMemory, Text};
use std::alloc::Global;

/// The file of so many rows.
pub(crate) fn sale_file(alloc: Global, seed: u64, rows: u32) -> Result<Text, NoMemory>
    ensures { IfOk result (λ text. text ≡ sale_text seed rows) }
{
    let mut text = String::from_str(alloc, "ID,SHOP,PRICE,SOLD,KIND\n")?;
    let mut draws = Draws::new(seed);
    for row in 0..rows {
        push_sale(&mut text, row + 1, &mut draws)?;
    }
    Ok(Text::new(text))
}

/// Adds the line of a sale, which takes four draws.
fn push_sale(text: &mut String, id: u32, draws: &mut Draws) -> Result<(), NoMemory>
    ensures text { OnOk result (string_bytes text.new ≡ string_bytes text.old ++ sale_line id (draw_of (next draws.old.state))
        (draw_of (next (next draws.old.state))) (draw_of (next (next (next draws.old.state)))) (draw_of (next (next (next (next draws.old.state)))))) }
    ensures draws { OnOk result (draws.new.state ≡ next (next (next (next draws.old.state)))) }
{
    let shop = draws.draw();
    let price = draws.draw();
    let sold = draws.draw();
    let kind = draws.draw();
    push_line(text, id, shop, price, sold, kind)
}

/// Adds the line of a sale, by the draw of each column behind the ID.
fn push_line(
    text: &mut String,
    id: u32,
    shop: u32,
    price: u32,
    sold: u32,
    kind: u32,
) -> Result<(), NoMemory>
    ensures { OnOk result (string_bytes text.new ≡ string_bytes text.old ++ sale_line id shop price sold kind) }
{
    let shop = shop % 20 + 1;
    write!(text, "{id},{shop},")?;
    push_price(text, price)?;
    text.push_str(",")?;
    push_day(text, sold)?;
    let kind = kind_of(kind);
    write!(text, ",{kind}\n")?;
    Ok(())
}

/// Adds the price that a draw gives, of which every tenth is null.
fn push_price(text: &mut String, draw: u32) -> Result<(), NoMemory>
    ensures { OnOk result (string_bytes text.new ≡ string_bytes text.old ++ price_text draw) }
{
    if draw % 10 == 0 {
        return Ok(());
    }
    push_decimal(text, i64::from(draw % 100_000), 2)
}

/// Adds the day that a draw gives, as YYYY-MM-DD.
fn push_day(text: &mut String, draw: u32) -> Result<(), NoMemory>
    ensures { OnOk result (string_bytes text.new ≡ string_bytes text.old ++ day_text draw) }
{
    let year = 2000 + draw % 10;
    let month = draw / 10 % 12 + 1;
    let day = draw / 120 % 28 + 1;
    write!(text, "{year}-")?;
    push_two(text, month)?;
    text.push_str("-")?;
    push_two(text, day)
}

/// Adds both digits of a number below 100.
fn push_two(text: &mut String, number: u32) -> Result<(), NoMemory>
    ensures { OnOk result (string_bytes text.new ≡ string_bytes text.old ++ two_digits number) }
{
    let tens = number / 10;
    let units = number % 10;
    write!(text, "{tens}{units}")?;
    Ok(())
}

/// The kind that a draw gives.
fn kind_of(draw: u32) -> &'static str
    ensures { result.now ≡ kind_text draw }
{
    match draw % 4 {
        0 => "bolt",
        1 => "nut",
        2 => "gear",
        _ => "pin",
    }
}
