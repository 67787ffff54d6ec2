//! Dates and the intervals behind them (ISO/IEC 9075:1992, 5.3 and 6.14).

ghost use Rattle.qw_parse.specs.Inner.Readers.{date_at, days_at, precision_at};
ghost use Rattle.qw_parse.specs.Inner.Parser.{Passes, Reads, dated, left};

use super::parser::{Parser, Stop};
use super::tree::push;
use qw_ast::script::Interval;

/// A date: its string, with its quotes, and its intervals.
#[derive(Drop)]
pub(crate) struct Date<'a> {
    pub(crate) string: &'a [u8],
    pub(crate) intervals: Vec<Interval<'a>>,
}

impl<'a> Parser<'a> {
    /// Reads the brackets behind DAY, if they are there.
    #[tactic(auto, unfolding(crate::specs::Inner::Readers::precision_at))]
    fn precision(&mut self) -> Result<(), Stop>
        ensures { Passes (precision_at (left self.old)) result (left self.new) }
    {
        if self.symbol(b"(") {
            self.expect_integer()?;
            self.expect_symbol(b")")?;
        }
        Ok(())
    }

    /// Reads what stands behind INTERVAL.
    #[tactic(auto, unfolding(crate::specs::Inner::Readers::days_at))]
    fn days(&mut self) -> Result<&'a [u8], Stop>
        ensures { Reads (λ x. x.now) (days_at (left self.old)) result (left self.new) }
    {
        let days = self.string().ok_or(Stop::NotGrammar)?;
        self.expect_word(b"DAY")?;
        self.precision()?;
        Ok(days)
    }

    /// Reads a date.
    #[tactic(auto, unfolding(crate::specs::Inner::Readers::date_at, crate::specs::Inner::Readers::date_string_at))]
    pub(crate) fn date(&mut self) -> Result<Date<'a>, Stop>
        ensures { Reads dated (date_at (left self.old)) result (left self.new) }
    {
        self.expect_word(b"DATE")?;
        let string = self.string().ok_or(Stop::NotGrammar)?;
        let mut intervals = Vec::new(self.alloc);
        'intervals: while let Some(sign) = self.interval_sign() {
            let days = self.days()?;
            push(&mut intervals, Interval { sign, days })?;
        }
        Ok(Date { string, intervals })
    }
}
