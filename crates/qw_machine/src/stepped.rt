//! What a step comes to, and how a run ends.

ghost use Rattle.std.specs.Prelude.{◌≡◌, ◌≤◌, ◌||◌, is_some, IfSome};
ghost use Rattle.qw_machine.specs.Instance.{asked_by};
ghost use Rattle.qw_machine.specs.Inner.Ended.{end_by, is_over, made_of, run_end_of};

use crate::operators::Operated;
use qw_module::trap::Trap;

/// What a step came to.
#[derive(Clone, Copy, Debug, PartialEq, Eq)]
pub enum Stepped {
    Ran,
    /// A request was granted: the memory's size before, and how much it grew, in pages.
    Grew { at: u32, pages: u32 },
    /// A request for so many pages was refused.
    Refused { pages: u32 },
    /// The host is asked for so many pages, and the step is made when it has answered
    /// ([`Instance::give`](crate::machine::Instance::give)).
    Asked { pages: u32 },
    /// This step left `run`, whatever its instruction.
    Returned,
    /// `raise` was called with this code.
    Raised(u32),
    /// The instruction trapped, and nothing was written.
    Trapped(Trap),
}

impl Stepped {
    /// How the run has ended, if no step follows.
    pub(crate) fn end(self) -> Option<RunEnd>
        ensures { result ≡ run_end_of self }
    {
        match self {
            Stepped::Ran | Stepped::Grew { .. } | Stepped::Refused { .. } | Stepped::Asked { .. } =>
                None,
            Stepped::Returned => Some(RunEnd::Returned),
            Stepped::Raised(code) => Some(RunEnd::Raised(code)),
            Stepped::Trapped(why) => Some(RunEnd::Trapped(why)),
        }
    }

    /// For how many pages the host is asked, if it is.
    pub(crate) fn asked(self) -> Option<u32>
        ensures { result ≡ asked_by self }
    {
        match self {
            Stepped::Asked { pages } => Some(pages),
            _ => None,
        }
    }

    /// Whether an instruction that came to this finishes nothing: the run has ended, or the host is asked.
    pub(crate) fn halts(self) -> bool
        ensures { result ≡ (is_over self || is_some (asked_by self)) }
    {
        !matches!(
            self,
            Stepped::Ran | Stepped::Grew { .. } | Stepped::Refused { .. }
        )
    }
}

/// How many steps were made one after another, and what the last of them came to.
#[derive(Clone, Copy, Debug, PartialEq, Eq)]
pub struct Run {
    pub steps: u64,
    pub last: Stepped,
}

impl Run {
    /// So many steps, after which the run goes on.
    pub(crate) fn going(steps: u64) -> Self
        ensures { result ≡ record { steps = steps; last = Stepped.Ran } }
    {
        Run {
            steps,
            last: Stepped::Ran,
        }
    }

    /// The steps that were made, of those counted: where the last one asks the host, it isn't made yet.
    pub(crate) fn made(self) -> Self
        requires { IfSome (asked_by self.last) (λ pages. 1 ≤ self.steps) }
        ensures { result ≡ record { steps = made_of self; last = self.last } }
    {
        let waits = u64::from(self.last.asked().is_some());
        Run {
            steps: self.steps - waits,
            last: self.last,
        }
    }
}

/// How a run has ended.
#[derive(Clone, Copy, PartialEq, Eq)]
pub(crate) enum RunEnd {
    Returned,
    Raised(u32),
    Trapped(Trap),
}

impl RunEnd {
    /// How the run has ended after what was finished was left: not where it goes on, else by its return.
    pub(crate) fn after_leaving(goes: bool) -> Option<Self>
        ensures { result ≡ end_by goes }
    {
        if goes { None } else { Some(RunEnd::Returned) }
    }
}

ghost use Rattle.qw_machine.specs.Inner.Ended.{answer_of};

/// What an operator came to, as a step.
pub(crate) fn operated(operated: Operated) -> Stepped
    ensures { result ≡ answer_of operated }
{
    match operated {
        Operated::Ran => Stepped::Ran,
        Operated::Grew { at, pages } => Stepped::Grew { at, pages },
        Operated::Refused { pages } => Stepped::Refused { pages },
        Operated::Trapped(why) => Stepped::Trapped(why),
    }
}
